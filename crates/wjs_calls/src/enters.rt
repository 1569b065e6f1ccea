//! The entry of functions, in the place of the frame that was taken off: the values that it holds are the arguments.
ghost use Rattle.std.specs.Prelude.{true, false};
ghost use Rattle.wjs_by_content.specs.Tables.{value_in};
ghost use Rattle.wjs_meaning.specs.Deeds.{Ret, Eval, AtBody, AtNative};
ghost use Rattle.wjs_model.specs.Contents.{holding_in};
ghost use Rattle.wjs_model.specs.Soundness.{HasObject, HasValue};
ghost use Rattle.wjs_frames.specs.Handling.{Runs, GoesOn};

use wjs_arena::Native;
use wjs_base::{ObjId, OutOfMemory, Value};
use wjs_frames::due_later;
use wjs_model::{Config, Frame, Start};
use wjs_store::WorldStore;

/// The body of a function that a script made.
pub(crate) fn enter_body<S: WorldStore>(
    config: &mut Config<S>,
    frame: Frame,
    function: ObjId,
    this: Value,
) -> Result<(), OutOfMemory>
    requires runs { Runs S.meaning config.old frame }
    requires function { HasObject config.old function }
    requires this { HasValue config.old this }
    ensures { GoesOn S.meaning frame config.old config.new result (λ t env.
        Eval (AtBody function (holding_in t frame.held).values) (record env { this = value_in t this }) Ret) }
{
    let mut frame = frame;
    frame.set_this(this);
    due_later(config, frame, Start::Body(function))
}

/// A native function.
pub(crate) fn enter_native<S: WorldStore>(
    config: &mut Config<S>,
    frame: Frame,
    native: Native,
    this: Value,
) -> Result<(), OutOfMemory>
    requires runs { Runs S.meaning config.old frame }
    requires this { HasValue config.old this }
    ensures { GoesOn S.meaning frame config.old config.new result (λ t env.
        Eval (AtNative native false (holding_in t frame.held).values) (record env { this = value_in t this }) Ret) }
{
    let mut frame = frame;
    frame.set_this(this);
    due_later(config, frame, Start::Native(native, false))
}

/// A native function that `new` calls; its `this` is undefined.
pub(crate) fn enter_constructor<S: WorldStore>(
    config: &mut Config<S>,
    frame: Frame,
    native: Native,
) -> Result<(), OutOfMemory>
    requires runs { Runs S.meaning config.old frame }
    ensures { GoesOn S.meaning frame config.old config.new result (λ t env.
        Eval (AtNative native true (holding_in t frame.held).values) (record env { this = value_in t Value.Undefined }) Ret) }
{
    let mut frame = frame;
    frame.set_this(Value::Undefined);
    due_later(config, frame, Start::Native(native, true))
}
