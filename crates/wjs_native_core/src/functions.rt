//! The native functions of Function (ECMA-262, 3rd edition, section 15.3).
ghost use Rattle.std.specs.Prelude.{All, Some, map};
ghost use Rattle.wjs_by_content.specs.Tables.{value_in, arena_in};
ghost use Rattle.wjs_meaning.specs.Expressions.{call_values};
ghost use Rattle.wjs_meaning.specs.NativesOfObjects as line;
ghost use Rattle.wjs_meaning.specs.Table.{row_of};
ghost use Rattle.wjs_model.specs.Soundness.{HasObject, HasValue};
ghost use Rattle.wjs_frames.specs.Handling.{Runs, GoesOn};

use crate::sources::source_of;
use wjs_base::{ObjId, OutOfMemory, Value};
use wjs_calls::call_value;
use wjs_heap_steps::{code_of, function_of};
use wjs_model::{Config, Frame, Trouble};
use wjs_natives::items_of;
use wjs_step_common::{give_text, throw};
use wjs_store::WorldStore;

/// `toString`: the name of the receiver, which must be a function (section 15.3.4.2).
pub(crate) fn give_source<S: WorldStore>(
    config: &mut Config<S>,
    frame: Frame,
    this: Value,
) -> Result<(), OutOfMemory>
    requires runs { Runs S.meaning config.old frame }
    requires this { HasValue config.old this }
    ensures { GoesOn S.meaning frame config.old config.new result (λ t env. line.function_to_string (value_in t this) (λ k. (row_of k).name) env) }
{
    match function_of(config, this) {
        Some(function) => give_source_of(config, frame, function),
        None => throw(config, frame, Trouble::WrongReceiver),
    }
}

/// The name of a function.
fn give_source_of<S: WorldStore>(
    config: &mut Config<S>,
    frame: Frame,
    function: ObjId,
) -> Result<(), OutOfMemory>
    requires runs { Runs S.meaning config.old frame }
    requires function { HasObject config.old function }
    ensures { GoesOn S.meaning frame config.old config.new result (λ t env.
        line.function_text (Some function) (arena_in t config.old.heap.arena) (λ k. (row_of k).name) env) }
{
    let units = source_of(config, &frame, code_of(config, function))?;
    give_text(config, frame, units.as_slice())
}

/// `call`: calls the receiver, with the first argument as its own receiver (section 15.3.4.4).
pub(crate) fn call_on<S: WorldStore>(
    config: &mut Config<S>,
    frame: Frame,
    this: Value,
    args: &[Value],
) -> Result<(), OutOfMemory>
    requires runs { Runs S.meaning config.old frame }
    requires this { HasValue config.old this }
    requires args { All (HasValue config.old) args.now }
    ensures { GoesOn S.meaning frame config.old config.new result (λ t env. line.function_call (value_in t this) (map (value_in t) args.now) env) }
{
    match args.split_first() {
        None => call_with(config, frame, this, Value::Undefined, &[]),
        Some((receiver, others)) => call_with(config, frame, this, *receiver, others),
    }
}

/// Calls a value that must be a function.
fn call_with<S: WorldStore>(
    config: &mut Config<S>,
    mut frame: Frame,
    callee: Value,
    this: Value,
    args: &[Value],
) -> Result<(), OutOfMemory>
    requires runs { Runs S.meaning config.old frame }
    requires callee { HasValue config.old callee }
    requires this { HasValue config.old this }
    requires args { All (HasValue config.old) args.now }
    ensures { GoesOn S.meaning frame config.old config.new result (λ t env. call_values (value_in t callee) (value_in t this) env (map (value_in t) args.now)) }
{
    frame.set_held(items_of(config, args)?);
    call_value(config, frame, callee, this)
}
