//! A turn of a native function, up to where it runs.
ghost use Rattle.std.specs.Prelude.{◌≡◌, ◌∷◌, IfOk};
ghost use Rattle.wjs_by_content.specs.Tables.{value_in};
ghost use Rattle.wjs_meaning.specs.Deeds.{then_value};
ghost use Rattle.wjs_meaning.specs.Natives.{native_of};
ghost use Rattle.wjs_model.specs.Contents.{completion_in, holding_in};
ghost use Rattle.wjs_model.specs.Soundness.{HasValue, HasCompletion};
ghost use Rattle.wjs_model.specs.Waiting.{after_argument};
ghost use Rattle.wjs_frames.specs.Parts.{env_in};
ghost use Rattle.wjs_natives.specs.Converting.{Progresses};
ghost use Rattle.wjs_frames.specs.Handling.{Runs};

use crate::conversions::{Progress, convert_rest, put};
use wjs_arena::Native;
use wjs_base::{OutOfMemory, Value};
use wjs_frames::finish;
use wjs_model::{Completion, Config, Frame};
use wjs_store::WorldStore;

/// Begins a native function with the conversions of its receiver and of the arguments that the frame holds.
pub fn begin<S: WorldStore>(
    config: &mut Config<S>,
    frame: Frame,
    native: Native,
    by_new: bool,
) -> Result<Progress, OutOfMemory>
    requires runs { Runs S.meaning config.old frame }
    ensures { IfOk result (λ progress. Progresses S.meaning native by_new frame
        (λ t. native_of native by_new (holding_in t frame.held).values
        (env_in S.meaning config.old t frame)) progress config.old config.new) }
{
    let args = frame.values(config.heap.arena.allocator())?;
    let given = args.len();
    let values = with_receiver(frame.this(), args)?;
    convert_rest(config, frame, native, by_new, values, given, 0)
}

/// The receiver, and then the arguments.
fn with_receiver(this: Value, mut args: Vec<Value>) -> Result<Vec<Value>, OutOfMemory>
    ensures { IfOk result (λ values. values.items ≡ this ∷ args.items) }
{
    args.insert(0, this)?;
    Ok(args)
}

/// Goes on after the conversion of the value of a number, the receiver's being 0; a completion of another kind ends the function.
pub fn resume<S: WorldStore>(
    config: &mut Config<S>,
    frame: Frame,
    native: Native,
    by_new: bool,
    at: u32,
    completion: Completion,
) -> Result<Progress, OutOfMemory>
    requires runs { Runs S.meaning config.old frame }
    requires completion { HasCompletion config.old completion }
    ensures { IfOk result (λ progress. Progresses S.meaning native by_new frame
        (λ t. then_value (after_argument native by_new (holding_in t frame.held).values at (env_in S.meaning config.old t frame))
        (completion_in t completion)) progress config.old config.new) }
{
    let Completion::Gives(value) = completion else {
        finish(config, frame, completion)?;
        return Ok(Progress::Over);
    };
    resume_with(config, frame, native, by_new, at, value)
}

/// Goes on with the converted value.
fn resume_with<S: WorldStore>(
    config: &mut Config<S>,
    frame: Frame,
    native: Native,
    by_new: bool,
    at: u32,
    value: Value,
) -> Result<Progress, OutOfMemory>
    requires runs { Runs S.meaning config.old frame }
    requires value { HasValue config.old value }
    ensures { IfOk result (λ progress. Progresses S.meaning native by_new frame
        (λ t. after_argument native by_new (holding_in t frame.held).values at (env_in S.meaning config.old t frame)
        (value_in t value)) progress config.old config.new) }
{
    let mut values = frame.values(config.heap.arena.allocator())?;
    let given = values.len().saturating_sub(1);
    let at = at as usize;
    put(&mut values, at, value)?;
    convert_rest(config, frame, native, by_new, values, given, at + 1)
}
