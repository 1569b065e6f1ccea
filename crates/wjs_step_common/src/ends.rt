//! What lines end with: a value, a text, a result of arithmetic, an error.
ghost use Rattle.std.specs.Prelude.{◌+◌, ◌≤◌, ◌++◌, length};
ghost use Rattle.wjs_base.specs.Text.{Has, longest};
ghost use Rattle.wjs_num.specs.Exact.{answer};
ghost use Rattle.wjs_by_content.specs.Tables.{text_in, value_in};
ghost use Rattle.wjs_by_content.specs.Values.{String};
ghost use Rattle.wjs_meaning.specs.Deeds as line;
ghost use Rattle.wjs_meaning.specs.Errors as errors;
ghost use Rattle.wjs_model.specs.Soundness.{HasValue};
ghost use Rattle.wjs_frames.specs.Handling.{IsRunning, GoesOn};

use wjs_base::{OutOfMemory, TextId, Value, Whole};
use wjs_frames::finish;
use wjs_heap_steps::{create_error, extend, intern, units_of};
use wjs_model::{Completion, Config, Frame, Trouble};
use wjs_num::NumFault;
use wjs_store::WorldStore;
use wjs_texts::LONGEST_TEXT;

/// Ends with a value.
#[inline(always)]
pub fn give<S: WorldStore>(
    config: &mut Config<S>,
    frame: Frame,
    value: Value,
) -> Result<(), OutOfMemory>
    requires running { IsRunning S.meaning config.old }
    requires value { HasValue config.old value }
    ensures { GoesOn S.meaning frame config.old config.new result (λ t env. line.give (value_in t value)) }
{
    finish(config, frame, Completion::Gives(value))
}

/// Throws an error (ECMA-262, 3rd edition, section 15.11.6).
pub fn throw<S: WorldStore>(
    config: &mut Config<S>,
    frame: Frame,
    trouble: Trouble,
) -> Result<(), OutOfMemory>
    requires running { IsRunning S.meaning config.old }
    ensures { GoesOn S.meaning frame config.old config.new result (λ t env. errors.throw trouble env) }
{
    let error = create_error(config, trouble)?;
    finish(config, frame, Completion::Throws(Value::Object(error)))
}

/// Ends with a text of these code units; one that is too long is thrown as an error.
pub fn give_text<S: WorldStore>(
    config: &mut Config<S>,
    frame: Frame,
    units: &[u16],
) -> Result<(), OutOfMemory>
    requires running { IsRunning S.meaning config.old }
    ensures { GoesOn S.meaning frame config.old config.new result (λ t env. errors.give_text units.now env) }
{
    if LONGEST_TEXT < units.len() {
        throw(config, frame, Trouble::TextTooLong)
    } else {
        give_short(config, frame, units)
    }
}

/// Ends with a text of these code units, which is not too long.
pub fn give_short<S: WorldStore>(
    config: &mut Config<S>,
    frame: Frame,
    units: &[u16],
) -> Result<(), OutOfMemory>
    requires running { IsRunning S.meaning config.old }
    requires short { length units.now ≤ longest }
    ensures { GoesOn S.meaning frame config.old config.new result (λ t env. line.give (String units.now)) }
{
    let id = intern(config, units)?;
    finish(config, frame, Completion::Gives(Value::Text(id)))
}

/// Ends with the text that has the units of another and then these; one that is too long is thrown as an error.
pub(crate) fn give_extended<S: WorldStore>(
    config: &mut Config<S>,
    frame: Frame,
    front: TextId,
    back: &[u16],
) -> Result<(), OutOfMemory>
    requires running { IsRunning S.meaning config.old }
    requires front { Has config.old.heap.texts front }
    ensures { GoesOn S.meaning frame config.old config.new result (λ t env. errors.give_text (text_in t front ++ back.now) env) }
{
    let room = LONGEST_TEXT - units_of(config, front).len();
    let count = back.len();
    if count > room {
        throw(config, frame, Trouble::TextTooLong)
    } else {
        extend_short(config, frame, front, back)
    }
}

fn extend_short<S: WorldStore>(
    config: &mut Config<S>,
    frame: Frame,
    front: TextId,
    back: &[u16],
) -> Result<(), OutOfMemory>
    requires running { IsRunning S.meaning config.old }
    requires front { Has config.old.heap.texts front }
    requires short { length (text_in config.old.heap.texts front) + length back.now ≤ longest }
    ensures { GoesOn S.meaning frame config.old config.new result (λ t env. line.give (String (text_in t front ++ back.now))) }
{
    let id = extend(config, front, back)?;
    finish(config, frame, Completion::Gives(Value::Text(id)))
}

/// Ends with a result of arithmetic; its fault is thrown as an error.
#[inline(always)]
pub fn give_result<S: WorldStore>(
    config: &mut Config<S>,
    frame: Frame,
    outcome: Result<Whole, NumFault>,
) -> Result<(), OutOfMemory>
    requires running { IsRunning S.meaning config.old }
    ensures { GoesOn S.meaning frame config.old config.new result (λ t env. errors.give_result (answer outcome) env) }
{
    match outcome {
        Ok(number) => finish(config, frame, Completion::Gives(Value::Number(number))),
        Err(NumFault::OutOfRange) => throw(config, frame, Trouble::OutOfRange),
        Err(NumFault::NotWhole) => throw(config, frame, Trouble::NotWhole),
    }
}
