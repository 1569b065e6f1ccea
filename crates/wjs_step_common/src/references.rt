//! The ends of lines with a reference (ECMA-262, 3rd edition, section 8.7): its value, or a store to it and then a value.
ghost use Rattle.wjs_by_content.specs.Tables.{value_in};
ghost use Rattle.wjs_meaning.specs.Deeds.{give};
ghost use Rattle.wjs_meaning.specs.Expressions as line;
ghost use Rattle.wjs_meaning.specs.References as references;
ghost use Rattle.wjs_model.specs.Contents.{reference_in};
ghost use Rattle.wjs_model.specs.Soundness.{HasValue, HasReference};
ghost use Rattle.wjs_frames.specs.Handling.{Runs, GoesOn};

use wjs_base::{OutOfMemory, Value};
use wjs_frames::finish;
use wjs_heap_steps::{store, value_of};
use wjs_model::{Completion, Config, Frame, Reference};
use wjs_store::WorldStore;

/// Ends with the value of a reference.
#[inline(always)]
pub fn give_value_of<S: WorldStore>(
    config: &mut Config<S>,
    frame: Frame,
    reference: Reference,
) -> Result<(), OutOfMemory>
    requires runs { Runs S.meaning config.old frame }
    requires reference { HasReference config.old reference }
    ensures { GoesOn S.meaning frame config.old config.new result (λ t env. line.give_value_of env (reference_in t reference)) }
{
    let answer = value_of(config, &frame, reference)?;
    match answer {
        Ok(value) => finish(config, frame, Completion::Gives(value)),
        Err(error) => finish(config, frame, Completion::Throws(error)),
    }
}

/// Stores a value to a reference, and ends with another.
#[inline(always)]
pub fn store_and_give<S: WorldStore>(
    config: &mut Config<S>,
    frame: Frame,
    reference: Reference,
    value: Value,
    given: Value,
) -> Result<(), OutOfMemory>
    requires runs { Runs S.meaning config.old frame }
    requires reference { HasReference config.old reference }
    requires value { HasValue config.old value }
    requires given { HasValue config.old given }
    ensures { GoesOn S.meaning frame config.old config.new result (λ t env.
        references.store (reference_in t reference) (value_in t value) env (give (value_in t given))) }
{
    let answer = store(config, &frame, reference, value)?;
    match answer {
        Ok(_) => finish(config, frame, Completion::Gives(given)),
        Err(error) => finish(config, frame, Completion::Throws(error)),
    }
}
