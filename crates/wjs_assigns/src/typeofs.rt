//! `typeof` (ECMA-262, 3rd edition, section 11.4.3).
ghost use Rattle.wjs_by_content.specs.Tables.{value_in, name_in};
ghost use Rattle.wjs_meaning.specs.Expressions as line;
ghost use Rattle.wjs_meaning.specs.Properties.{get_value};
ghost use Rattle.wjs_meaning.specs.References as references;
ghost use Rattle.wjs_model.specs.Contents.{reference_in};
ghost use Rattle.wjs_model.specs.Soundness.{HasName, HasReference, HasValue};
ghost use Rattle.wjs_frames.specs.Handling.{Runs, IsRunning, GoesOn};

use wjs_base::{Name, OutOfMemory, Value};
use wjs_effects::type_of;
use wjs_frames::finish;
use wjs_heap_steps::{get_value, value_of};
use wjs_model::{Completion, Config, Frame, Reference};
use wjs_store::WorldStore;

/// After the value: the name of its type.
pub fn typeof_value<S: WorldStore>(
    config: &mut Config<S>,
    frame: Frame,
    value: Value,
) -> Result<(), OutOfMemory>
    requires running { IsRunning S.meaning config.old }
    requires value { HasValue config.old value }
    ensures { GoesOn S.meaning frame config.old config.new result (λ t env. line.typeof_value (value_in t value)) }
{
    let name = type_of(config, value)?;
    finish(config, frame, Completion::Gives(name))
}

/// After the reference: an absent global name is undefined, and throws nothing.
pub fn typeof_reference<S: WorldStore>(
    config: &mut Config<S>,
    frame: Frame,
    reference: Reference,
) -> Result<(), OutOfMemory>
    requires runs { Runs S.meaning config.old frame }
    requires reference { HasReference config.old reference }
    ensures { GoesOn S.meaning frame config.old config.new result (λ t env. line.typeof_reference env (reference_in t reference)) }
{
    match reference {
        Reference::Global(name) => typeof_global(config, frame, name),
        _ => typeof_found(config, frame, reference),
    }
}

/// A property of the global object.
fn typeof_global<S: WorldStore>(
    config: &mut Config<S>,
    frame: Frame,
    name: Name,
) -> Result<(), OutOfMemory>
    requires runs { Runs S.meaning config.old frame }
    requires name { HasName config.old name }
    ensures { GoesOn S.meaning frame config.old config.new result (λ t env. get_value env.global (name_in t name) env line.typeof_value) }
{
    let global = config.global;
    let value = get_value(config, &frame, global, name)?;
    typeof_value(config, frame, value)
}

/// A reference whose value is taken as any other.
fn typeof_found<S: WorldStore>(
    config: &mut Config<S>,
    frame: Frame,
    reference: Reference,
) -> Result<(), OutOfMemory>
    requires runs { Runs S.meaning config.old frame }
    requires reference { HasReference config.old reference }
    ensures { GoesOn S.meaning frame config.old config.new result (λ t env. references.value_of (reference_in t reference) env line.typeof_value) }
{
    let answer = value_of(config, &frame, reference)?;
    match answer {
        Ok(value) => typeof_value(config, frame, value),
        Err(error) => finish(config, frame, Completion::Throws(error)),
    }
}
