//! Statements of one expression (sections 12.4, 12.5, 12.9 and 12.13).
ghost use Rattle.wjs_by_content.specs.Tables.{value_in};
ghost use Rattle.wjs_meaning.specs.Deeds.{then_value};
ghost use Rattle.wjs_meaning.specs.Reading.{number};
ghost use Rattle.wjs_meaning.specs.Statements.{expr_done, if_test, else_of, return_value, throw_value};
ghost use Rattle.wjs_model.specs.Contents.{completion_in};
ghost use Rattle.wjs_model.specs.Soundness.{HasValue, HasCompletion, StandsHere, StandsIf};
ghost use Rattle.wjs_frames.specs.Handling.{Runs, GoesOn};

use wjs_base::{OutOfMemory, Value};
use wjs_effects::enter_last_at_once;
use wjs_frames::finish;
use wjs_model::{Completion, Config, Frame};
use wjs_step_common::to_boolean;
use wjs_store::WorldStore;
use wjs_tree::NodeId;

/// After an expression statement, whose value is dropped.
pub fn expr_value<S: WorldStore>(
    config: &mut Config<S>,
    frame: Frame,
    completion: Completion,
) -> Result<(), OutOfMemory>
    requires runs { Runs S.meaning config.old frame }
    requires completion { HasCompletion config.old completion }
    ensures { GoesOn S.meaning frame config.old config.new result (λ t env. then_value expr_done (completion_in t completion)) }
{
    match completion {
        Completion::Gives(_) => finish(config, frame, Completion::Normal),
        other => finish(config, frame, other),
    }
}

/// After the test of an `if`.
pub fn if_test<S: WorldStore>(
    config: &mut Config<S>,
    frame: Frame,
    s: NodeId,
    other: Option<NodeId>,
    completion: Completion,
) -> Result<(), OutOfMemory>
    requires runs { Runs S.meaning config.old frame }
    requires yes { StandsHere config.old frame s }
    requires no { StandsIf config.old frame other }
    requires completion { HasCompletion config.old completion }
    ensures { GoesOn S.meaning frame config.old config.new result (λ t env. then_value (if_test s.0 (number other) env) (completion_in t completion)) }
{
    match completion {
        Completion::Gives(value) => if_chosen(config, frame, s, other, value),
        ended => finish(config, frame, ended),
    }
}

/// The part of an `if` that its test chooses.
fn if_chosen<S: WorldStore>(
    config: &mut Config<S>,
    frame: Frame,
    s: NodeId,
    other: Option<NodeId>,
    value: Value,
) -> Result<(), OutOfMemory>
    requires runs { Runs S.meaning config.old frame }
    requires yes { StandsHere config.old frame s }
    requires no { StandsIf config.old frame other }
    requires value { HasValue config.old value }
    ensures { GoesOn S.meaning frame config.old config.new result (λ t env. if_test s.0 (number other) env (value_in t value)) }
{
    if to_boolean(config, value) {
        enter_last_at_once(config, frame, s)
    } else {
        else_start(config, frame, other)
    }
}

/// The second part of an `if`, if there is one.
fn else_start<S: WorldStore>(
    config: &mut Config<S>,
    frame: Frame,
    other: Option<NodeId>,
) -> Result<(), OutOfMemory>
    requires runs { Runs S.meaning config.old frame }
    requires no { StandsIf config.old frame other }
    ensures { GoesOn S.meaning frame config.old config.new result (λ t env. else_of (number other) env) }
{
    match other {
        Some(s) => enter_last_at_once(config, frame, s),
        None => finish(config, frame, Completion::Normal),
    }
}

/// After the value of a `return`.
pub fn return_value<S: WorldStore>(
    config: &mut Config<S>,
    frame: Frame,
    completion: Completion,
) -> Result<(), OutOfMemory>
    requires runs { Runs S.meaning config.old frame }
    requires completion { HasCompletion config.old completion }
    ensures { GoesOn S.meaning frame config.old config.new result (λ t env. then_value return_value (completion_in t completion)) }
{
    match completion {
        Completion::Gives(value) => finish(config, frame, Completion::Returns(value)),
        other => finish(config, frame, other),
    }
}

/// After the value of a `throw`.
pub fn throw_value<S: WorldStore>(
    config: &mut Config<S>,
    frame: Frame,
    completion: Completion,
) -> Result<(), OutOfMemory>
    requires runs { Runs S.meaning config.old frame }
    requires completion { HasCompletion config.old completion }
    ensures { GoesOn S.meaning frame config.old config.new result (λ t env. then_value throw_value (completion_in t completion)) }
{
    match completion {
        Completion::Gives(value) => finish(config, frame, Completion::Throws(value)),
        other => finish(config, frame, other),
    }
}
