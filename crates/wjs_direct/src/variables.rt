//! Variables with initialisers, of a `var` and of a `for`, evaluated by recursion (ECMA-262, 3rd edition, sections 12.2 and 12.6.3).
ghost use Rattle.std.specs.Prelude.{◌≡◌, ◌+◌, []};
ghost use Rattle.wjs_base.specs.Text.{Has};
ghost use Rattle.wjs_meaning.specs.Deeds.{Sub, then_normal};
ghost use Rattle.wjs_meaning.specs.Loops.{loop_from};
ghost use Rattle.wjs_meaning.specs.Reading.{number};
ghost use Rattle.wjs_model.specs.Contents.{completion_in};
ghost use Rattle.wjs_model.specs.Soundness.{Base, HasCompletion, IsThere, StandsHere};
ghost use Rattle.wjs_frames.specs.Following.{Later};
ghost use Rattle.wjs_stopping.specs.Evaluating.{Evaluates, HasOutcome, InMemory};
ghost use Rattle.wjs_direct_lines.specs.Deeds.{line_here};
ghost use Rattle.wjs_direct_lines.specs.Variables.{Declares, DeclaresFirst, GoesNext, variables_left};

use crate::expressions::value;
use crate::loops::run_loop;
use wjs_direct_lines::{variable_at, variable_stored};
use wjs_model::{Completion, Config, Frame, Point, StmtPoint};
use wjs_step_common::number_after;
use wjs_stopping::{Broken, Stops, waits};
use wjs_store::WorldStore;
use wjs_tree::{Declarator, NodeId};

/// A `for` that begins with variables: they come before its first iteration, in a frame of their own where they stop.
#[cycle(direct)]
#[inline(never)]
pub(crate) fn for_variables<S: WorldStore>(
    config: &mut Config<S>,
    frame: &Frame,
    node: NodeId,
    test: Option<NodeId>,
    update: Option<NodeId>,
    body: NodeId,
    room: u16,
    stops: &mut Stops,
) -> Result<Completion, Broken>
    requires base { Base S.meaning config.old }
    requires there { IsThere S.meaning config.old frame.now }
    requires node { StandsHere config.old frame.now node }
    requires empty { stops.old.waits ≡ [] }
    requires is { DeclaresFirst S.meaning config.old frame.now node test update body }
    ensures later { InMemory result (Later S.meaning config.old config.new) }
    ensures found { HasOutcome S.meaning HasCompletion config.new result stops.new.waits stops.new.top }
    ensures does { Evaluates S.meaning (line_here S.meaning config.old frame.now (λ t env.
        Sub (variables_left config.old frame.now node 0 t env) (then_normal (loop_from node.0 (number test) (number update) body.0 env))))
        completion_in result stops.new.waits stops.new.top config.old config.new }
{
    match run_variables(config, frame, node, 0, room, stops) {
        Ok(end) => match end {
            Completion::Normal => run_loop(config, frame, node, test, update, body, room, stops),
            _ => Ok(end),
        },
        Err(end) => {
            let point = Point::Stmt(StmtPoint::ForVariables);
            Err(waits(config, frame, node, point, end, stops))
        }
    }
}

/// The variables of a node from one of a number on, in one Rust loop: each value is stored before the next one is asked for.
#[cycle(direct)]
#[inline(never)]
pub(crate) fn run_variables<S: WorldStore>(
    config: &mut Config<S>,
    frame: &Frame,
    node: NodeId,
    from: u32,
    room: u16,
    stops: &mut Stops,
) -> Result<Completion, Broken>
    requires base { Base S.meaning config.old }
    requires there { IsThere S.meaning config.old frame.now }
    requires node { StandsHere config.old frame.now node }
    requires empty { stops.old.waits ≡ [] }
    ensures later { InMemory result (Later S.meaning config.old config.new) }
    ensures found { HasOutcome S.meaning HasCompletion config.new result stops.new.waits stops.new.top }
    ensures does { Evaluates S.meaning (line_here S.meaning config.old frame.now (variables_left config.old frame.now node from))
        completion_in result stops.new.waits stops.new.top config.old config.new }
{
    let mut at = from;
    while let Some(variable) = variable_at(config, frame, node, at) {
        let next = number_after(at)?;
        match declared(config, frame, node, at, variable, room, stops) {
            Ok(end) => match end {
                Completion::Normal => at = next,
                _ => return Ok(end),
            },
            Err(end) => return Err(end),
        }
    }
    Ok(Completion::Normal)
}

/// One variable: the value of its initialiser is stored; one without an initialiser is passed.
#[cycle(direct)]
fn declared<S: WorldStore>(
    config: &mut Config<S>,
    frame: &Frame,
    node: NodeId,
    at: u32,
    variable: Declarator,
    room: u16,
    stops: &mut Stops,
) -> Result<Completion, Broken>
    requires base { Base S.meaning config.old }
    requires there { IsThere S.meaning config.old frame.now }
    requires node { StandsHere config.old frame.now node }
    requires empty { stops.old.waits ≡ [] }
    requires is { Declares config.old frame.now node at variable }
    requires name { Has config.old.heap.texts variable.name }
    ensures later { InMemory result (Later S.meaning config.old config.new) }
    ensures found { HasOutcome S.meaning HasCompletion config.new result stops.new.waits stops.new.top }
    ensures does { GoesNext S.meaning (line_here S.meaning config.old frame.now (variables_left config.old frame.now node at))
        frame.now (variables_left config.old frame.now node (at + 1)) result stops.new.waits stops.new.top config.old config.new }
{
    match variable.value {
        Some(e) => match value(config, frame, e, room, stops) {
            Ok(value) => variable_stored(config, frame, node, at, variable, value, stops),
            Err(end) => {
                let point = Point::Stmt(StmtPoint::VariableValue(at));
                Err(waits(config, frame, node, point, end, stops))
            }
        },
        None => Ok(Completion::Normal),
    }
}
