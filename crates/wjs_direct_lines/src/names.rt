//! Names whose value can't be told by a look, since a world has still to note that it is read (ECMA-262, 3rd edition, section 11.1.2).
ghost use Rattle.std.specs.Prelude.{◌≡◌, ◌<◌, [], IfSome};
ghost use Rattle.wjs_meaning.specs.Deeds.{AtExpr};
ghost use Rattle.wjs_model.specs.Soundness.{Base, HasValue, IsThere, StandsHere};
ghost use Rattle.wjs_frames.specs.Following.{Later};
ghost use Rattle.wjs_frames.specs.Operands.{IsOperand};
ghost use Rattle.wjs_stopping.specs.Ends.{gives_in};
ghost use Rattle.wjs_stopping.specs.Evaluating.{Evaluates, HasOutcome, InMemory};
ghost use Rattle.wjs_direct_lines.specs.Deeds.{goal_here};

use crate::stores::value_or_thrown;
use wjs_base::{NodeId, TextId, Value};
use wjs_frames::{Part, operand_of};
use wjs_heap_steps::name_completion;
use wjs_model::{Config, Frame, Operand, Phase, Start};
use wjs_scope::Place;
use wjs_stopping::{Broken, Stops, stop};
use wjs_store::WorldStore;

/// An expression that is of no form evaluated here: a name is read, where a step is left; every other one is left to a frame, before its
/// step.
#[inline(never)]
pub fn read<S: WorldStore>(
    config: &mut Config<S>,
    frame: &Frame,
    node: NodeId,
    stops: &mut Stops,
) -> Result<Value, Broken>
    requires base { Base S.meaning config.old }
    requires there { IsThere S.meaning config.old frame.now }
    requires node { StandsHere config.old frame.now node }
    requires empty { stops.old.waits ≡ [] }
    ensures later { InMemory result (Later S.meaning config.old config.new) }
    ensures found { HasOutcome S.meaning HasValue config.new result stops.new.waits stops.new.top }
    ensures does { Evaluates S.meaning (goal_here S.meaning config.old frame.now (AtExpr node.0))
        gives_in result stops.new.waits stops.new.top config.old config.new }
{
    match name_here(config, frame, node) {
        Some((place, name)) => name_read(config, frame, node, place, name, stops),
        None => Err(stop(config, frame, node, Phase::Due(Start::Expr), stops)),
    }
}

/// The name that an expression is, and its place, where a step is left for it.
#[inline(always)]
fn name_here<S: WorldStore>(
    config: &Config<S>,
    frame: &Frame,
    node: NodeId,
) -> Option<(Place, TextId)>
    requires base { Base S.meaning config.now }
    requires there { IsThere S.meaning config.now frame.now }
    ensures is { IfSome result (λ named. IsOperand S.meaning config.now frame.now (Part.Expr node) (Operand.Name named.0 named.1)) }
    ensures left { IfSome result (λ named. 0 < config.now.left) }
{
    if config.left == 0 {
        return None;
    }
    match operand_of(config, frame, Part::Expr(node)) {
        Some(Operand::Name(place, name)) => Some((place, name)),
        _ => None,
    }
}

/// Its value, and its step.
#[inline(always)]
fn name_read<S: WorldStore>(
    config: &mut Config<S>,
    frame: &Frame,
    node: NodeId,
    place: Place,
    name: TextId,
    stops: &mut Stops,
) -> Result<Value, Broken>
    requires base { Base S.meaning config.old }
    requires there { IsThere S.meaning config.old frame.now }
    requires empty { stops.old.waits ≡ [] }
    requires operand { IsOperand S.meaning config.old frame.now (Part.Expr node) (Operand.Name place name) }
    requires left { 0 < config.old.left }
    ensures later { InMemory result (Later S.meaning config.old config.new) }
    ensures found { HasOutcome S.meaning HasValue config.new result stops.new.waits stops.new.top }
    ensures does { Evaluates S.meaning (goal_here S.meaning config.old frame.now (AtExpr node.0))
        gives_in result stops.new.waits stops.new.top config.old config.new }
{
    let _node = node;
    let _stops = stops;
    config.left -= 1;
    let end = name_completion(config, frame, place, name)?;
    value_or_thrown(end)
}
