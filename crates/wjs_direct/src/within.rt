//! The statement `in`, whose block is run in a world ("Worlds: Controlling the Scope of Side Effects", ECOOP 2011).
ghost use Rattle.std.specs.Prelude.{◌≡◌, [], Some};
ghost use Rattle.wjs_by_content.specs.Tables.{value_in};
ghost use Rattle.wjs_meaning.specs.Deeds.{AtExpr, then_value};
ghost use Rattle.wjs_meaning.specs.Statements as statements;
ghost use Rattle.wjs_model.specs.Contents.{completion_in};
ghost use Rattle.wjs_model.specs.Soundness.{Base, HasCompletion, HasValue, IsThere, StandsHere};
ghost use Rattle.wjs_frames.specs.Following.{Later};
ghost use Rattle.wjs_stopping.specs.Evaluating.{Evaluates, HasOutcome, InMemory};
ghost use Rattle.wjs_direct_lines.specs.Deeds.{IsNode, form_here, line_here};

use crate::expressions::value;
use crate::statements::statement;
use wjs_base::{NodeId, Value};
use wjs_heap_steps::world_at;
use wjs_model::{Completion, Config, Frame, Phase, Point, StmtPoint};
use wjs_stopping::{Broken, Stops, stop, waits};
use wjs_store::WorldStore;
use wjs_tree::Node;

/// A statement `in`: the value that stands for the world, and then the block.
#[cycle(direct)]
#[inline(never)]
pub(crate) fn within<S: WorldStore>(
    config: &mut Config<S>,
    frame: &Frame,
    node: NodeId,
    e: NodeId,
    block: NodeId,
    room: u16,
    stops: &mut Stops,
) -> Result<Completion, Broken>
    requires base { Base S.meaning config.old }
    requires there { IsThere S.meaning config.old frame.now }
    requires node { StandsHere config.old frame.now node }
    requires empty { stops.old.waits ≡ [] }
    requires is { IsNode S.meaning config.old frame.now node (Node.Within e block) }
    ensures later { InMemory result (Later S.meaning config.old config.new) }
    ensures found { HasOutcome S.meaning HasCompletion config.new result stops.new.waits stops.new.top }
    ensures does { Evaluates S.meaning (form_here S.meaning config.old frame.now (AtExpr e.0)
        (λ t env. then_value (statements.within_value block.0 env)))
        completion_in result stops.new.waits stops.new.top config.old config.new }
{
    match value(config, frame, e, room, stops) {
        Ok(given) => opened(config, frame, node, block, given, room, stops),
        Err(end) => {
            let point = Point::Stmt(StmtPoint::WithinWorld(block));
            Err(waits(config, frame, node, point, end, stops))
        }
    }
}

/// After the value: the block in its world, in a frame of its own; nothing is set back after it. What stands for no world that is there is
/// left to a frame.
#[cycle(direct)]
fn opened<S: WorldStore>(
    config: &mut Config<S>,
    frame: &Frame,
    node: NodeId,
    block: NodeId,
    given: Value,
    room: u16,
    stops: &mut Stops,
) -> Result<Completion, Broken>
    requires base { Base S.meaning config.old }
    requires there { IsThere S.meaning config.old frame.now }
    requires node { StandsHere config.old frame.now node }
    requires empty { stops.old.waits ≡ [] }
    requires block { StandsHere config.old frame.now block }
    requires value { HasValue config.old given }
    ensures later { InMemory result (Later S.meaning config.old config.new) }
    ensures found { HasOutcome S.meaning HasCompletion config.new result stops.new.waits stops.new.top }
    ensures does { Evaluates S.meaning (line_here S.meaning config.old frame.now
        (λ t env. statements.within_value block.0 env (value_in t given)))
        completion_in result stops.new.waits stops.new.top config.old config.new }
{
    let found = world_at(config, given)?;
    match found {
        Some(world) => {
            let mut inner = config.frames.begun(frame, block)?;
            inner.set_world(world);
            let done = statement(config, &inner, block, room, stops);
            config.frames.spare(inner);
            done
        }
        None => {
            let point = Point::Stmt(StmtPoint::WithinWorld(block));
            let phase = Phase::Given(point, Completion::Gives(given));
            Err(stop(config, frame, node, phase, stops))
        }
    }
}
