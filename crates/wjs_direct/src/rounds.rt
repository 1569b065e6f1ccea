//! Loops whose frame waited for the body: the update and the iterations behind it by recursion (ECMA-262, 3rd edition, sections 12.6.2
//! and 12.6.3).
ghost use Rattle.std.specs.Prelude.{◌≡◌, [], IfSome, true};
ghost use Rattle.wjs_meaning.specs.Deeds.{Again, AtExpr, Eval, Ret, then_value};
ghost use Rattle.wjs_meaning.specs.Loops as loops;
ghost use Rattle.wjs_model.specs.Contents.{completion_in};
ghost use Rattle.wjs_model.specs.Soundness.{Base, HasCompletion, IsThere, StandsHere, StandsIf};
ghost use Rattle.wjs_frames.specs.Following.{Later};
ghost use Rattle.wjs_frames.specs.Handling.{Runs, GoesOn, Resumes};
ghost use Rattle.wjs_stopping.specs.Evaluating.{Evaluates, HasOutcome, InMemory};
ghost use Rattle.wjs_direct_lines.specs.Deeds.{form_here};
ghost use Rattle.wjs_direct.specs.Rounds.{HasParts, ends_round};

use crate::loops::{iterations, update_run};
use wjs_base::OutOfMemory;
use wjs_direct_lines::ROOM;
use wjs_frames::node_of;
use wjs_loops::{AfterBody, after_body};
use wjs_model::{Completion, Config, Frame, Point, StmtPoint};
use wjs_stopping::{Broken, Stops, finish_end};
use wjs_store::WorldStore;
use wjs_tree::{Node, NodeId};

/// What a loop's later iterations are made of.
#[derive(Clone, Copy)]
pub struct LoopParts {
    pub(crate) test: Option<NodeId>,
    pub(crate) update: Option<NodeId>,
    pub(crate) body: NodeId,
}

/// The parts of the frame's loop; None of every node but `while` and `for`.
pub fn parts_of<S: WorldStore>(config: &Config<S>, frame: &Frame) -> Option<LoopParts>
    requires there { IsThere S.meaning config.now frame.now }
    ensures { IfSome result (λ parts. HasParts S.meaning config.now frame.now parts) }
{
    match node_of(config, frame) {
        Some(Node::While(test, body)) => Some(LoopParts {
            test: Some(*test),
            update: None,
            body: *body,
        }),
        Some(Node::For(_, test, update, body)) => Some(LoopParts {
            test: *test,
            update: *update,
            body: *body,
        }),
        _ => None,
    }
}

/// Whether a body of the frame's loop that ended so is followed by the next iteration.
pub fn is_followed<S: WorldStore>(config: &Config<S>, frame: &Frame, end: Completion) -> bool
    requires base { Base S.meaning config.now }
    requires end { HasCompletion config.now end }
    ensures { result ≡ true → ends_round S.meaning config.now frame.now end }
{
    let node = frame.node();
    match after_body(config, frame, node, end) {
        AfterBody::Again => true,
        _ => false,
    }
}

/// After the body of a loop that ended so: the update, if there is one, and the next iterations.
pub fn after_loop_body<S: WorldStore>(
    config: &mut Config<S>,
    frame: Frame,
    parts: LoopParts,
    update: Option<NodeId>,
    end: Completion,
) -> Result<(), OutOfMemory>
    requires runs { Runs S.meaning config.old frame }
    requires parts { HasParts S.meaning config.old frame parts }
    requires update { StandsIf config.old frame update }
    requires followed { ends_round S.meaning config.old frame end }
    ensures { Resumes S.meaning frame (Point.Stmt (StmtPoint.ForBody update)) end config.old config.new result }
{
    let _end = end;
    match update {
        Some(e) => update_and_rounds(config, frame, parts, e),
        None => rounds(config, frame, parts),
    }
}

/// The next iterations.
fn rounds<S: WorldStore>(
    config: &mut Config<S>,
    frame: Frame,
    parts: LoopParts,
) -> Result<(), OutOfMemory>
    requires runs { Runs S.meaning config.old frame }
    requires parts { HasParts S.meaning config.old frame parts }
    ensures { GoesOn S.meaning frame config.old config.new result (λ t env. Eval (Again frame.node.0) env Ret) }
{
    let mut stops = Stops::new(config.heap.arena.allocator());
    let node = frame.node();
    let (test, update, body) = (parts.test, parts.update, parts.body);
    let done = iterations(config, &frame, node, test, update, body, ROOM, &mut stops);
    finish_end(config, frame, done, stops)
}

/// The update, and the next iterations.
fn update_and_rounds<S: WorldStore>(
    config: &mut Config<S>,
    frame: Frame,
    parts: LoopParts,
    update: NodeId,
) -> Result<(), OutOfMemory>
    requires runs { Runs S.meaning config.old frame }
    requires parts { HasParts S.meaning config.old frame parts }
    requires update { StandsHere config.old frame update }
    ensures { GoesOn S.meaning frame config.old config.new result (λ t env.
        Eval (AtExpr update.0) env (then_value (loops.loop_updated frame.node.0 env))) }
{
    let mut stops = Stops::new(config.heap.arena.allocator());
    let done = updated(config, &frame, parts, update, &mut stops);
    finish_end(config, frame, done, stops)
}

/// What the update and the iterations behind it come to.
fn updated<S: WorldStore>(
    config: &mut Config<S>,
    frame: &Frame,
    parts: LoopParts,
    update: NodeId,
    stops: &mut Stops,
) -> Result<Completion, Broken>
    requires base { Base S.meaning config.old }
    requires there { IsThere S.meaning config.old frame.now }
    requires parts { HasParts S.meaning config.old frame.now parts }
    requires update { StandsHere config.old frame.now update }
    requires empty { stops.old.waits ≡ [] }
    ensures later { InMemory result (Later S.meaning config.old config.new) }
    ensures found { HasOutcome S.meaning HasCompletion config.new result stops.new.waits stops.new.top }
    ensures does { Evaluates S.meaning (form_here S.meaning config.old frame.now (AtExpr update.0)
        (λ t env. then_value (loops.loop_updated frame.now.node.0 env)))
        completion_in result stops.new.waits stops.new.top config.old config.new }
{
    let node = frame.node();
    let (test, next, body) = (parts.test, parts.update, parts.body);
    match update_run(config, frame, node, update, ROOM, stops) {
        Ok(ended) => match ended {
            Some(end) => Ok(end),
            None => iterations(config, frame, node, test, next, body, ROOM, stops),
        },
        Err(end) => Err(end),
    }
}
