//! The loop `do` whose frame waited for its body: the test and the iterations behind it by recursion (ECMA-262, 3rd edition, section
//! 12.6.1).
ghost use Rattle.std.specs.Prelude.{◌≡◌, [], IfSome};
ghost use Rattle.wjs_meaning.specs.Deeds.{AtExpr, Eval, then_value};
ghost use Rattle.wjs_meaning.specs.Loops as loops;
ghost use Rattle.wjs_model.specs.Contents.{completion_in};
ghost use Rattle.wjs_model.specs.Soundness.{Base, HasCompletion, IsThere, StandsHere};
ghost use Rattle.wjs_frames.specs.Following.{Later};
ghost use Rattle.wjs_frames.specs.Handling.{Runs, GoesOn, Resumes};
ghost use Rattle.wjs_stopping.specs.Evaluating.{Evaluates, HasOutcome, InMemory};
ghost use Rattle.wjs_direct_lines.specs.Deeds.{form_here};
ghost use Rattle.wjs_direct.specs.Rounds.{HasDoParts, ends_round};

use crate::do_loops::{asked, iterations};
use wjs_base::{NodeId, OutOfMemory};
use wjs_direct_lines::ROOM;
use wjs_frames::node_of;
use wjs_model::{Completion, Config, Frame, Point, StmtPoint};
use wjs_stopping::{Broken, Stops, finish_end};
use wjs_store::WorldStore;
use wjs_tree::Node;

/// What the later iterations of a `do` are made of.
#[derive(Clone, Copy)]
pub struct DoParts {
    pub(crate) body: NodeId,
    pub(crate) test: NodeId,
}

/// The parts of the frame's `do`; None of every other node.
pub fn do_parts_of<S: WorldStore>(config: &Config<S>, frame: &Frame) -> Option<DoParts>
    requires there { IsThere S.meaning config.now frame.now }
    ensures { IfSome result (λ parts. HasDoParts S.meaning config.now frame.now parts) }
{
    match node_of(config, frame) {
        Some(Node::DoWhile(body, test, _)) => Some(DoParts {
            body: *body,
            test: *test,
        }),
        _ => None,
    }
}

/// After the body of a `do` that ended so: the test, and the next iterations.
pub fn after_do_body<S: WorldStore>(
    config: &mut Config<S>,
    frame: Frame,
    parts: DoParts,
    test: NodeId,
    end: Completion,
) -> Result<(), OutOfMemory>
    requires runs { Runs S.meaning config.old frame }
    requires parts { HasDoParts S.meaning config.old frame parts }
    requires test { StandsHere config.old frame test }
    requires followed { ends_round S.meaning config.old frame end }
    ensures { Resumes S.meaning frame (Point.Stmt (StmtPoint.DoBody test)) end config.old config.new result }
{
    let _end = end;
    test_and_rounds(config, frame, parts, test)
}

/// The test, and the next iterations.
fn test_and_rounds<S: WorldStore>(
    config: &mut Config<S>,
    frame: Frame,
    parts: DoParts,
    test: NodeId,
) -> Result<(), OutOfMemory>
    requires runs { Runs S.meaning config.old frame }
    requires parts { HasDoParts S.meaning config.old frame parts }
    requires test { StandsHere config.old frame test }
    ensures { GoesOn S.meaning frame config.old config.new result (λ t env.
        Eval (AtExpr test.0) env (then_value (loops.do_test frame.node.0 env))) }
{
    let mut stops = Stops::new(config.heap.arena.allocator());
    let done = tested(config, &frame, parts, test, &mut stops);
    finish_end(config, frame, done, stops)
}

/// What the test and the iterations behind it come to.
fn tested<S: WorldStore>(
    config: &mut Config<S>,
    frame: &Frame,
    parts: DoParts,
    test: NodeId,
    stops: &mut Stops,
) -> Result<Completion, Broken>
    requires base { Base S.meaning config.old }
    requires there { IsThere S.meaning config.old frame.now }
    requires parts { HasDoParts S.meaning config.old frame.now parts }
    requires test { StandsHere config.old frame.now test }
    requires empty { stops.old.waits ≡ [] }
    ensures later { InMemory result (Later S.meaning config.old config.new) }
    ensures found { HasOutcome S.meaning HasCompletion config.new result stops.new.waits stops.new.top }
    ensures does { Evaluates S.meaning (form_here S.meaning config.old frame.now (AtExpr test.0)
        (λ t env. then_value (loops.do_test frame.now.node.0 env)))
        completion_in result stops.new.waits stops.new.top config.old config.new }
{
    let node = frame.node();
    let (body, next) = (parts.body, parts.test);
    match asked(config, frame, node, test, ROOM, stops) {
        Ok(ended) => match ended {
            Some(end) => Ok(end),
            None => iterations(config, frame, node, body, next, ROOM, stops),
        },
        Err(end) => Err(end),
    }
}
