//! Loops whose body has ended (sections 12.6.1 to 12.6.3).
ghost use Rattle.wjs_model.specs.Soundness.{HasCompletion, StandsHere, StandsIf};
ghost use Rattle.wjs_frames.specs.Handling.{Runs, Resumes};

use wjs_base::{NodeId, OutOfMemory};
use wjs_direct::{after_do_body, after_loop_body, do_parts_of, is_followed, parts_of};
use wjs_model::{Completion, Config, Frame, Point, StmtPoint};
use wjs_store::WorldStore;

/// After the body of a `while` or a `for`: what follows is evaluated by recursion, but where the loop ends.
pub(crate) fn for_body<S: WorldStore>(
    config: &mut Config<S>,
    frame: Frame,
    update: Option<NodeId>,
    completion: Completion,
) -> Result<(), OutOfMemory>
    requires runs { Runs S.meaning config.old frame }
    requires update { StandsIf config.old frame update }
    requires completion { HasCompletion config.old completion }
    ensures { Resumes S.meaning frame (Point.Stmt (StmtPoint.ForBody update)) completion config.old config.new result }
{
    if !is_followed(config, &frame, completion) {
        return wjs_loops::for_body(config, frame, update, completion);
    }
    match parts_of(config, &frame) {
        Some(parts) => after_loop_body(config, frame, parts, update, completion),
        None => wjs_loops::for_body(config, frame, update, completion),
    }
}

/// After the body of a `do`: its test and what follows are evaluated by recursion, but where the loop ends.
pub(crate) fn do_body<S: WorldStore>(
    config: &mut Config<S>,
    frame: Frame,
    test: NodeId,
    completion: Completion,
) -> Result<(), OutOfMemory>
    requires runs { Runs S.meaning config.old frame }
    requires test { StandsHere config.old frame test }
    requires completion { HasCompletion config.old completion }
    ensures { Resumes S.meaning frame (Point.Stmt (StmtPoint.DoBody test)) completion config.old config.new result }
{
    if !is_followed(config, &frame, completion) {
        return wjs_loops::do_body(config, frame, test, completion);
    }
    match do_parts_of(config, &frame) {
        Some(parts) => after_do_body(config, frame, parts, test, completion),
        None => wjs_loops::do_body(config, frame, test, completion),
    }
}
