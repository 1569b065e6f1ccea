//! The loops `while` and `do` (sections 12.6.1 and 12.6.2).
ghost use Rattle.std.specs.Prelude.{None, Some};
ghost use Rattle.wjs_by_content.specs.Tables.{value_in};
ghost use Rattle.wjs_meaning.specs.Deeds.{Eval, AtExpr, then_value};
ghost use Rattle.wjs_meaning.specs.Loops.{loop_body, loop_test, do_body, do_test};
ghost use Rattle.wjs_meaning.specs.Statements.{iteration_from};
ghost use Rattle.wjs_model.specs.Contents.{completion_in};
ghost use Rattle.wjs_model.specs.Soundness.{HasCompletion, HasValue, StandsHere};
ghost use Rattle.wjs_frames.specs.Handling.{Runs, GoesOn};

use crate::bodies::{AfterBody, after_body};
use crate::iterations::expr_iteration;
use crate::rounds::{Position, go_round};
use wjs_base::{OutOfMemory, Value};
use wjs_frames::{Part, enter, enter_last, finish};
use wjs_model::{Completion, Config, Frame, Point, StmtPoint};
use wjs_quick::{quick, quick_entered};
use wjs_step_common::to_boolean;
use wjs_store::WorldStore;
use wjs_tree::NodeId;

/// After the test of a `while`.
pub fn while_test<S: WorldStore>(
    config: &mut Config<S>,
    frame: Frame,
    s: NodeId,
    completion: Completion,
) -> Result<(), OutOfMemory>
    requires runs { Runs S.meaning config.old frame }
    requires body { StandsHere config.old frame s }
    requires completion { HasCompletion config.old completion }
    ensures { GoesOn S.meaning frame config.old config.new result (λ t env.
        then_value (loop_test frame.node.0 None s.0 env) (completion_in t completion)) }
{
    match completion {
        Completion::Gives(value) => while_tested(config, frame, s, value),
        other => finish(config, frame, other),
    }
}

/// A later iteration of a `while`: its test has its value at once, or begins.
pub fn while_again<S: WorldStore>(
    config: &mut Config<S>,
    frame: Frame,
    e: NodeId,
    s: NodeId,
) -> Result<(), OutOfMemory>
    requires runs { Runs S.meaning config.old frame }
    requires test { StandsHere config.old frame e }
    requires body { StandsHere config.old frame s }
    ensures { GoesOn S.meaning frame config.old config.new result (λ t env. iteration_from frame.node.0 (Some e.0) None s.0 env) }
{
    match quick_entered(config, &frame, e) {
        Some(value) => while_tested(config, frame, s, value),
        None => expr_iteration(config, frame, Point::Stmt(StmtPoint::WhileTest(s)), e),
    }
}

/// The body, or the end.
fn while_tested<S: WorldStore>(
    config: &mut Config<S>,
    frame: Frame,
    s: NodeId,
    value: Value,
) -> Result<(), OutOfMemory>
    requires runs { Runs S.meaning config.old frame }
    requires body { StandsHere config.old frame s }
    requires value { HasValue config.old value }
    ensures { GoesOn S.meaning frame config.old config.new result (λ t env. loop_test frame.node.0 None s.0 env (value_in t value)) }
{
    if to_boolean(config, value) {
        go_round(config, frame, Position::Body(None, s))
    } else {
        finish(config, frame, Completion::Normal)
    }
}

/// After the body of a `while`.
pub fn while_body<S: WorldStore>(
    config: &mut Config<S>,
    frame: Frame,
    completion: Completion,
) -> Result<(), OutOfMemory>
    requires runs { Runs S.meaning config.old frame }
    requires completion { HasCompletion config.old completion }
    ensures { GoesOn S.meaning frame config.old config.new result (λ t env. loop_body frame.node.0 None env (completion_in t completion)) }
{
    match after_body(config, &frame, frame.node(), completion) {
        AfterBody::Again => go_round(config, frame, Position::Again),
        AfterBody::Ends(completion) => finish(config, frame, completion),
    }
}

/// After the body of a `do`: its test is asked for.
pub fn do_body<S: WorldStore>(
    config: &mut Config<S>,
    frame: Frame,
    e: NodeId,
    completion: Completion,
) -> Result<(), OutOfMemory>
    requires runs { Runs S.meaning config.old frame }
    requires test { StandsHere config.old frame e }
    requires completion { HasCompletion config.old completion }
    ensures { GoesOn S.meaning frame config.old config.new result (λ t env. do_body frame.node.0 e.0 env (completion_in t completion)) }
{
    match after_body(config, &frame, frame.node(), completion) {
        AfterBody::Again => do_asked(config, frame, e),
        AfterBody::Ends(completion) => finish(config, frame, completion),
    }
}

/// The test of a `do` has its value at once, or is entered.
fn do_asked<S: WorldStore>(
    config: &mut Config<S>,
    frame: Frame,
    e: NodeId,
) -> Result<(), OutOfMemory>
    requires runs { Runs S.meaning config.old frame }
    requires test { StandsHere config.old frame e }
    ensures { GoesOn S.meaning frame config.old config.new result (λ t env. Eval (AtExpr e.0) env (then_value (do_test frame.node.0 env))) }
{
    match quick(config, &frame, Part::Expr(e)) {
        Some(value) => do_tested(config, frame, value),
        None => {
            let point = Point::Stmt(StmtPoint::DoTest);
            enter(config, frame, point, Part::Expr(e))
        }
    }
}

/// After the test of a `do`.
pub fn do_test<S: WorldStore>(
    config: &mut Config<S>,
    frame: Frame,
    completion: Completion,
) -> Result<(), OutOfMemory>
    requires runs { Runs S.meaning config.old frame }
    requires completion { HasCompletion config.old completion }
    ensures { GoesOn S.meaning frame config.old config.new result (λ t env. then_value (do_test frame.node.0 env) (completion_in t completion)) }
{
    match completion {
        Completion::Gives(value) => do_tested(config, frame, value),
        other => finish(config, frame, other),
    }
}

/// The next iteration, or the end.
fn do_tested<S: WorldStore>(
    config: &mut Config<S>,
    frame: Frame,
    value: Value,
) -> Result<(), OutOfMemory>
    requires runs { Runs S.meaning config.old frame }
    requires value { HasValue config.old value }
    ensures { GoesOn S.meaning frame config.old config.new result (λ t env. do_test frame.node.0 env (value_in t value)) }
{
    if to_boolean(config, value) {
        let node = frame.node();
        enter_last(config, frame, Part::Again(node))
    } else {
        finish(config, frame, Completion::Normal)
    }
}
