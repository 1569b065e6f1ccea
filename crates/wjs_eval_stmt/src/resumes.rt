//! Statements that go on with the completion of the part that they waited for.
ghost use Rattle.wjs_model.specs.Soundness.{HasPoint, HasCompletion};
ghost use Rattle.wjs_frames.specs.Handling.{Runs, Resumes};

use crate::blocks::{block_statement, block_value};
use crate::loops::{do_body, for_body};
use wjs_base::OutOfMemory;
use wjs_blocks::{
    case_value, clause_statement, expr_value, if_test, return_value, switch_value, throw_value,
    try_block, try_finally, try_handler, within_world,
};
use wjs_loops::{
    do_test, for_declared, for_started, for_test, for_updated, label_body, variable_value,
    visit_body, visit_target, visits_object, while_body, while_test,
};
use wjs_model::{Completion, Config, Frame, Point, StmtPoint};
use wjs_store::WorldStore;

/// A statement goes on at a point with a completion (ECMA-262, 3rd edition, section 12).
#[inline(always)]
pub fn stmt_after<S: WorldStore>(
    config: &mut Config<S>,
    frame: Frame,
    point: StmtPoint,
    completion: Completion,
) -> Result<(), OutOfMemory>
    requires runs { Runs S.meaning config.old frame }
    requires point { HasPoint config.old frame (Point.Stmt point) }
    requires completion { HasCompletion config.old completion }
    ensures { Resumes S.meaning frame (Point.Stmt point) completion config.old config.new result }
{
    match point {
        StmtPoint::BlockStatement(at) => block_statement(config, frame, at, completion),
        StmtPoint::BlockValue(at) => block_value(config, frame, at, completion),
        StmtPoint::VariableValue(at) => variable_value(config, frame, at, completion),
        StmtPoint::ExprValue => expr_value(config, frame, completion),
        StmtPoint::IfTest(s, other) => if_test(config, frame, s, other, completion),
        StmtPoint::DoBody(e) => do_body(config, frame, e, completion),
        StmtPoint::DoTest => do_test(config, frame, completion),
        StmtPoint::WhileTest(s) => while_test(config, frame, s, completion),
        StmtPoint::WhileBody => while_body(config, frame, completion),
        StmtPoint::ForFirst => for_started(config, frame, completion),
        StmtPoint::ForVariables => for_declared(config, frame, completion),
        StmtPoint::ForTest(u, s) => for_test(config, frame, u, s, completion),
        StmtPoint::ForBody(u) => for_body(config, frame, u, completion),
        StmtPoint::ForUpdate => for_updated(config, frame, completion),
        StmtPoint::VisitsObject(s) => visits_object(config, frame, s, completion),
        StmtPoint::VisitTarget(s) => visit_target(config, frame, s, completion),
        StmtPoint::VisitBody(s) => visit_body(config, frame, s, completion),
        StmtPoint::ReturnValue => return_value(config, frame, completion),
        StmtPoint::ThrowValue => throw_value(config, frame, completion),
        StmtPoint::LabelBody => label_body(config, frame, completion),
        StmtPoint::SwitchValue => switch_value(config, frame, completion),
        StmtPoint::CaseValue(at) => case_value(config, frame, at, completion),
        StmtPoint::ClauseStatement(at) => clause_statement(config, frame, at, completion),
        StmtPoint::TryBlock(last) => try_block(config, frame, last, completion),
        StmtPoint::TryHandler(last) => try_handler(config, frame, last, completion),
        StmtPoint::TryFinally => try_finally(config, frame, completion),
        StmtPoint::WithinWorld(s) => within_world(config, frame, s, completion),
    }
}
