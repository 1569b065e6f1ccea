//! The loop `for` (section 12.6.3). Its `var`s are run by a frame of their own.
ghost use Rattle.wjs_by_content.specs.Tables.{value_in};
ghost use Rattle.wjs_meaning.specs.Deeds.{Eval, Sub, AtExpr, then_normal, then_value};
ghost use Rattle.wjs_meaning.specs.Expressions.{expr_at};
ghost use Rattle.wjs_meaning.specs.Reading.{node_in, number};
ghost use Rattle.wjs_meaning.specs.Loops.{loop_body, loop_test, loop_from, loop_updated, for_started};
ghost use Rattle.wjs_meaning.specs.Statements.{vars_from, iteration_from};
ghost use Rattle.wjs_model.specs.Contents.{completion_in};
ghost use Rattle.wjs_model.specs.Lists.{if_for, variables_of};
ghost use Rattle.wjs_model.specs.Soundness.{HasCompletion, HasValue, StandsHere, StandsIf};
ghost use Rattle.wjs_frames.specs.Parts.{node_now};
ghost use Rattle.wjs_frames.specs.Handling.{Runs, GoesOn};

use crate::bodies::{AfterBody, after_body};
use crate::iterations::{expr_iteration, stmt_iteration};
use crate::rounds::{Position, go_round};
use wjs_base::{OutOfMemory, Value};
use wjs_frames::{Part, enter, finish, nest, node_of};
use wjs_model::{Completion, Config, Frame, Point, Start, StmtPoint};
use wjs_quick::{quick, quick_entered};
use wjs_step_common::to_boolean;
use wjs_store::WorldStore;
use wjs_tree::{Node, NodeId};

/// The first iteration: the test is asked for, or without one the body.
pub fn for_from<S: WorldStore>(
    config: &mut Config<S>,
    frame: Frame,
    test: Option<NodeId>,
    update: Option<NodeId>,
    s: NodeId,
) -> Result<(), OutOfMemory>
    requires runs { Runs S.meaning config.old frame }
    requires test { StandsIf config.old frame test }
    requires update { StandsIf config.old frame update }
    requires body { StandsHere config.old frame s }
    ensures { GoesOn S.meaning frame config.old config.new result (λ t env. loop_from frame.node.0 (number test) (number update) s.0 env) }
{
    match test {
        Some(e) => for_first_test(config, frame, update, s, e),
        None => go_round(config, frame, Position::Body(update, s)),
    }
}

/// A later iteration: the test is asked for, or without one the body.
pub fn for_again<S: WorldStore>(
    config: &mut Config<S>,
    frame: Frame,
    test: Option<NodeId>,
    update: Option<NodeId>,
    s: NodeId,
) -> Result<(), OutOfMemory>
    requires runs { Runs S.meaning config.old frame }
    requires test { StandsIf config.old frame test }
    requires update { StandsIf config.old frame update }
    requires body { StandsHere config.old frame s }
    ensures { GoesOn S.meaning frame config.old config.new result (λ t env. iteration_from frame.node.0 (number test) (number update) s.0 env) }
{
    match test {
        Some(e) => for_next_test(config, frame, update, s, e),
        None => {
            let point = Point::Stmt(StmtPoint::ForBody(update));
            stmt_iteration(config, frame, point, s)
        }
    }
}

/// The test of the first iteration has its value at once, or is entered.
fn for_first_test<S: WorldStore>(
    config: &mut Config<S>,
    frame: Frame,
    update: Option<NodeId>,
    s: NodeId,
    e: NodeId,
) -> Result<(), OutOfMemory>
    requires runs { Runs S.meaning config.old frame }
    requires update { StandsIf config.old frame update }
    requires body { StandsHere config.old frame s }
    requires test { StandsHere config.old frame e }
    ensures { GoesOn S.meaning frame config.old config.new result (λ t env.
        Eval (AtExpr e.0) env (then_value (loop_test frame.node.0 (number update) s.0 env))) }
{
    match quick(config, &frame, Part::Expr(e)) {
        Some(value) => for_tested(config, frame, update, s, value),
        None => {
            let point = Point::Stmt(StmtPoint::ForTest(update, s));
            enter(config, frame, point, Part::Expr(e))
        }
    }
}

/// The test of a later iteration has its value at once, or begins.
fn for_next_test<S: WorldStore>(
    config: &mut Config<S>,
    frame: Frame,
    update: Option<NodeId>,
    s: NodeId,
    e: NodeId,
) -> Result<(), OutOfMemory>
    requires runs { Runs S.meaning config.old frame }
    requires update { StandsIf config.old frame update }
    requires body { StandsHere config.old frame s }
    requires test { StandsHere config.old frame e }
    ensures { GoesOn S.meaning frame config.old config.new result (λ t env.
        Sub (expr_at e.0 env) (then_value (loop_test frame.node.0 (number update) s.0 env))) }
{
    match quick_entered(config, &frame, e) {
        Some(value) => for_tested(config, frame, update, s, value),
        None => {
            let point = Point::Stmt(StmtPoint::ForTest(update, s));
            expr_iteration(config, frame, point, e)
        }
    }
}

/// The `var`s begin, before the first iteration.
pub fn for_variables<S: WorldStore>(config: &mut Config<S>, frame: Frame) -> Result<(), OutOfMemory>
    requires runs { Runs S.meaning config.old frame }
    ensures { GoesOn S.meaning frame config.old config.new result (λ t env.
        Sub (vars_from frame.node.0 0 (variables_of (node_in t (node_now S.meaning config.old frame))) env)
        (then_normal (if_for (node_in t (node_now S.meaning config.old frame)) (λ test update s. loop_from frame.node.0 test update s env)))) }
{
    let held = config.frames.nothing_held();
    let node = frame.node();
    let point = Point::Stmt(StmtPoint::ForVariables);
    nest(config, frame, point, Start::Variables, node, held)
}

/// After the `var`s.
pub fn for_declared<S: WorldStore>(
    config: &mut Config<S>,
    frame: Frame,
    completion: Completion,
) -> Result<(), OutOfMemory>
    requires runs { Runs S.meaning config.old frame }
    requires completion { HasCompletion config.old completion }
    ensures { GoesOn S.meaning frame config.old config.new result (λ t env.
        then_normal (if_for (node_in t (node_now S.meaning config.old frame)) (λ test update s. loop_from frame.node.0 test update s env))
        (completion_in t completion)) }
{
    match completion {
        Completion::Normal => for_first(config, frame),
        other => finish(config, frame, other),
    }
}

/// After the first expression.
pub fn for_started<S: WorldStore>(
    config: &mut Config<S>,
    frame: Frame,
    completion: Completion,
) -> Result<(), OutOfMemory>
    requires runs { Runs S.meaning config.old frame }
    requires completion { HasCompletion config.old completion }
    ensures { GoesOn S.meaning frame config.old config.new result (λ t env.
        then_value (λ v. if_for (node_in t (node_now S.meaning config.old frame)) (λ test update s. for_started frame.node.0 test update s env v))
        (completion_in t completion)) }
{
    match completion {
        Completion::Gives(_) => for_first(config, frame),
        other => finish(config, frame, other),
    }
}

/// The first iteration of the `for` that the frame runs.
fn for_first<S: WorldStore>(config: &mut Config<S>, frame: Frame) -> Result<(), OutOfMemory>
    requires runs { Runs S.meaning config.old frame }
    ensures { GoesOn S.meaning frame config.old config.new result (λ t env.
        if_for (node_in t (node_now S.meaning config.old frame)) (λ test update s. loop_from frame.node.0 test update s env)) }
{
    match node_of(config, &frame) {
        Some(Node::For(_, t, u, s)) => {
            let (t, u, s) = (*t, *u, *s);
            for_from(config, frame, t, u, s)
        }
        _ => finish(config, frame, Completion::Normal),
    }
}

/// After the test.
pub fn for_test<S: WorldStore>(
    config: &mut Config<S>,
    frame: Frame,
    update: Option<NodeId>,
    s: NodeId,
    completion: Completion,
) -> Result<(), OutOfMemory>
    requires runs { Runs S.meaning config.old frame }
    requires update { StandsIf config.old frame update }
    requires body { StandsHere config.old frame s }
    requires completion { HasCompletion config.old completion }
    ensures { GoesOn S.meaning frame config.old config.new result (λ t env.
        then_value (loop_test frame.node.0 (number update) s.0 env) (completion_in t completion)) }
{
    match completion {
        Completion::Gives(value) => for_tested(config, frame, update, s, value),
        other => finish(config, frame, other),
    }
}

/// The body, or the end.
fn for_tested<S: WorldStore>(
    config: &mut Config<S>,
    frame: Frame,
    update: Option<NodeId>,
    s: NodeId,
    value: Value,
) -> Result<(), OutOfMemory>
    requires runs { Runs S.meaning config.old frame }
    requires update { StandsIf config.old frame update }
    requires body { StandsHere config.old frame s }
    requires value { HasValue config.old value }
    ensures { GoesOn S.meaning frame config.old config.new result (λ t env. loop_test frame.node.0 (number update) s.0 env (value_in t value)) }
{
    if to_boolean(config, value) {
        go_round(config, frame, Position::Body(update, s))
    } else {
        finish(config, frame, Completion::Normal)
    }
}

/// After the body.
pub fn for_body<S: WorldStore>(
    config: &mut Config<S>,
    frame: Frame,
    update: Option<NodeId>,
    completion: Completion,
) -> Result<(), OutOfMemory>
    requires runs { Runs S.meaning config.old frame }
    requires update { StandsIf config.old frame update }
    requires completion { HasCompletion config.old completion }
    ensures { GoesOn S.meaning frame config.old config.new result (λ t env. loop_body frame.node.0 (number update) env (completion_in t completion)) }
{
    match after_body(config, &frame, frame.node(), completion) {
        AfterBody::Again => go_round(config, frame, Position::Update(update)),
        AfterBody::Ends(completion) => finish(config, frame, completion),
    }
}

/// After the update: the next iteration.
pub fn for_updated<S: WorldStore>(
    config: &mut Config<S>,
    frame: Frame,
    completion: Completion,
) -> Result<(), OutOfMemory>
    requires runs { Runs S.meaning config.old frame }
    requires completion { HasCompletion config.old completion }
    ensures { GoesOn S.meaning frame config.old config.new result (λ t env. then_value (loop_updated frame.node.0 env) (completion_in t completion)) }
{
    match completion {
        Completion::Gives(_) => go_round(config, frame, Position::Again),
        other => finish(config, frame, other),
    }
}
