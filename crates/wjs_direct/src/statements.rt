//! Statements (ECMA-262, 3rd edition, section 12).
ghost use Rattle.std.specs.Prelude.{◌≡◌, ◌<◌, ◌≤◌, true, [], drop};
ghost use Rattle.wjs_meaning.specs.Deeds.{AtExpr, AtStmt, then_value};
ghost use Rattle.wjs_model.specs.Contents.{completion_in};
ghost use Rattle.wjs_model.specs.Soundness.{Base, HasCompletion, IsThere, StandsHere};
ghost use Rattle.wjs_frames.specs.Following.{Later};
ghost use Rattle.wjs_frames.specs.Parts.{node_among};
ghost use Rattle.wjs_stopping.specs.Evaluating.{Evaluates, HasOutcome, InMemory};
ghost use Rattle.wjs_direct_lines.specs.Deeds.{IsNode, entry_here, form_here, goal_here, line_here, returned_by};
ghost use Rattle.wjs_meaning.specs.Reading.{number, node_in};
ghost use Rattle.wjs_meaning.specs.Statements as statements;
ghost use Rattle.wjs_model.specs.Lists.{block_items};

use crate::do_loops::run_do;
use crate::expressions::value;
use crate::for_ins::for_in;
use crate::labels::labelled;
use crate::loops::{for_expression, run_loop};
use crate::stores::effect;
use crate::switches::switch;
use crate::tries::{attempt, throw_of};
use crate::variables::{for_variables, run_variables};
use crate::within::within;
use wjs_base::Value;
use wjs_direct_lines::{ROOM, may_enter};
use wjs_effects::{Sequence, dropped, statement_at_once, statement_of_block};
use wjs_frames::node_at;
use wjs_loops::Taker;
use wjs_model::{Completion, Config, Frame, Phase, Point, Start, StmtPoint};
use wjs_step_common::{number_after, to_boolean};
use wjs_stopping::{Broken, Stops, stop, waits};
use wjs_store::WorldStore;
use wjs_tree::{ForInit, Node, NodeId};

/// How a statement ends, in so much room at most: at once, where all its parts have their values at once; else by its form.
#[cycle(direct)]
pub(crate) fn statement<S: WorldStore>(
    config: &mut Config<S>,
    frame: &Frame,
    node: NodeId,
    room: u16,
    stops: &mut Stops,
) -> Result<Completion, Broken>
    requires base { Base S.meaning config.old }
    requires there { IsThere S.meaning config.old frame.now }
    requires node { StandsHere config.old frame.now node }
    requires empty { stops.old.waits ≡ [] }
    ensures later { InMemory result (Later S.meaning config.old config.new) }
    ensures found { HasOutcome S.meaning HasCompletion config.new result stops.new.waits stops.new.top }
    ensures does { Evaluates S.meaning (goal_here S.meaning config.old frame.now (AtStmt node.0))
        completion_in result stops.new.waits stops.new.top config.old config.new }
{
    let done = statement_at_once(config, frame, node)?;
    if let Some(end) = done {
        return Ok(end);
    }
    by_form(config, frame, node, room, stops)
}

/// How a statement ends by its form, in so much room at most.
#[cycle(direct)]
pub(crate) fn by_form<S: WorldStore>(
    config: &mut Config<S>,
    frame: &Frame,
    node: NodeId,
    room: u16,
    stops: &mut Stops,
) -> Result<Completion, Broken>
    requires base { Base S.meaning config.old }
    requires there { IsThere S.meaning config.old frame.now }
    requires node { StandsHere config.old frame.now node }
    requires empty { stops.old.waits ≡ [] }
    ensures later { InMemory result (Later S.meaning config.old config.new) }
    ensures found { HasOutcome S.meaning HasCompletion config.new result stops.new.waits stops.new.top }
    ensures does { Evaluates S.meaning (goal_here S.meaning config.old frame.now (AtStmt node.0))
        completion_in result stops.new.waits stops.new.top config.old config.new }
{
    if !may_evaluate(config, frame, node, room) {
        return Err(stop(config, frame, node, Phase::Due(Start::Stmt), stops));
    }
    config.left -= 1;
    statement_form(config, frame, node, room - 2, stops)
}

/// Whether a statement may be entered here: there is a step and room for it, and it is of a form that is evaluated here. Every other
/// one is left to a frame, before its step.
pub(crate) fn may_evaluate<S: WorldStore>(
    config: &Config<S>,
    frame: &Frame,
    node: NodeId,
    room: u16,
) -> bool
    ensures left { result ≡ true → 0 < config.now.left }
    ensures room { result ≡ true → 8 ≤ room }
{
    if may_enter(config, room) {
        is_known(config, frame, node)
    } else {
        false
    }
}

/// Whether an element is evaluated by recursion from the frame of its sequence. Of a block or a body a call that is a statement is not:
/// the sequence's frame waits for it alone, so that a run which goes deep by `f();` keeps one frame a call.
pub(crate) fn is_evaluated<S: WorldStore>(
    config: &Config<S>,
    frame: &Frame,
    kind: Sequence,
    element: NodeId,
) -> bool {
    match kind {
        Sequence::Program => may_evaluate(config, frame, element, ROOM),
        _ => !is_call(config, frame, element) && may_evaluate(config, frame, element, ROOM),
    }
}

/// Whether a statement is a call.
fn is_call<S: WorldStore>(config: &Config<S>, frame: &Frame, statement: NodeId) -> bool {
    match node_at(config, frame, statement) {
        Some(Node::Expr(e, _)) => matches!(node_at(config, frame, *e), Some(Node::Call(_, _))),
        _ => false,
    }
}

/// Whether a statement is of a form that is evaluated here.
fn is_known<S: WorldStore>(config: &Config<S>, frame: &Frame, node: NodeId) -> bool {
    match node_at(config, frame, node) {
        Some(Node::Expr(_, _) | Node::Return(Some(_), _) | Node::Var(_, _)) => true,
        Some(Node::If(_, _, _) | Node::Block(_) | Node::While(_, _) | Node::For(_, _, _, _)) => {
            true
        }
        Some(Node::Within(_, _) | Node::DoWhile(_, _, _) | Node::Label(_, _)) => true,
        Some(Node::Throw(_, _) | Node::Try(_, _, _) | Node::Switch(_, _)) => true,
        Some(Node::ForIn(_, _, _) | Node::ForVarIn(_, _, _)) => true,
        _ => false,
    }
}

/// What follows the step of its entry.
#[cycle(direct)]
pub(crate) fn statement_form<S: WorldStore>(
    config: &mut Config<S>,
    frame: &Frame,
    node: NodeId,
    room: u16,
    stops: &mut Stops,
) -> Result<Completion, Broken>
    requires base { Base S.meaning config.old }
    requires there { IsThere S.meaning config.old frame.now }
    requires node { StandsHere config.old frame.now node }
    requires empty { stops.old.waits ≡ [] }
    ensures later { InMemory result (Later S.meaning config.old config.new) }
    ensures found { HasOutcome S.meaning HasCompletion config.new result stops.new.waits stops.new.top }
    ensures does { Evaluates S.meaning (entry_here S.meaning config.old frame.now (AtStmt node.0))
        completion_in result stops.new.waits stops.new.top config.old config.new }
{
    match node_at(config, frame, node) {
        Some(Node::Expr(e, _)) => {
            let e = *e;
            expression(config, frame, node, e, room, stops)
        }
        Some(Node::If(test, yes, no)) => {
            let (test, yes, no) = (*test, *yes, *no);
            condition(config, frame, node, test, yes, no, room, stops)
        }
        Some(Node::Return(Some(e), _)) => {
            let e = *e;
            result_of(config, frame, node, e, room, stops)
        }
        Some(Node::Block(_)) => run_block(config, frame, node, 0, room, stops),
        Some(Node::Var(_, _)) => run_variables(config, frame, node, 0, room, stops),
        Some(Node::While(test, body)) => {
            let (test, body) = (*test, *body);
            run_loop(config, frame, node, Some(test), None, body, room, stops)
        }
        Some(Node::For(ForInit::Nothing, test, update, body)) => {
            let (test, update, body) = (*test, *update, *body);
            run_loop(config, frame, node, test, update, body, room, stops)
        }
        Some(Node::For(ForInit::Expr(e), test, update, body)) => {
            let (e, test, update, body) = (*e, *test, *update, *body);
            for_expression(config, frame, node, e, test, update, body, room, stops)
        }
        Some(Node::For(ForInit::Var(_), test, update, body)) => {
            let (test, update, body) = (*test, *update, *body);
            for_variables(config, frame, node, test, update, body, room, stops)
        }
        Some(Node::DoWhile(body, test, _)) => {
            let (body, test) = (*body, *test);
            run_do(config, frame, node, body, test, room, stops)
        }
        Some(Node::ForIn(t, object, body)) => {
            let (t, object, body) = (*t, *object, *body);
            let taker = Taker::Target(t);
            for_in(config, frame, node, taker, object, body, room, stops)
        }
        Some(Node::ForVarIn(name, object, body)) => {
            let (name, object, body) = (*name, *object, *body);
            let taker = Taker::Variable(name);
            for_in(config, frame, node, taker, object, body, room, stops)
        }
        Some(Node::Label(name, part)) => {
            let (name, part) = (*name, *part);
            labelled(config, frame, node, name, part, room, stops)
        }
        Some(Node::Within(e, block)) => {
            let (e, block) = (*e, *block);
            within(config, frame, node, e, block, room, stops)
        }
        Some(Node::Throw(e, _)) => {
            let e = *e;
            throw_of(config, frame, node, e, room, stops)
        }
        Some(Node::Try(block, _, last)) => {
            let (block, last) = (*block, *last);
            attempt(config, frame, node, block, last, room, stops)
        }
        Some(Node::Switch(e, _)) => {
            let e = *e;
            switch(config, frame, node, e, room, stops)
        }
        Some(Node::Empty) => Ok(Completion::Normal),
        Some(Node::Break(label, _)) => Ok(Completion::Breaks(*label)),
        Some(Node::Continue(label, _)) => Ok(Completion::Continues(*label)),
        Some(Node::Return(None, _)) => Ok(Completion::Returns(Value::Undefined)),
        _ => Err(stop(config, frame, node, Phase::Ready(Start::Stmt), stops)),
    }
}

/// An expression statement (section 12.4).
#[cycle(direct)]
fn expression<S: WorldStore>(
    config: &mut Config<S>,
    frame: &Frame,
    node: NodeId,
    e: NodeId,
    room: u16,
    stops: &mut Stops,
) -> Result<Completion, Broken>
    requires base { Base S.meaning config.old }
    requires there { IsThere S.meaning config.old frame.now }
    requires node { StandsHere config.old frame.now node }
    requires empty { stops.old.waits ≡ [] }
    requires part { StandsHere config.old frame.now e }
    ensures later { InMemory result (Later S.meaning config.old config.new) }
    ensures found { HasOutcome S.meaning HasCompletion config.new result stops.new.waits stops.new.top }
    ensures does { Evaluates S.meaning (form_here S.meaning config.old frame.now (AtExpr e.0) (λ t env. then_value statements.expr_done))
        completion_in result stops.new.waits stops.new.top config.old config.new }
{
    match effect(config, frame, e, room, stops) {
        Ok(end) => Ok(dropped(end)),
        Err(end) => {
            let point = Point::Stmt(StmtPoint::ExprValue);
            Err(waits(config, frame, node, point, end, stops))
        }
    }
}

/// A `return` of a value (section 12.9).
#[cycle(direct)]
fn result_of<S: WorldStore>(
    config: &mut Config<S>,
    frame: &Frame,
    node: NodeId,
    e: NodeId,
    room: u16,
    stops: &mut Stops,
) -> Result<Completion, Broken>
    requires base { Base S.meaning config.old }
    requires there { IsThere S.meaning config.old frame.now }
    requires node { StandsHere config.old frame.now node }
    requires empty { stops.old.waits ≡ [] }
    requires part { StandsHere config.old frame.now e }
    ensures later { InMemory result (Later S.meaning config.old config.new) }
    ensures found { HasOutcome S.meaning HasCompletion config.new result stops.new.waits stops.new.top }
    ensures does { Evaluates S.meaning (form_here S.meaning config.old frame.now (AtExpr e.0) (λ t env. then_value statements.return_value))
        completion_in result stops.new.waits stops.new.top config.old config.new }
{
    match effect(config, frame, e, room, stops) {
        Ok(end) => Ok(returned(end)),
        Err(end) => {
            let point = Point::Stmt(StmtPoint::ReturnValue);
            Err(waits(config, frame, node, point, end, stops))
        }
    }
}

/// How a `return` ends by the completion of its expression.
fn returned(end: Completion) -> Completion
    ensures { result ≡ returned_by end }
{
    match end {
        Completion::Gives(value) => Completion::Returns(value),
        other => other,
    }
}

/// An `if` (section 12.5).
#[cycle(direct)]
fn condition<S: WorldStore>(
    config: &mut Config<S>,
    frame: &Frame,
    node: NodeId,
    test: NodeId,
    yes: NodeId,
    no: Option<NodeId>,
    room: u16,
    stops: &mut Stops,
) -> Result<Completion, Broken>
    requires base { Base S.meaning config.old }
    requires there { IsThere S.meaning config.old frame.now }
    requires node { StandsHere config.old frame.now node }
    requires empty { stops.old.waits ≡ [] }
    requires is { IsNode S.meaning config.old frame.now node (Node.If test yes no) }
    ensures later { InMemory result (Later S.meaning config.old config.new) }
    ensures found { HasOutcome S.meaning HasCompletion config.new result stops.new.waits stops.new.top }
    ensures does { Evaluates S.meaning (form_here S.meaning config.old frame.now (AtExpr test.0)
        (λ t env. then_value (statements.if_test yes.0 (number no) env)))
        completion_in result stops.new.waits stops.new.top config.old config.new }
{
    match value(config, frame, test, room, stops) {
        Ok(truth) => {
            if to_boolean(config, truth) {
                return statement(config, frame, yes, room, stops);
            }
            match no {
                Some(other) => statement(config, frame, other, room, stops),
                None => Ok(Completion::Normal),
            }
        }
        Err(end) => {
            let point = Point::Stmt(StmtPoint::IfTest(yes, no));
            Err(waits(config, frame, node, point, end, stops))
        }
    }
}

/// The statements of a block from one on (section 12.1).
#[cycle(direct)]
#[inline(always)]
fn run_block<S: WorldStore>(
    config: &mut Config<S>,
    frame: &Frame,
    node: NodeId,
    from: u32,
    room: u16,
    stops: &mut Stops,
) -> Result<Completion, Broken>
    requires base { Base S.meaning config.old }
    requires there { IsThere S.meaning config.old frame.now }
    requires node { StandsHere config.old frame.now node }
    requires empty { stops.old.waits ≡ [] }
    ensures later { InMemory result (Later S.meaning config.old config.new) }
    ensures found { HasOutcome S.meaning HasCompletion config.new result stops.new.waits stops.new.top }
    ensures does { Evaluates S.meaning (line_here S.meaning config.old frame.now
        (λ t env. statements.block_from (drop from (block_items (node_in t (node_among config.old.units.items frame.now.tree node)))) env))
        completion_in result stops.new.waits stops.new.top config.old config.new }
{
    let mut at = from;
    while let Some(part) = statement_of_block(config, frame, node, at) {
        let next = number_after(at)?;
        match statement(config, frame, part, room, stops) {
            Ok(end) => match end {
                Completion::Normal => at = next,
                _ => return Ok(end),
            },
            Err(end) => {
                let point = Point::Stmt(StmtPoint::BlockStatement(next));
                return Err(waits(config, frame, node, point, end, stops));
            }
        }
    }
    Ok(Completion::Normal)
}
