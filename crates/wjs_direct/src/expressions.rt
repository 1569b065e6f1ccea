//! The values of expressions (ECMA-262, 3rd edition, section 11).
ghost use Rattle.std.specs.Prelude.{◌≡◌, ◌<◌, ◌≤◌, true, []};
ghost use Rattle.wjs_by_content.specs.Tables.{value_in};
ghost use Rattle.wjs_meaning.specs.Deeds.{AtExpr, then_value};
ghost use Rattle.wjs_meaning.specs.Expressions as line;
ghost use Rattle.wjs_model.specs.Soundness.{Base, HasValue, IsThere, StandsHere};
ghost use Rattle.wjs_frames.specs.Following.{Later};
ghost use Rattle.wjs_stopping.specs.Ends.{gives_in};
ghost use Rattle.wjs_stopping.specs.Evaluating.{Evaluates, HasOutcome, InMemory};
ghost use Rattle.wjs_direct_lines.specs.Deeds.{IsNode, entry_here, form_here, goal_here, line_here};

use crate::arrays::array;
use crate::calls::call;
use crate::choices::{choice, comma};
use crate::members::{at, dot};
use crate::news::new_object;
use crate::objects::object;
use crate::prefixes::prefix;
use crate::stores::{assign, update};
use wjs_base::Value;
use wjs_direct_lines::{function, may_enter, operation, read};
use wjs_frames::{Part, node_at};
use wjs_model::{Config, ExprPoint, Fix, Frame, Held, Phase, Point, Start};
use wjs_quick::quick;
use wjs_step_common::to_boolean;
use wjs_stopping::{Broken, Stops, stop, waits, waits_holding};
use wjs_store::WorldStore;
use wjs_tree::{BinaryOperator, Node, NodeId};

/// The value of an expression, in so much room at most: at once, where it has no effect; else by its form, as a name that is read.
#[cycle(direct)]
pub(crate) fn value<S: WorldStore>(
    config: &mut Config<S>,
    frame: &Frame,
    node: NodeId,
    room: u16,
    stops: &mut Stops,
) -> Result<Value, Broken>
    requires base { Base S.meaning config.old }
    requires there { IsThere S.meaning config.old frame.now }
    requires node { StandsHere config.old frame.now node }
    requires empty { stops.old.waits ≡ [] }
    ensures later { InMemory result (Later S.meaning config.old config.new) }
    ensures found { HasOutcome S.meaning HasValue config.new result stops.new.waits stops.new.top }
    ensures does { Evaluates S.meaning (goal_here S.meaning config.old frame.now (AtExpr node.0))
        gives_in result stops.new.waits stops.new.top config.old config.new }
{
    if let Some(value) = quick(config, frame, Part::Expr(node)) {
        return Ok(value);
    }
    if !may_evaluate(config, frame, node, room) {
        return read(config, frame, node, stops);
    }
    config.left -= 1;
    form(config, frame, node, room - 2, stops)
}

/// Whether an expression may be entered here: there is a step and room for it, and it is of a form that is evaluated here.
fn may_evaluate<S: WorldStore>(config: &Config<S>, frame: &Frame, node: NodeId, room: u16) -> bool
    ensures left { result ≡ true → 0 < config.now.left }
    ensures room { result ≡ true → 8 ≤ room }
{
    if may_enter(config, room) {
        is_known(config, frame, node)
    } else {
        false
    }
}

/// Whether an expression is of a form that is evaluated here.
fn is_known<S: WorldStore>(config: &Config<S>, frame: &Frame, node: NodeId) -> bool {
    match node_at(config, frame, node) {
        Some(Node::Paren(_) | Node::Binary(_, _, _) | Node::Function(_, _, _)) => true,
        Some(Node::Cond(_, _, _) | Node::Comma(_, _)) => true,
        Some(Node::Dot(_, _) | Node::At(_, _)) => true,
        Some(Node::ObjectLit(_, _) | Node::ArrayLit(_, _)) => true,
        Some(Node::Call(_, _) | Node::NewWith(_, _) | Node::NewBare(_)) => true,
        Some(Node::Assign(_, _, _) | Node::Postfix(_, _) | Node::Prefix(_, _)) => true,
        _ => false,
    }
}

/// What follows the step of its entry.
#[cycle(direct)]
pub(crate) fn form<S: WorldStore>(
    config: &mut Config<S>,
    frame: &Frame,
    node: NodeId,
    room: u16,
    stops: &mut Stops,
) -> Result<Value, Broken>
    requires base { Base S.meaning config.old }
    requires there { IsThere S.meaning config.old frame.now }
    requires node { StandsHere config.old frame.now node }
    requires empty { stops.old.waits ≡ [] }
    ensures later { InMemory result (Later S.meaning config.old config.new) }
    ensures found { HasOutcome S.meaning HasValue config.new result stops.new.waits stops.new.top }
    ensures does { Evaluates S.meaning (entry_here S.meaning config.old frame.now (AtExpr node.0))
        gives_in result stops.new.waits stops.new.top config.old config.new }
{
    match node_at(config, frame, node) {
        Some(Node::Paren(part)) => {
            let part = *part;
            value(config, frame, part, room, stops)
        }
        Some(Node::Binary(left, operator, right)) => {
            let (left, operator, right) = (*left, *operator, *right);
            binary(config, frame, node, left, operator, right, room, stops)
        }
        Some(Node::Call(callee, _)) => {
            let callee = *callee;
            call(config, frame, node, callee, room, stops)
        }
        Some(Node::Cond(test, yes, no)) => {
            let (test, yes, no) = (*test, *yes, *no);
            choice(config, frame, node, test, yes, no, room, stops)
        }
        Some(Node::Comma(first, second)) => {
            let (first, second) = (*first, *second);
            comma(config, frame, node, first, second, room, stops)
        }
        Some(Node::Prefix(operator, part)) => {
            let (operator, part) = (*operator, *part);
            prefix(config, frame, node, operator, part, room, stops)
        }
        Some(Node::Postfix(part, operator)) => {
            let (part, operator) = (*part, *operator);
            update(config, frame, node, part, Fix::Post, operator, room, stops)
        }
        Some(Node::Assign(part, sign, right)) => {
            let (part, sign, right) = (*part, *sign, *right);
            assign(config, frame, node, part, sign, right, room, stops)
        }
        Some(Node::Dot(base, name)) => {
            let (base, name) = (*base, *name);
            dot(config, frame, node, base, name, room, stops)
        }
        Some(Node::At(base, index)) => {
            let (base, index) = (*base, *index);
            at(config, frame, node, base, index, room, stops)
        }
        Some(Node::Function(name, _, _)) => {
            let name = *name;
            function(config, frame, node, name, stops)
        }
        Some(Node::NewWith(callee, _)) => {
            let callee = *callee;
            new_object(config, frame, node, callee, room, stops)
        }
        Some(Node::NewBare(callee)) => {
            let callee = *callee;
            new_object(config, frame, node, callee, room, stops)
        }
        Some(Node::ArrayLit(_, _)) => array(config, frame, node, room, stops),
        Some(Node::ObjectLit(_, _)) => object(config, frame, node, room, stops),
        _ => Err(stop(config, frame, node, Phase::Ready(Start::Expr), stops)),
    }
}

/// An operator between two operands (sections 11.5 to 11.11): `&&` and `||` may end with the left value.
#[cycle(direct)]
pub(crate) fn binary<S: WorldStore>(
    config: &mut Config<S>,
    frame: &Frame,
    node: NodeId,
    left: NodeId,
    operator: BinaryOperator,
    right: NodeId,
    room: u16,
    stops: &mut Stops,
) -> Result<Value, Broken>
    requires base { Base S.meaning config.old }
    requires there { IsThere S.meaning config.old frame.now }
    requires node { StandsHere config.old frame.now node }
    requires empty { stops.old.waits ≡ [] }
    requires is { IsNode S.meaning config.old frame.now node (Node.Binary left operator right) }
    ensures later { InMemory result (Later S.meaning config.old config.new) }
    ensures found { HasOutcome S.meaning HasValue config.new result stops.new.waits stops.new.top }
    ensures does { Evaluates S.meaning (form_here S.meaning config.old frame.now (AtExpr left.0)
        (λ t env. then_value (line.binary_left operator right.0 env)))
        gives_in result stops.new.waits stops.new.top config.old config.new }
{
    match value(config, frame, left, room, stops) {
        Ok(first) => match operator {
            BinaryOperator::And => and_right(config, frame, first, right, room, stops),
            BinaryOperator::Or => or_right(config, frame, first, right, room, stops),
            _ => both(config, frame, node, operator, right, first, room, stops),
        },
        Err(end) => {
            let point = Point::Expr(ExprPoint::BinaryLeft(operator, right));
            Err(waits(config, frame, node, point, end, stops))
        }
    }
}

/// After the left of `&&`: the right counts where the left does.
#[cycle(direct)]
fn and_right<S: WorldStore>(
    config: &mut Config<S>,
    frame: &Frame,
    first: Value,
    right: NodeId,
    room: u16,
    stops: &mut Stops,
) -> Result<Value, Broken>
    requires base { Base S.meaning config.old }
    requires there { IsThere S.meaning config.old frame.now }
    requires empty { stops.old.waits ≡ [] }
    requires right { StandsHere config.old frame.now right }
    requires value { HasValue config.old first }
    ensures later { InMemory result (Later S.meaning config.old config.new) }
    ensures found { HasOutcome S.meaning HasValue config.new result stops.new.waits stops.new.top }
    ensures does { Evaluates S.meaning (line_here S.meaning config.old frame.now (λ t env. line.and_left right.0 env (value_in t first)))
        gives_in result stops.new.waits stops.new.top config.old config.new }
{
    if to_boolean(config, first) {
        value(config, frame, right, room, stops)
    } else {
        Ok(first)
    }
}

/// After the left of `||`: the right counts where the left does not.
#[cycle(direct)]
fn or_right<S: WorldStore>(
    config: &mut Config<S>,
    frame: &Frame,
    first: Value,
    right: NodeId,
    room: u16,
    stops: &mut Stops,
) -> Result<Value, Broken>
    requires base { Base S.meaning config.old }
    requires there { IsThere S.meaning config.old frame.now }
    requires empty { stops.old.waits ≡ [] }
    requires right { StandsHere config.old frame.now right }
    requires value { HasValue config.old first }
    ensures later { InMemory result (Later S.meaning config.old config.new) }
    ensures found { HasOutcome S.meaning HasValue config.new result stops.new.waits stops.new.top }
    ensures does { Evaluates S.meaning (line_here S.meaning config.old frame.now (λ t env. line.or_left right.0 env (value_in t first)))
        gives_in result stops.new.waits stops.new.top config.old config.new }
{
    if to_boolean(config, first) {
        Ok(first)
    } else {
        value(config, frame, right, room, stops)
    }
}

/// After the left of another operator: the right value, and the operation on both.
#[cycle(direct)]
fn both<S: WorldStore>(
    config: &mut Config<S>,
    frame: &Frame,
    node: NodeId,
    operator: BinaryOperator,
    right: NodeId,
    first: Value,
    room: u16,
    stops: &mut Stops,
) -> Result<Value, Broken>
    requires base { Base S.meaning config.old }
    requires there { IsThere S.meaning config.old frame.now }
    requires node { StandsHere config.old frame.now node }
    requires empty { stops.old.waits ≡ [] }
    requires right { StandsHere config.old frame.now right }
    requires value { HasValue config.old first }
    ensures later { InMemory result (Later S.meaning config.old config.new) }
    ensures found { HasOutcome S.meaning HasValue config.new result stops.new.waits stops.new.top }
    ensures does { Evaluates S.meaning (form_here S.meaning config.old frame.now (AtExpr right.0)
        (λ t env. then_value (line.binary_right operator (value_in t first) env)))
        gives_in result stops.new.waits stops.new.top config.old config.new }
{
    match value(config, frame, right, room, stops) {
        Ok(second) => operation(config, frame, node, operator, first, second, stops),
        Err(end) => {
            let point = Point::Expr(ExprPoint::BinaryRight(operator));
            let held = Held::Value(first);
            Err(waits_holding(config, frame, node, held, point, end, stops))
        }
    }
}
