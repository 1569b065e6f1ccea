//! The values of expressions (ECMA-262, 3rd edition, section 11), where each of their parts has its value at once.
//!
//! Each function takes the steps of the expressions that it enters from those that are left, also where it then answers None.
ghost use Rattle.std.specs.Prelude.{◌≡◌, ℕ, ◌<◌, ◌-◌, IfSome};
ghost use Rattle.wjs_base.specs.Text.{Table, Grows};
ghost use Rattle.wjs_by_content.specs.Tables.{value_in};
ghost use Rattle.wjs_meaning.specs.Deeds.{Env, Eval, AtExpr, Ret, then_value};
ghost use Rattle.wjs_meaning.specs.Expressions as line;
ghost use Rattle.wjs_meaning.specs.Programs.{entry};
ghost use Rattle.wjs_meaning.specs.Reading.{spelt_in};
ghost use Rattle.wjs_model.specs.Soundness.{Base, IsThere, HasValue};
ghost use Rattle.wjs_model.specs.Texts.{KnowsSpelt};
ghost use Rattle.wjs_frames.specs.Parts.{node_among};
ghost use Rattle.wjs_quick.specs.Coming.{GoalComes, Comes};

use crate::hopes::{is_joining, is_operation_hopeless};
use crate::members::{dotted, indexed};
use crate::operators::{is_of_value, operated, prefixed};
use wjs_base::{TextId, Value};
use wjs_frames::{node_at, place_at};
use wjs_heap_steps::peek_operand;
use wjs_model::{Config, Frame, Operand};
use wjs_step_common::to_boolean;
use wjs_store::WorldStore;
use wjs_tree::{BinaryOperator, Node, NodeId, PrefixOperator, Spelt};

/// The value of an expression that has no effect, at most so many expressions deep.
#[cycle(evaluation)]
#[inline(always)]
pub(crate) fn value_of<S: WorldStore>(
    config: &Config<S>,
    frame: &Frame,
    node: NodeId,
    height: u8,
    steps: &mut u64,
) -> Option<Value>
    requires base { Base S.meaning config.now }
    requires there { IsThere S.meaning config.now frame.now }
    ensures does { IfSome result (λ v. GoalComes S.meaning (AtExpr node.0) v config.now frame.now steps.old steps.new) }
    ensures found { IfSome result (λ v. HasValue config.now v) }
{
    let found = node_at(config, frame, node)?;
    value_with(config, frame, node, found, height, steps)
}

/// The same with its node at hand. Literals and names are told apart here, so that none of them costs a call of what evaluates the
/// other forms.
#[cycle(evaluation)]
#[inline(always)]
fn value_with<S: WorldStore>(
    config: &Config<S>,
    frame: &Frame,
    node: NodeId,
    found: &Node,
    height: u8,
    steps: &mut u64,
) -> Option<Value>
    requires base { Base S.meaning config.now }
    requires there { IsThere S.meaning config.now frame.now }
    requires node { node_among config.now.units.items frame.now.tree node ≡ found.now }
    ensures does { IfSome result (λ v. GoalComes S.meaning (AtExpr node.0) v config.now frame.now steps.old steps.new) }
    ensures found { IfSome result (λ v. HasValue config.now v) }
{
    if height == 0 {
        return None;
    }
    if *steps == 0 {
        return None;
    }
    *steps -= 1;
    match found {
        Node::Number(number) => Some(Value::Number(*number)),
        Node::Name(id) => name_value(config, frame, node, *id),
        Node::Text(id) => Some(Value::Text(*id)),
        Node::Bool(truth) => Some(Value::Bool(*truth)),
        Node::Null => Some(Value::Null),
        Node::This => Some(frame.this()),
        _ => form_with(config, frame, node, found, height - 1, steps),
    }
}

/// The value of a name (section 10.1.4).
#[inline(never)]
fn name_value<S: WorldStore>(
    config: &Config<S>,
    frame: &Frame,
    node: NodeId,
    id: TextId,
) -> Option<Value>
    requires base { Base S.meaning config.now }
    requires there { IsThere S.meaning config.now frame.now }
    requires node { node_among config.now.units.items frame.now.tree node ≡ Node.Name id }
    ensures does { IfSome result (λ v. (left : ℕ) → 0 < left → GoalComes S.meaning (AtExpr node.0) v config.now frame.now left (left - 1)) }
    ensures found { IfSome result (λ v. HasValue config.now v) }
{
    let place = place_at(config, frame, node, 0);
    peek_operand(config, frame, Operand::Name(place, id))
}

/// What follows the step of its entry, where it is no operand.
pub(crate) fn form<S: WorldStore>(
    config: &Config<S>,
    frame: &Frame,
    node: NodeId,
    height: u8,
    steps: &mut u64,
) -> Option<Value>
    requires base { Base S.meaning config.now }
    requires there { IsThere S.meaning config.now frame.now }
    ensures does { IfSome result (λ v. Comes S.meaning (λ t env. entry (AtExpr node.0) env) v config.now frame.now steps.old steps.new) }
    ensures found { IfSome result (λ v. HasValue config.now v) }
{
    let found = node_at(config, frame, node)?;
    form_with(config, frame, node, found, height, steps)
}

/// The same with its node at hand.
#[cycle(evaluation)]
fn form_with<S: WorldStore>(
    config: &Config<S>,
    frame: &Frame,
    node: NodeId,
    found: &Node,
    height: u8,
    steps: &mut u64,
) -> Option<Value>
    requires base { Base S.meaning config.now }
    requires there { IsThere S.meaning config.now frame.now }
    requires node { node_among config.now.units.items frame.now.tree node ≡ found.now }
    ensures does { IfSome result (λ v. Comes S.meaning (λ t env. entry (AtExpr node.0) env) v config.now frame.now steps.old steps.new) }
    ensures found { IfSome result (λ v. HasValue config.now v) }
{
    match found {
        Node::Binary(left, operator, right) => {
            binary(config, frame, *left, *operator, *right, height, steps)
        }
        Node::Paren(part) => value_of(config, frame, *part, height, steps),
        Node::Dot(base, name) => dot(config, frame, *base, *name, height, steps),
        Node::At(base, index) => at(config, frame, *base, *index, height, steps),
        Node::Prefix(operator, part) => prefix(config, frame, *operator, *part, height, steps),
        Node::Cond(test, yes, no) => choice(config, frame, *test, *yes, *no, height, steps),
        Node::Comma(first, second) => comma(config, frame, *first, *second, height, steps),
        _ => None,
    }
}

/// An operator between two operands (sections 11.5 to 11.11).
#[cycle(evaluation)]
#[inline(always)]
fn binary<S: WorldStore>(
    config: &Config<S>,
    frame: &Frame,
    left: NodeId,
    operator: BinaryOperator,
    right: NodeId,
    height: u8,
    steps: &mut u64,
) -> Option<Value>
    requires base { Base S.meaning config.now }
    requires there { IsThere S.meaning config.now frame.now }
    ensures does { IfSome result (λ v. Comes S.meaning (λ t env. Eval (AtExpr left.0) env (then_value (line.binary_left operator right.0 env)))
        v config.now frame.now steps.old steps.new) }
    ensures found { IfSome result (λ v. HasValue config.now v) }
{
    let second = node_at(config, frame, right)?;
    if is_operation_hopeless(operator, second) {
        return None;
    }
    let first = value_of(config, frame, left, height, steps)?;
    after_left(config, frame, first, operator, right, second, height, steps)
}

/// After the left value, with the right node at hand.
#[cycle(evaluation)]
#[inline(always)]
fn after_left<S: WorldStore>(
    config: &Config<S>,
    frame: &Frame,
    first: Value,
    operator: BinaryOperator,
    right: NodeId,
    found: &Node,
    height: u8,
    steps: &mut u64,
) -> Option<Value>
    requires base { Base S.meaning config.now }
    requires there { IsThere S.meaning config.now frame.now }
    requires node { node_among config.now.units.items frame.now.tree right ≡ found.now }
    requires value { HasValue config.now first }
    ensures does { IfSome result (λ v. Comes S.meaning (λ t env. line.binary_left operator right.0 env (value_in t first))
        v config.now frame.now steps.old steps.new) }
    ensures found { IfSome result (λ v. HasValue config.now v) }
{
    match operator {
        BinaryOperator::And => and_right(config, frame, first, right, height, steps),
        BinaryOperator::Or => or_right(config, frame, first, right, height, steps),
        _ => both(config, frame, first, operator, right, found, height, steps),
    }
}

/// After the left of `&&`: the right counts where the left does.
#[cycle(evaluation)]
#[inline(never)]
fn and_right<S: WorldStore>(
    config: &Config<S>,
    frame: &Frame,
    first: Value,
    right: NodeId,
    height: u8,
    steps: &mut u64,
) -> Option<Value>
    requires base { Base S.meaning config.now }
    requires there { IsThere S.meaning config.now frame.now }
    requires value { HasValue config.now first }
    ensures does { IfSome result (λ v. Comes S.meaning (λ t env. line.and_left right.0 env (value_in t first)) v config.now frame.now steps.old steps.new) }
    ensures found { IfSome result (λ v. HasValue config.now v) }
{
    if to_boolean(config, first) {
        value_of(config, frame, right, height, steps)
    } else {
        Some(first)
    }
}

/// After the left of `||`: the right counts where the left does not.
#[cycle(evaluation)]
#[inline(never)]
fn or_right<S: WorldStore>(
    config: &Config<S>,
    frame: &Frame,
    first: Value,
    right: NodeId,
    height: u8,
    steps: &mut u64,
) -> Option<Value>
    requires base { Base S.meaning config.now }
    requires there { IsThere S.meaning config.now frame.now }
    requires value { HasValue config.now first }
    ensures does { IfSome result (λ v. Comes S.meaning (λ t env. line.or_left right.0 env (value_in t first)) v config.now frame.now steps.old steps.new) }
    ensures found { IfSome result (λ v. HasValue config.now v) }
{
    if to_boolean(config, first) {
        Some(first)
    } else {
        value_of(config, frame, right, height, steps)
    }
}

/// After the left of another operator: the right value, and the operation on both; None of a text to which the right one is joined.
#[cycle(evaluation)]
#[inline(always)]
fn both<S: WorldStore>(
    config: &Config<S>,
    frame: &Frame,
    first: Value,
    operator: BinaryOperator,
    right: NodeId,
    found: &Node,
    height: u8,
    steps: &mut u64,
) -> Option<Value>
    requires base { Base S.meaning config.now }
    requires there { IsThere S.meaning config.now frame.now }
    requires node { node_among config.now.units.items frame.now.tree right ≡ found.now }
    requires value { HasValue config.now first }
    ensures does { IfSome result (λ v. Comes S.meaning
        (λ t env. Eval (AtExpr right.0) env (then_value (line.binary_right operator (value_in t first) env))) v config.now frame.now steps.old steps.new) }
    ensures found { IfSome result (λ v. HasValue config.now v) }
{
    if is_joining(operator, first) {
        return None;
    }
    let second = value_with(config, frame, right, found, height, steps)?;
    operated(config, operator, first, second)
}

/// An operator before an operand that is entered for its value (section 11.4).
#[cycle(evaluation)]
#[inline(never)]
fn prefix<S: WorldStore>(
    config: &Config<S>,
    frame: &Frame,
    operator: PrefixOperator,
    part: NodeId,
    height: u8,
    steps: &mut u64,
) -> Option<Value>
    requires base { Base S.meaning config.now }
    requires there { IsThere S.meaning config.now frame.now }
    ensures does { IfSome result (λ v. Comes S.meaning (λ t env. line.prefix_of operator part.0 env) v config.now frame.now steps.old steps.new) }
    ensures found { IfSome result (λ v. HasValue config.now v) }
{
    if !is_of_value(operator) {
        return None;
    }
    let operand = value_of(config, frame, part, height, steps)?;
    prefixed(config, operator, operand)
}

/// A condition (section 11.12).
#[cycle(evaluation)]
#[inline(never)]
fn choice<S: WorldStore>(
    config: &Config<S>,
    frame: &Frame,
    test: NodeId,
    yes: NodeId,
    no: NodeId,
    height: u8,
    steps: &mut u64,
) -> Option<Value>
    requires base { Base S.meaning config.now }
    requires there { IsThere S.meaning config.now frame.now }
    ensures does { IfSome result (λ v. Comes S.meaning (λ t env. Eval (AtExpr test.0) env (then_value (line.cond_test yes.0 no.0 env)))
        v config.now frame.now steps.old steps.new) }
    ensures found { IfSome result (λ v. HasValue config.now v) }
{
    let truth = value_of(config, frame, test, height, steps)?;
    let next = chosen(config, truth, yes, no);
    value_of(config, frame, next, height, steps)
}

/// The part of a condition that is entered after its test.
#[inline(always)]
fn chosen<S: WorldStore>(config: &Config<S>, truth: Value, yes: NodeId, no: NodeId) -> NodeId
    requires base { Base S.meaning config.now }
    requires value { HasValue config.now truth }
    ensures { (t : Table) → Grows config.now.heap.texts t → (env : Env) →
        line.cond_test yes.0 no.0 env (value_in t truth) ≡ Eval (AtExpr result.0) env Ret }
{
    if to_boolean(config, truth) { yes } else { no }
}

/// One expression and then another (section 11.14).
#[cycle(evaluation)]
#[inline(never)]
fn comma<S: WorldStore>(
    config: &Config<S>,
    frame: &Frame,
    first: NodeId,
    second: NodeId,
    height: u8,
    steps: &mut u64,
) -> Option<Value>
    requires base { Base S.meaning config.now }
    requires there { IsThere S.meaning config.now frame.now }
    ensures does { IfSome result (λ v. Comes S.meaning (λ t env. Eval (AtExpr first.0) env (then_value (line.comma_left second.0 env)))
        v config.now frame.now steps.old steps.new) }
    ensures found { IfSome result (λ v. HasValue config.now v) }
{
    value_of(config, frame, first, height, steps)?;
    value_of(config, frame, second, height, steps)
}

/// A member by name (section 11.2.1).
#[cycle(evaluation)]
#[inline(never)]
fn dot<S: WorldStore>(
    config: &Config<S>,
    frame: &Frame,
    base: NodeId,
    name: Spelt,
    height: u8,
    steps: &mut u64,
) -> Option<Value>
    requires base { Base S.meaning config.now }
    requires there { IsThere S.meaning config.now frame.now }
    requires name { KnowsSpelt config.now.heap.texts name }
    ensures does { IfSome result (λ v. Comes S.meaning
        (λ t env. Eval (AtExpr base.0) env (then_value (line.dot_base (spelt_in t name) env (line.give_value_of env))))
        v config.now frame.now steps.old steps.new) }
    ensures found { IfSome result (λ v. HasValue config.now v) }
{
    let object = value_of(config, frame, base, height, steps)?;
    dotted(config, frame, object, name)
}

/// A member by value (section 11.2.1).
#[cycle(evaluation)]
#[inline(never)]
fn at<S: WorldStore>(
    config: &Config<S>,
    frame: &Frame,
    base: NodeId,
    index: NodeId,
    height: u8,
    steps: &mut u64,
) -> Option<Value>
    requires base { Base S.meaning config.now }
    requires there { IsThere S.meaning config.now frame.now }
    ensures does { IfSome result (λ v. Comes S.meaning (λ t env. Eval (AtExpr base.0) env (then_value (line.at_base index.0 env (line.give_value_of env))))
        v config.now frame.now steps.old steps.new) }
    ensures found { IfSome result (λ v. HasValue config.now v) }
{
    let object = value_of(config, frame, base, height, steps)?;
    let key = value_of(config, frame, index, height, steps)?;
    indexed(config, frame, object, key)
}
