//! The values of expressions that may be texts still to be made (ECMA-262, 3rd edition, sections 11 and 11.6.1).
//!
//! Each function takes the steps of what it enters from those that are left, also where it then answers None.
ghost use Rattle.std.specs.Prelude.{◌≡◌, ◌<◌, IfSome};
ghost use Rattle.wjs_meaning.specs.Deeds.{Eval, AtExpr, then_value};
ghost use Rattle.wjs_meaning.specs.Expressions as line;
ghost use Rattle.wjs_model.specs.Soundness.{Base, IsThere};
ghost use Rattle.wjs_frames.specs.Parts.{node_among};
ghost use Rattle.wjs_quick.specs.Coming.{GoalYields, Yields};
ghost use Rattle.wjs_effects.specs.Making.{made_in, HasMade};

use crate::effect::Made;
use crate::pieces::{added, of_values};
use wjs_frames::node_at;
use wjs_model::{Config, Frame};
use wjs_quick::{is_hopeless, value_at};
use wjs_store::WorldStore;
use wjs_tree::{BinaryOperator, Node, NodeId};

/// How many `+` stand in another at most that may join texts: with it as many as pieces have room for.
const HEIGHT: u8 = 2;

/// The value of an expression, which may be a text that is still to be made.
#[inline(always)]
pub(crate) fn made_at<S: WorldStore>(
    config: &Config<S>,
    frame: &Frame,
    node: NodeId,
    steps: &mut u64,
) -> Option<Made>
    requires base { Base S.meaning config.now }
    requires there { IsThere S.meaning config.now frame.now }
    ensures does { IfSome result (λ m. GoalYields S.meaning (AtExpr node.0) (λ t. made_in t m) config.now frame.now steps.old steps.new) }
    ensures found { IfSome result (λ m. HasMade config.now m) }
{
    match sum_of(config, frame, node) {
        Some(terms) => sum(config, frame, node, terms, HEIGHT, steps),
        None => there_at(config, frame, node, steps),
    }
}

/// A value that is there.
#[inline(always)]
fn there_at<S: WorldStore>(
    config: &Config<S>,
    frame: &Frame,
    node: NodeId,
    steps: &mut u64,
) -> Option<Made>
    requires base { Base S.meaning config.now }
    requires there { IsThere S.meaning config.now frame.now }
    ensures does { IfSome result (λ m. GoalYields S.meaning (AtExpr node.0) (λ t. made_in t m) config.now frame.now steps.old steps.new) }
    ensures found { IfSome result (λ m. HasMade config.now m) }
{
    let value = value_at(config, frame, node, steps)?;
    Some(Made::There(value))
}

/// What a `+` stands between.
#[derive(Clone, Copy)]
struct Terms {
    left: NodeId,
    right: NodeId,
}

/// The terms of an expression that is a sum; None of every other form.
#[inline(always)]
fn sum_of<S: WorldStore>(config: &Config<S>, frame: &Frame, node: NodeId) -> Option<Terms>
    ensures { IfSome result (λ s. node_among config.now.units.items frame.now.tree node ≡ Node.Binary s.left BinaryOperator.Add s.right) }
{
    match node_at(config, frame, node) {
        Some(Node::Binary(left, operator, right)) => summands(*left, *operator, *right),
        _ => None,
    }
}

/// The terms, where the operator is `+`.
#[inline(always)]
fn summands(left: NodeId, operator: BinaryOperator, right: NodeId) -> Option<Terms>
    ensures { IfSome result (λ s. Node.Binary left operator right ≡ Node.Binary s.left BinaryOperator.Add s.right) }
{
    match operator {
        BinaryOperator::Add => Some(Terms { left, right }),
        _ => None,
    }
}

/// A sum, with so many sums in it at most that may join texts. None before its left part where the right never has its value at once.
#[cycle(making)]
fn sum<S: WorldStore>(
    config: &Config<S>,
    frame: &Frame,
    node: NodeId,
    terms: Terms,
    height: u8,
    steps: &mut u64,
) -> Option<Made>
    requires base { Base S.meaning config.now }
    requires there { IsThere S.meaning config.now frame.now }
    requires terms { node_among config.now.units.items frame.now.tree node ≡ Node.Binary terms.left BinaryOperator.Add terms.right }
    ensures does { IfSome result (λ m. GoalYields S.meaning (AtExpr node.0) (λ t. made_in t m) config.now frame.now steps.old steps.new) }
    ensures found { IfSome result (λ m. HasMade config.now m) }
{
    if is_hopeless(config, frame, terms.right) {
        return None;
    }
    if *steps == 0 {
        return None;
    }
    *steps -= 1;
    match inner_sum(config, frame, terms.left, height) {
        Some(inner) => sum_behind(config, frame, terms, inner, height - 1, steps),
        None => sum_of_values(config, frame, terms, steps),
    }
}

/// The terms of a sum's left part that is a sum too; None of every other, and past the last that may join texts.
#[inline(always)]
fn inner_sum<S: WorldStore>(
    config: &Config<S>,
    frame: &Frame,
    left: NodeId,
    height: u8,
) -> Option<Terms>
    ensures sum { IfSome result (λ s. node_among config.now.units.items frame.now.tree left ≡ Node.Binary s.left BinaryOperator.Add s.right) }
    ensures height { IfSome result (λ _. 0 < height) }
{
    if height == 0 {
        return None;
    }
    sum_of(config, frame, left)
}

/// What follows the step of a sum whose left part is a sum: that may be a text that is still to be made.
#[cycle(making)]
fn sum_behind<S: WorldStore>(
    config: &Config<S>,
    frame: &Frame,
    terms: Terms,
    inner: Terms,
    height: u8,
    steps: &mut u64,
) -> Option<Made>
    requires base { Base S.meaning config.now }
    requires there { IsThere S.meaning config.now frame.now }
    requires inner { node_among config.now.units.items frame.now.tree terms.left ≡ Node.Binary inner.left BinaryOperator.Add inner.right }
    ensures does { IfSome result (λ m. Yields S.meaning
        (λ t env. Eval (AtExpr terms.left.0) env (then_value (line.binary_left BinaryOperator.Add terms.right.0 env)))
        (λ t. made_in t m) config.now frame.now steps.old steps.new) }
    ensures found { IfSome result (λ m. HasMade config.now m) }
{
    let first = sum(config, frame, terms.left, inner, height, steps)?;
    let second = value_at(config, frame, terms.right, steps)?;
    added(config, first, second)
}

/// What follows the step of another sum: both parts have their values at once.
#[inline(always)]
fn sum_of_values<S: WorldStore>(
    config: &Config<S>,
    frame: &Frame,
    terms: Terms,
    steps: &mut u64,
) -> Option<Made>
    requires base { Base S.meaning config.now }
    requires there { IsThere S.meaning config.now frame.now }
    ensures does { IfSome result (λ m. Yields S.meaning
        (λ t env. Eval (AtExpr terms.left.0) env (then_value (line.binary_left BinaryOperator.Add terms.right.0 env)))
        (λ t. made_in t m) config.now frame.now steps.old steps.new) }
    ensures found { IfSome result (λ m. HasMade config.now m) }
{
    let first = value_at(config, frame, terms.left, steps)?;
    let second = value_at(config, frame, terms.right, steps)?;
    of_values(config, BinaryOperator::Add, first, second)
}
