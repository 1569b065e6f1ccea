//! Statements (ECMA-262, 3rd edition, section 12) that come to an end or to one last deed, where each test before it has its value at once.
//!
//! Each function takes the steps of what it enters from those that are left, also where it then answers None.
ghost use Rattle.std.specs.Prelude.{◌≡◌, ℕ, Some, All, length, map, slice_get, IfSome};
ghost use Rattle.wjs_base.specs.Text.{Has};
ghost use Rattle.wjs_scope.specs.Places.{declarator_names, placed_names};
ghost use Rattle.wjs_by_content.specs.Tables.{value_in};
ghost use Rattle.wjs_meaning.specs.Deeds.{Eval, AtExpr, AtStmt, then_value};
ghost use Rattle.wjs_meaning.specs.Programs.{entry};
ghost use Rattle.wjs_meaning.specs.Reading.{number, numbers, variable_in};
ghost use Rattle.wjs_meaning.specs.Statements as line;
ghost use Rattle.wjs_meaning.specs.Trees as trees;
ghost use Rattle.wjs_model.specs.Soundness.{Base, IsThere, HasValue};
ghost use Rattle.wjs_frames.specs.Parts.{node_among};
ghost use Rattle.wjs_effects.specs.Effects.{carried, HasEffect};
ghost use Rattle.wjs_effects.specs.Leaving.{GoalLeaves, ActLeaves};

use crate::effect::Effect;
use crate::hopes::are_hopeless;
use wjs_base::Value;
use wjs_frames::node_at;
use wjs_model::{Completion, Config, Frame};
use wjs_quick::value_at;
use wjs_step_common::to_boolean;
use wjs_store::WorldStore;
use wjs_tree::{Declarator, Node, NodeId};

/// The effect that a statement comes to, at most so many statements deep.
#[cycle(forms)]
pub(crate) fn effect_at<S: WorldStore>(
    config: &Config<S>,
    frame: &Frame,
    node: NodeId,
    height: u8,
    steps: &mut u64,
) -> Option<Effect>
    requires base { Base S.meaning config.now }
    requires there { IsThere S.meaning config.now frame.now }
    ensures leaves { IfSome result (λ x. GoalLeaves S.meaning (AtStmt node.0) (carried x) config.now frame.now steps.old steps.new) }
    ensures found { IfSome result (λ x. HasEffect config.now frame.now x) }
{
    if height == 0 {
        return None;
    }
    if *steps == 0 {
        return None;
    }
    *steps -= 1;
    form(config, frame, node, height - 1, steps)
}

/// What follows the step of its entry.
#[cycle(forms)]
fn form<S: WorldStore>(
    config: &Config<S>,
    frame: &Frame,
    node: NodeId,
    height: u8,
    steps: &mut u64,
) -> Option<Effect>
    requires base { Base S.meaning config.now }
    requires there { IsThere S.meaning config.now frame.now }
    ensures leaves { IfSome result (λ x. ActLeaves S.meaning (λ t env. entry (AtStmt node.0) env) (carried x) config.now frame.now steps.old steps.new) }
    ensures found { IfSome result (λ x. HasEffect config.now frame.now x) }
{
    match node_at(config, frame, node) {
        Some(Node::Expr(e, _)) => Some(Effect::Evaluates(*e)),
        Some(Node::If(test, yes, no)) => {
            condition(config, frame, *test, *yes, *no, height, steps)
        }
        Some(Node::Block(statements)) => {
            block(config, frame, statements.as_slice(), height, steps)
        }
        Some(Node::Var(variables, _)) => variable(config, frame, node, variables.as_slice()),
        Some(Node::Return(value, _)) => Some(result_of(config, frame, node, *value)),
        Some(Node::Break(label, _)) => Some(Effect::Ends(Completion::Breaks(*label))),
        Some(Node::Continue(label, _)) => Some(Effect::Ends(Completion::Continues(*label))),
        Some(Node::Empty) => Some(Effect::Ends(Completion::Normal)),
        _ => None,
    }
}

/// A block of one statement (section 12.1).
#[cycle(forms)]
fn block<S: WorldStore>(
    config: &Config<S>,
    frame: &Frame,
    statements: &[NodeId],
    height: u8,
    steps: &mut u64,
) -> Option<Effect>
    requires base { Base S.meaning config.now }
    requires there { IsThere S.meaning config.now frame.now }
    ensures leaves { IfSome result (λ x. ActLeaves S.meaning (λ t env. line.block_from (numbers statements.now) env) (carried x)
        config.now frame.now steps.old steps.new) }
    ensures found { IfSome result (λ x. HasEffect config.now frame.now x) }
{
    let statement = only_of(statements)?;
    effect_at(config, frame, statement, height, steps)
}

/// The statement of a list of one; None of every other list.
fn only_of(statements: &[NodeId]) -> Option<NodeId>
    ensures first { IfSome result (λ s. slice_get statements.now 0 ≡ Some s) }
    ensures one { IfSome result (λ _. length statements.now ≡ 1) }
{
    if statements.len() != 1 {
        return None;
    }
    match statements.get(0) {
        Some(statement) => Some(*statement),
        None => None,
    }
}

/// An `if` (section 12.5); None before its test where neither of its parts is ever done at once.
#[cycle(forms)]
fn condition<S: WorldStore>(
    config: &Config<S>,
    frame: &Frame,
    test: NodeId,
    yes: NodeId,
    no: Option<NodeId>,
    height: u8,
    steps: &mut u64,
) -> Option<Effect>
    requires base { Base S.meaning config.now }
    requires there { IsThere S.meaning config.now frame.now }
    ensures leaves { IfSome result (λ x. ActLeaves S.meaning (λ t env. Eval (AtExpr test.0) env (then_value (line.if_test yes.0 (number no) env))) (carried x)
        config.now frame.now steps.old steps.new) }
    ensures found { IfSome result (λ x. HasEffect config.now frame.now x) }
{
    if are_hopeless(config, frame, yes, no) {
        return None;
    }
    let truth = value_at(config, frame, test, steps)?;
    chosen(config, frame, truth, yes, no, height, steps)
}

/// After the test of an `if`.
#[cycle(forms)]
fn chosen<S: WorldStore>(
    config: &Config<S>,
    frame: &Frame,
    truth: Value,
    yes: NodeId,
    no: Option<NodeId>,
    height: u8,
    steps: &mut u64,
) -> Option<Effect>
    requires base { Base S.meaning config.now }
    requires there { IsThere S.meaning config.now frame.now }
    requires value { HasValue config.now truth }
    ensures leaves { IfSome result (λ x. ActLeaves S.meaning (λ t env. line.if_test yes.0 (number no) env (value_in t truth)) (carried x)
        config.now frame.now steps.old steps.new) }
    ensures found { IfSome result (λ x. HasEffect config.now frame.now x) }
{
    if to_boolean(config, truth) {
        effect_at(config, frame, yes, height, steps)
    } else {
        otherwise(config, frame, no, height, steps)
    }
}

/// The second part of an `if`, if there is one.
#[cycle(forms)]
fn otherwise<S: WorldStore>(
    config: &Config<S>,
    frame: &Frame,
    no: Option<NodeId>,
    height: u8,
    steps: &mut u64,
) -> Option<Effect>
    requires base { Base S.meaning config.now }
    requires there { IsThere S.meaning config.now frame.now }
    ensures leaves { IfSome result (λ x. ActLeaves S.meaning (λ t env. line.else_of (number no) env) (carried x) config.now frame.now steps.old steps.new) }
    ensures found { IfSome result (λ x. HasEffect config.now frame.now x) }
{
    match no {
        Some(s) => effect_at(config, frame, s, height, steps),
        None => Some(Effect::Ends(Completion::Normal)),
    }
}

/// A `return` (section 12.9).
#[inline(always)]
fn result_of<S: WorldStore>(
    config: &Config<S>,
    frame: &Frame,
    node: NodeId,
    value: Option<NodeId>,
) -> Effect
    ensures leaves { (left : ℕ) → ActLeaves S.meaning (λ t env. line.stmt_of node.0 (trees.Return (number value)) env) (carried result)
        config.now frame.now left left }
    ensures found { HasEffect config.now frame.now result }
{
    let _config = config;
    let _frame = frame;
    let _node = node;
    match value {
        Some(e) => Effect::Returns(e),
        None => Effect::Ends(Completion::Returns(Value::Undefined)),
    }
}

/// A `var` of one variable (section 12.2).
fn variable<S: WorldStore>(
    config: &Config<S>,
    frame: &Frame,
    node: NodeId,
    variables: &[Declarator],
) -> Option<Effect>
    requires named { placed_names (node_among config.now.units.items frame.now.tree node) ≡ declarator_names variables.now }
    requires texts { All (λ d. Has config.now.heap.texts d.name) variables.now }
    ensures leaves { IfSome result (λ x. (left : ℕ) → ActLeaves S.meaning (λ t env. line.vars_from node.0 0 (map (variable_in t) variables.now) env)
        (carried x) config.now frame.now left left) }
    ensures found { IfSome result (λ x. HasEffect config.now frame.now x) }
{
    let _config = config;
    let _frame = frame;
    let variable = only_variable(variables)?;
    match variable.value {
        Some(e) => Some(Effect::Initialises(node, variable.name, e)),
        None => Some(Effect::Ends(Completion::Normal)),
    }
}

/// The variable of a list of one; None of every other list.
fn only_variable(variables: &[Declarator]) -> Option<Declarator>
    ensures first { IfSome result (λ d. slice_get variables.now 0 ≡ Some d) }
    ensures one { IfSome result (λ _. length variables.now ≡ 1) }
{
    if variables.len() != 1 {
        return None;
    }
    match variables.get(0) {
        Some(variable) => Some(*variable),
        None => None,
    }
}
