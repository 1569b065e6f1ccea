//! Targets (ECMA-262, 3rd edition, sections 8.7, 10.1.4 and 11.2.1), where each of their parts has its value at once.
//!
//! Each function takes the steps of what it enters from those that are left, also where it then answers None.
ghost use Rattle.std.specs.Prelude.{IfSome};
ghost use Rattle.wjs_base.specs.Text.{Table, Grows};
ghost use Rattle.wjs_by_content.specs.Tables.{value_in};
ghost use Rattle.wjs_meaning.specs.Deeds.{Act, Env, Eval, AtExpr, AtTarget, Reference as MeantReference, then_value};
ghost use Rattle.wjs_meaning.specs.Expressions as line;
ghost use Rattle.wjs_meaning.specs.Programs.{entry};
ghost use Rattle.wjs_meaning.specs.Reading.{spelt_in};
ghost use Rattle.wjs_model.specs.Contents.{reference_in};
ghost use Rattle.wjs_model.specs.Soundness.{Base, IsThere, HasReference, HasValue};
ghost use Rattle.wjs_model.specs.Texts.{KnowsSpelt};
ghost use Rattle.wjs_model.specs.Waiting.{refer};
ghost use Rattle.wjs_frames.specs.Shortening.{Shortens};
ghost use Rattle.wjs_effects.specs.Effects.{ends};
ghost use Rattle.wjs_effects.specs.Leaving.{GoalLeaves, ActLeaves};

use wjs_base::Value;
use wjs_frames::{Part, node_at, operand_of};
use wjs_heap_steps::{name_of, peek_target};
use wjs_model::{Completion, Config, Frame, Reference};
use wjs_quick::{name_there, value_at};
use wjs_step_common::is_nullish;
use wjs_store::WorldStore;
use wjs_tree::{Node, NodeId, Spelt};

/// The reference of a target.
#[inline(always)]
pub(crate) fn target_at<S: WorldStore>(
    config: &Config<S>,
    frame: &Frame,
    node: NodeId,
    steps: &mut u64,
) -> Option<Reference>
    requires base { Base S.meaning config.now }
    requires there { IsThere S.meaning config.now frame.now }
    ensures leaves { IfSome result (λ r. GoalLeaves S.meaning (AtTarget node.0) (ends (Completion.Refers r)) config.now frame.now steps.old steps.new) }
    ensures found { IfSome result (λ r. HasReference config.now r) }
{
    if *steps == 0 {
        return None;
    }
    *steps -= 1;
    match operand_of(config, frame, Part::Target(node)) {
        Some(operand) => peek_target(config, frame, operand),
        None => member(config, frame, node, steps),
    }
}

/// What follows the step of its entry, where it is a member.
#[inline(always)]
fn member<S: WorldStore>(
    config: &Config<S>,
    frame: &Frame,
    node: NodeId,
    steps: &mut u64,
) -> Option<Reference>
    requires base { Base S.meaning config.now }
    requires there { IsThere S.meaning config.now frame.now }
    ensures leaves { IfSome result (λ r. ActLeaves S.meaning (λ t env. entry (AtTarget node.0) env) (ends (Completion.Refers r))
        config.now frame.now steps.old steps.new) }
    ensures found { IfSome result (λ r. HasReference config.now r) }
{
    match node_at(config, frame, node) {
        Some(Node::Dot(base, name)) => dot(config, frame, *base, *name, steps),
        Some(Node::At(base, index)) => at(config, frame, *base, *index, steps),
        _ => None,
    }
}

/// A member by name.
#[inline(always)]
fn dot<S: WorldStore>(
    config: &Config<S>,
    frame: &Frame,
    base: NodeId,
    name: Spelt,
    steps: &mut u64,
) -> Option<Reference>
    requires base { Base S.meaning config.now }
    requires there { IsThere S.meaning config.now frame.now }
    requires name { KnowsSpelt config.now.heap.texts name }
    ensures leaves { IfSome result (λ r. ActLeaves S.meaning (λ t env. Eval (AtExpr base.0) env (then_value (line.dot_base (spelt_in t name) env refer)))
        (ends (Completion.Refers r)) config.now frame.now steps.old steps.new) }
    ensures found { IfSome result (λ r. HasReference config.now r) }
{
    let object = value_at(config, frame, base, steps)?;
    dot_reference(config, object, name)
}

/// A member by value.
#[inline(always)]
fn at<S: WorldStore>(
    config: &Config<S>,
    frame: &Frame,
    base: NodeId,
    index: NodeId,
    steps: &mut u64,
) -> Option<Reference>
    requires base { Base S.meaning config.now }
    requires there { IsThere S.meaning config.now frame.now }
    ensures leaves { IfSome result (λ r. ActLeaves S.meaning (λ t env. Eval (AtExpr base.0) env (then_value (line.at_base index.0 env refer)))
        (ends (Completion.Refers r)) config.now frame.now steps.old steps.new) }
    ensures found { IfSome result (λ r. HasReference config.now r) }
{
    let object = value_at(config, frame, base, steps)?;
    let key = value_at(config, frame, index, steps)?;
    index_reference(config, object, key)
}

/// The member of a base by a name, whatever its reference is for; None of undefined and null.
#[inline(always)]
pub fn dot_reference<S: WorldStore>(
    config: &Config<S>,
    base: Value,
    name: Spelt,
) -> Option<Reference>
    requires base { Base S.meaning config.now }
    requires value { HasValue config.now base }
    requires name { KnowsSpelt config.now.heap.texts name }
    ensures ends { IfSome result (λ r. (t : Table) → Grows config.now.heap.texts t → (env : Env) → (go : MeantReference → Act) →
        Shortens (line.dot_base (spelt_in t name) env go (value_in t base)) (go (reference_in t r))) }
    ensures found { IfSome result (λ r. HasReference config.now r) }
{
    if is_nullish(base) {
        return None;
    }
    match name {
        Spelt::Word(id) => Some(Reference::Member(base, name_of(config, id))),
        Spelt::Key(_) => None,
    }
}

/// The member of a base by a value; None of undefined and null, and where a text would be made for its name.
#[inline(always)]
pub fn index_reference<S: WorldStore>(
    config: &Config<S>,
    base: Value,
    key: Value,
) -> Option<Reference>
    requires base { Base S.meaning config.now }
    requires value { HasValue config.now base }
    requires key { HasValue config.now key }
    ensures ends { IfSome result (λ r. (t : Table) → Grows config.now.heap.texts t → (env : Env) → (go : MeantReference → Act) →
        Shortens (line.at_index (value_in t base) env go (value_in t key)) (go (reference_in t r))) }
    ensures found { IfSome result (λ r. HasReference config.now r) }
{
    if is_nullish(base) {
        return None;
    }
    let name = name_there(config, key)?;
    Some(Reference::Member(base, name))
}
