//! Expressions that store: assignments, `++` and `--` (ECMA-262, 3rd edition, sections 11.3, 11.4.4, 11.4.5 and 11.13), done where each of
//! their parts has its value at once.
//!
//! Each function takes the steps of what it enters from those that are left, also where it then answers None. Nothing is changed before
//! all parts are evaluated.
ghost use Rattle.std.specs.Prelude.{◌≡◌, ℕ, None, Some, IfNone, IfOk, IfSome, OnOk};
ghost use Rattle.wjs_base.specs.Text.{Table};
ghost use Rattle.wjs_tree.specs.Operators.{compound};
ghost use Rattle.wjs_meaning.specs.Deeds.{Env, AtExpr};
ghost use Rattle.wjs_meaning.specs.Expressions as line;
ghost use Rattle.wjs_meaning.specs.Programs.{entry};
ghost use Rattle.wjs_model.specs.Contents.{reference_in};
ghost use Rattle.wjs_model.specs.Soundness.{Base, IsThere, HasCompletion, HasReference};
ghost use Rattle.wjs_model.specs.Waiting.{fix_in};
ghost use Rattle.wjs_frames.specs.Following.{Later};
ghost use Rattle.wjs_frames.specs.Parts.{env_in};
ghost use Rattle.wjs_effects.specs.Effects.{assigns, updates};
ghost use Rattle.wjs_effects.specs.Forms.{storing_in};
ghost use Rattle.wjs_effects.specs.Leaving.{ActLeaves, ActEnds, GoalEnds};
ghost use Rattle.wjs_effects.specs.Making.{HasMade};

use crate::carries::{store_and_end, store_made};
use crate::effect::{Made, Told};
use crate::makes::made_at;
use crate::pieces::compound;
use crate::targets::target_at;
use crate::updates::{given, updated};
use wjs_base::{OutOfMemory, Value, Whole};
use wjs_frames::node_at;
use wjs_heap_steps::peek_value_of;
use wjs_model::{Completion, Config, Fix, Frame, Reference};
use wjs_quick::is_hopeless;
use wjs_store::WorldStore;
use wjs_tree::{AssignOperator, BinaryOperator, Node, NodeId, PrefixOperator, UpdateOperator};

/// How an expression stores: an assignment, or `++` or `--`, each with its target.
#[derive(Clone, Copy)]
pub(crate) enum Storing {
    Assigns(NodeId, AssignOperator, NodeId),
    Updates(NodeId, Fix, UpdateOperator),
}

/// How an expression ends that stores and is done at once, with so many steps left; after None nothing has changed.
pub(crate) fn expression_done<S: WorldStore>(
    config: &mut Config<S>,
    frame: &Frame,
    node: NodeId,
    left: u64,
) -> Result<Option<Completion>, OutOfMemory>
    requires base { Base S.meaning config.old }
    requires there { IsThere S.meaning config.old frame.now }
    ensures same { IfOk result (λ done. IfNone done (config.new ≡ config.old)) }
    ensures does { IfOk result (λ done. IfSome done (λ e. GoalEnds S.meaning (AtExpr node.0) e config.old frame.now left config.new)) }
    ensures later { OnOk result (Later S.meaning config.old config.new) }
    ensures found { IfOk result (λ done. IfSome done (λ e. HasCompletion config.new e)) }
{
    if left == 0 {
        return Ok(None);
    }
    match storing_of(config, frame, node) {
        Some(form) => entered(config, frame, form, left - 1),
        None => Ok(None),
    }
}

/// How an expression stores; None of one that is no assignment, `++` or `--`.
#[inline(always)]
fn storing_of<S: WorldStore>(config: &Config<S>, frame: &Frame, node: NodeId) -> Option<Storing>
    ensures { IfSome result (λ form. (t : Table) →
        entry (AtExpr node.0) (env_in S.meaning config.now t frame.now) ≡ storing_in form (env_in S.meaning config.now t frame.now)) }
{
    match node_at(config, frame, node) {
        Some(Node::Assign(target, sign, right)) => Some(Storing::Assigns(*target, *sign, *right)),
        Some(Node::Postfix(target, operator)) => {
            Some(Storing::Updates(*target, Fix::Post, *operator))
        }
        Some(Node::Prefix(operator, part)) => prefix_of(*operator, *part),
        _ => None,
    }
}

/// `++` and `--` before their target; None of every other operator.
#[inline(always)]
fn prefix_of(operator: PrefixOperator, part: NodeId) -> Option<Storing>
    ensures { IfSome result (λ form. (env : Env) → line.prefix_of operator part.0 env ≡ storing_in form env) }
{
    match operator {
        PrefixOperator::Increment => {
            Some(Storing::Updates(part, Fix::Pre, UpdateOperator::Increment))
        }
        PrefixOperator::Decrement => {
            Some(Storing::Updates(part, Fix::Pre, UpdateOperator::Decrement))
        }
        _ => None,
    }
}

/// What follows the step of its entry.
#[inline(always)]
fn entered<S: WorldStore>(
    config: &mut Config<S>,
    frame: &Frame,
    form: Storing,
    left: u64,
) -> Result<Option<Completion>, OutOfMemory>
    requires base { Base S.meaning config.old }
    requires there { IsThere S.meaning config.old frame.now }
    ensures same { IfOk result (λ done. IfNone done (config.new ≡ config.old)) }
    ensures does { IfOk result (λ done. IfSome done (λ e. ActEnds S.meaning (λ t env. storing_in form env) e config.old frame.now left config.new)) }
    ensures later { OnOk result (Later S.meaning config.old config.new) }
    ensures found { IfOk result (λ done. IfSome done (λ e. HasCompletion config.new e)) }
{
    match form {
        Storing::Assigns(target, sign, right) => assign(config, frame, target, sign, right, left),
        Storing::Updates(target, fix, operator) => {
            update(config, frame, target, fix, operator, left)
        }
    }
}

/// An assignment: the target, and then what is stored; None before the target where that never has its value at once.
#[inline(always)]
fn assign<S: WorldStore>(
    config: &mut Config<S>,
    frame: &Frame,
    target: NodeId,
    sign: AssignOperator,
    right: NodeId,
    left: u64,
) -> Result<Option<Completion>, OutOfMemory>
    requires base { Base S.meaning config.old }
    requires there { IsThere S.meaning config.old frame.now }
    ensures same { IfOk result (λ done. IfNone done (config.new ≡ config.old)) }
    ensures does { IfOk result (λ done. IfSome done (λ e. ActEnds S.meaning (λ t env. storing_in (Storing.Assigns target sign right) env)
        e config.old frame.now left config.new)) }
    ensures later { OnOk result (Later S.meaning config.old config.new) }
    ensures found { IfOk result (λ done. IfSome done (λ e. HasCompletion config.new e)) }
{
    if is_hopeless(config, frame, right) {
        return Ok(None);
    }
    let mut left = left;
    match target_at(config, frame, target, &mut left) {
        Some(reference) => assign_to(config, frame, sign, right, reference, left),
        None => Ok(None),
    }
}

/// After the target of an assignment.
#[inline(always)]
fn assign_to<S: WorldStore>(
    config: &mut Config<S>,
    frame: &Frame,
    sign: AssignOperator,
    right: NodeId,
    reference: Reference,
    left: u64,
) -> Result<Option<Completion>, OutOfMemory>
    requires base { Base S.meaning config.old }
    requires there { IsThere S.meaning config.old frame.now }
    requires reference { HasReference config.old reference }
    ensures same { IfOk result (λ done. IfNone done (config.new ≡ config.old)) }
    ensures does { IfOk result (λ done. IfSome done (λ e. ActEnds S.meaning
        (λ t env. line.assign_reference (compound sign) right.0 env (reference_in t reference)) e config.old frame.now left config.new)) }
    ensures later { OnOk result (Later S.meaning config.old config.new) }
    ensures found { IfOk result (λ done. IfSome done (λ e. HasCompletion config.new e)) }
{
    match sign.compound() {
        None => assign_plain(config, frame, right, reference, left),
        Some(operator) => assign_compound(config, frame, operator, right, reference, left),
    }
}

/// `=` (section 11.13.1).
#[inline(always)]
fn assign_plain<S: WorldStore>(
    config: &mut Config<S>,
    frame: &Frame,
    right: NodeId,
    reference: Reference,
    left: u64,
) -> Result<Option<Completion>, OutOfMemory>
    requires base { Base S.meaning config.old }
    requires there { IsThere S.meaning config.old frame.now }
    requires reference { HasReference config.old reference }
    ensures same { IfOk result (λ done. IfNone done (config.new ≡ config.old)) }
    ensures does { IfOk result (λ done. IfSome done (λ e. ActEnds S.meaning
        (λ t env. line.assign_reference None right.0 env (reference_in t reference)) e config.old frame.now left config.new)) }
    ensures later { OnOk result (Later S.meaning config.old config.new) }
    ensures found { IfOk result (λ done. IfSome done (λ e. HasCompletion config.new e)) }
{
    let mut left = left;
    match made_at(config, frame, right, &mut left) {
        Some(made) => {
            let completion = store_made(config, frame, reference, made, Told::Stored, left)?;
            Ok(Some(completion))
        }
        None => Ok(None),
    }
}

/// An operator with `=` (section 11.13.2).
fn assign_compound<S: WorldStore>(
    config: &mut Config<S>,
    frame: &Frame,
    operator: BinaryOperator,
    right: NodeId,
    reference: Reference,
    left: u64,
) -> Result<Option<Completion>, OutOfMemory>
    requires base { Base S.meaning config.old }
    requires there { IsThere S.meaning config.old frame.now }
    requires reference { HasReference config.old reference }
    ensures same { IfOk result (λ done. IfNone done (config.new ≡ config.old)) }
    ensures does { IfOk result (λ done. IfSome done (λ e. ActEnds S.meaning
        (λ t env. line.assign_reference (Some operator) right.0 env (reference_in t reference)) e config.old frame.now left config.new)) }
    ensures later { OnOk result (Later S.meaning config.old config.new) }
    ensures found { IfOk result (λ done. IfSome done (λ e. HasCompletion config.new e)) }
{
    let mut left = left;
    match compounded(config, frame, operator, right, reference, &mut left) {
        Some(made) => {
            let completion = store_made(config, frame, reference, made, Told::Stored, left)?;
            Ok(Some(completion))
        }
        None => Ok(None),
    }
}

/// What an operator with `=` stores: the target's value, the right one, and the operation on both.
#[inline(always)]
fn compounded<S: WorldStore>(
    config: &Config<S>,
    frame: &Frame,
    operator: BinaryOperator,
    right: NodeId,
    reference: Reference,
    steps: &mut u64,
) -> Option<Made>
    requires base { Base S.meaning config.now }
    requires there { IsThere S.meaning config.now frame.now }
    requires reference { HasReference config.now reference }
    ensures leaves { IfSome result (λ m. ActLeaves S.meaning (λ t env. line.assign_reference (Some operator) right.0 env (reference_in t reference))
        (assigns reference m) config.now frame.now steps.old steps.new) }
    ensures found { IfSome result (λ m. HasMade config.now m) }
{
    let old = peek_value_of(config, frame, reference)?;
    let second = made_at(config, frame, right, steps)?;
    compound(config, operator, old, second)
}

/// `++` or `--`: the target, and then the next or the previous number.
#[inline(always)]
fn update<S: WorldStore>(
    config: &mut Config<S>,
    frame: &Frame,
    target: NodeId,
    fix: Fix,
    operator: UpdateOperator,
    left: u64,
) -> Result<Option<Completion>, OutOfMemory>
    requires base { Base S.meaning config.old }
    requires there { IsThere S.meaning config.old frame.now }
    ensures same { IfOk result (λ done. IfNone done (config.new ≡ config.old)) }
    ensures does { IfOk result (λ done. IfSome done (λ e. ActEnds S.meaning (λ t env. storing_in (Storing.Updates target fix operator) env)
        e config.old frame.now left config.new)) }
    ensures later { OnOk result (Later S.meaning config.old config.new) }
    ensures found { IfOk result (λ done. IfSome done (λ e. HasCompletion config.new e)) }
{
    let mut left = left;
    match target_at(config, frame, target, &mut left) {
        Some(reference) => update_at(config, frame, fix, operator, reference, left),
        None => Ok(None),
    }
}

/// After the target of `++` or `--`, with so many steps left; None, and nothing changed, where a look tells no value of it, or one that is
/// no number or has no next one.
#[inline(always)]
fn update_at<S: WorldStore>(
    config: &mut Config<S>,
    frame: &Frame,
    fix: Fix,
    operator: UpdateOperator,
    reference: Reference,
    left: u64,
) -> Result<Option<Completion>, OutOfMemory>
    requires base { Base S.meaning config.old }
    requires there { IsThere S.meaning config.old frame.now }
    requires reference { HasReference config.old reference }
    ensures same { IfOk result (λ done. IfNone done (config.new ≡ config.old)) }
    ensures does { IfOk result (λ done. IfSome done (λ e. ActEnds S.meaning
        (λ t env. line.update_reference (fix_in fix) operator env (reference_in t reference)) e config.old frame.now left config.new)) }
    ensures later { OnOk result (Later S.meaning config.old config.new) }
    ensures found { IfOk result (λ done. IfSome done (λ e. HasCompletion config.new e)) }
{
    match update_of(config, frame, fix, operator, reference) {
        Some(counted) => {
            let value = Value::Number(counted.next);
            let told = Completion::Gives(Value::Number(counted.told));
            config.left = left;
            let completion = store_and_end(config, frame, reference, value, told)?;
            Ok(Some(completion))
        }
        None => Ok(None),
    }
}

/// The number that `++` or `--` stores, and the one that it gives.
#[derive(Clone, Copy)]
struct Counted {
    next: Whole,
    told: Whole,
}

/// The numbers of `++` or `--` after the target, whose value is a number; None of one that is another value.
#[inline(always)]
fn update_of<S: WorldStore>(
    config: &Config<S>,
    frame: &Frame,
    fix: Fix,
    operator: UpdateOperator,
    reference: Reference,
) -> Option<Counted>
    requires base { Base S.meaning config.now }
    requires there { IsThere S.meaning config.now frame.now }
    requires reference { HasReference config.now reference }
    ensures { IfSome result (λ u. (left : ℕ) → ActLeaves S.meaning (λ t env. line.update_reference (fix_in fix) operator env (reference_in t reference))
        (updates reference u.next u.told) config.now frame.now left left) }
{
    let old = peek_value_of(config, frame, reference)?;
    let Value::Number(number) = old else {
        return None;
    };
    match updated(operator, number) {
        Ok(next) => Some(Counted {
            next,
            told: given(fix, number, next),
        }),
        Err(_) => None,
    }
}
