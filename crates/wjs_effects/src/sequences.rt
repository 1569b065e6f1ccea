//! Statements and elements that follow one another (ECMA-262, 3rd edition, sections 12.1, 13 and 14): those that are done at once follow
//! one another in one turn.
ghost use Rattle.std.specs.Prelude.{◌≡◌, Some, drop, IfNone, IfOk, IfSome, OnOk};
ghost use Rattle.wjs_base.specs.Text.{Table};
ghost use Rattle.wjs_meaning.specs.Deeds.{Env};
ghost use Rattle.wjs_meaning.specs.Reading.{node_in};
ghost use Rattle.wjs_meaning.specs.Trees as trees;
ghost use Rattle.wjs_model.specs.Contents.{completion_in};
ghost use Rattle.wjs_model.specs.Soundness.{Base, IsThere, HasCompletion};
ghost use Rattle.wjs_frames.specs.Following.{Later};
ghost use Rattle.wjs_frames.specs.Parts.{node_now};
ghost use Rattle.wjs_effects.specs.Proceeding.{Proceeds};
ghost use Rattle.wjs_effects.specs.Sequences.{HasReached, NextIs, sequence_left, reached_in};
ghost use Rattle.wjs_effects.specs.Sequences.{elements_in, elements_from, element_next, element_point, sequence_end, returned};

use crate::elements::{Sequence, element_of_sequence};
use crate::parts::statement_at_once;
use wjs_base::{OutOfMemory, Value};
use wjs_model::{CallPoint, Completion, Config, Frame, Point, StmtPoint};
use wjs_step_common::number_after;
use wjs_store::WorldStore;
use wjs_tree::NodeId;

/// How far a sequence has come.
#[derive(Clone, Copy)]
pub enum Reached {
    /// The element of this number comes next.
    Next(u32),
    /// The sequence ended so before its last element.
    Ended(Completion),
}

/// Where the frame of a sequence waits for the element before this one.
pub fn waiting_point(kind: Sequence, next: u32) -> Point
    ensures { result ≡ element_point kind next }
{
    match kind {
        Sequence::Block => Point::Stmt(StmtPoint::BlockStatement(next)),
        Sequence::Function => Point::Call(CallPoint::BodyElement(next)),
        Sequence::Program => Point::Call(CallPoint::ProgramElement(next)),
    }
}

/// How a sequence ends past its last element.
pub fn end_of(kind: Sequence) -> Completion
    ensures { result ≡ sequence_end kind }
{
    match kind {
        Sequence::Block => Completion::Normal,
        Sequence::Function => Completion::Gives(Value::Undefined),
        Sequence::Program => Completion::Normal,
    }
}

/// How far a sequence comes at once, from the element of a number on. It may go on from wherever this stops, so the bound is none
/// that counts.
pub fn elements_at_once<S: WorldStore>(
    config: &mut Config<S>,
    frame: &Frame,
    kind: Sequence,
    from: u32,
) -> Result<Reached, OutOfMemory>
    requires base { Base S.meaning config.old }
    requires there { IsThere S.meaning config.old frame.now }
    ensures proceeds { IfOk result (λ p. Proceeds S.meaning (sequence_left S.meaning config.old frame.now kind (Reached.Next from))
        (sequence_left S.meaning config.new frame.now kind p) config.old config.new) }
    ensures later { OnOk result (Later S.meaning config.old config.new) }
    ensures found { IfOk result (λ p. HasReached config.new p) }
{
    let mut at = Reached::Next(from);
    for _turn in 0..u64::MAX {
        let reached = advance(config, frame, kind, at)?;
        match reached {
            Some(next) => at = next,
            None => return Ok(at),
        }
    }
    Ok(at)
}

/// After the next element, where it is done at once; after None nothing has changed.
#[inline(always)]
fn advance<S: WorldStore>(
    config: &mut Config<S>,
    frame: &Frame,
    kind: Sequence,
    at: Reached,
) -> Result<Option<Reached>, OutOfMemory>
    requires base { Base S.meaning config.old }
    requires there { IsThere S.meaning config.old frame.now }
    ensures same { IfOk result (λ next. IfNone next (config.new ≡ config.old)) }
    ensures proceeds { IfOk result (λ next. IfSome next (λ p. Proceeds S.meaning (sequence_left S.meaning config.old frame.now kind at)
        (sequence_left S.meaning config.new frame.now kind p) config.old config.new)) }
    ensures later { OnOk result (Later S.meaning config.old config.new) }
    ensures found { IfOk result (λ next. IfSome next (λ p. HasReached config.new p)) }
{
    match at {
        Reached::Next(number) => next_element(config, frame, kind, number),
        Reached::Ended(_) => Ok(None),
    }
}

/// The element of a number.
fn next_element<S: WorldStore>(
    config: &mut Config<S>,
    frame: &Frame,
    kind: Sequence,
    at: u32,
) -> Result<Option<Reached>, OutOfMemory>
    requires base { Base S.meaning config.old }
    requires there { IsThere S.meaning config.old frame.now }
    ensures same { IfOk result (λ next. IfNone next (config.new ≡ config.old)) }
    ensures proceeds { IfOk result (λ next. IfSome next (λ p. Proceeds S.meaning (sequence_left S.meaning config.old frame.now kind (Reached.Next at))
        (sequence_left S.meaning config.new frame.now kind p) config.old config.new)) }
    ensures later { OnOk result (Later S.meaning config.old config.new) }
    ensures found { IfOk result (λ next. IfSome next (λ p. HasReached config.new p)) }
{
    match element_of_sequence(config, frame, kind, at) {
        Some(element) => element_done(config, frame, kind, at, element),
        None => Ok(None),
    }
}

/// The element of a number that was found.
#[inline(always)]
fn element_done<S: WorldStore>(
    config: &mut Config<S>,
    frame: &Frame,
    kind: Sequence,
    at: u32,
    element: NodeId,
) -> Result<Option<Reached>, OutOfMemory>
    requires base { Base S.meaning config.old }
    requires there { IsThere S.meaning config.old frame.now }
    requires element { (t : Table) → NextIs (elements_in kind (node_in t (node_now S.meaning config.old frame.now))) at (Some element) }
    ensures same { IfOk result (λ next. IfNone next (config.new ≡ config.old)) }
    ensures proceeds { IfOk result (λ next. IfSome next (λ p. Proceeds S.meaning (sequence_left S.meaning config.old frame.now kind (Reached.Next at))
        (sequence_left S.meaning config.new frame.now kind p) config.old config.new)) }
    ensures later { OnOk result (Later S.meaning config.old config.new) }
    ensures found { IfOk result (λ next. IfSome next (λ p. HasReached config.new p)) }
{
    let next = number_after(at)?;
    let done = statement_at_once(config, frame, element)?;
    match done {
        Some(completion) => Ok(Some(reached_after(config, kind, next, completion))),
        None => Ok(None),
    }
}

/// After the element before the one of a number: a return from a function gives its value.
#[inline(always)]
fn reached_after<S: WorldStore>(
    config: &Config<S>,
    kind: Sequence,
    next: u32,
    completion: Completion,
) -> Reached
    requires { HasCompletion config.now completion }
    ensures is { (t : Table) (node : trees.Node) (env : Env) →
        element_next kind (elements_from kind (drop next (elements_in kind node)) env) (completion_in t completion) ≡ reached_in kind t node env result }
    ensures found { HasReached config.now result }
{
    let _config = config;
    match completion {
        Completion::Normal => Reached::Next(next),
        Completion::Returns(value) => Reached::Ended(return_of(kind, value)),
        _ => Reached::Ended(completion),
    }
}

/// How a sequence ends by a return.
fn return_of(kind: Sequence, value: Value) -> Completion
    ensures { result ≡ returned kind value }
{
    match kind {
        Sequence::Block => Completion::Returns(value),
        Sequence::Function => Completion::Gives(value),
        Sequence::Program => Completion::Returns(value),
    }
}
