//! What is kept of the frames: those that wait lie in a list, and only of the others is there a phase.

ghost use Rattle.std.specs.Prelude.{◌≡◌, ◌++◌, ◌∷◌, [], None, IfErr, OnOk, OnErr, Some, is_some, option_map, true, false};
ghost use Rattle.wjs_model.specs.Begun.{is_due, resumed, with_phase};
ghost use Rattle.wjs_model.specs.Frames.{last, on_last, Pops};
ghost use Rattle.wjs_model.specs.Stacks.{all_of, top_of};

use crate::frame::{Completion, Frame, Phase};
use std::alloc::AllocFailed;
use std::mem;
use wjs_base::OutOfMemory;

/// A frame that doesn't wait, with its phase.
#[derive(Drop)]
pub(crate) struct Top {
    pub(crate) frame: Frame,
    pub(crate) phase: Phase,
}

/// Frames below others, of which the last doesn't wait.
#[derive(Drop)]
pub(crate) struct Below {
    pub(crate) list: Vec<Frame>,
    pub(crate) top: Top,
}

/// Frames that wait, with one on top that needn't. A turn takes the last off before it puts frames on, so in a run all wait but
/// that one. A list of any frames may be asked for, though: what is put on one that doesn't wait has it and its list below.
#[derive(Drop)]
pub(crate) struct Stack {
    pub(crate) below: Vec<Below>,
    pub(crate) list: Vec<Frame>,
    pub(crate) top: Option<Top>,
}

/// Puts a frame last; after a refusal the list is as it was.
#[inline(always)]
fn push_frame(list: &mut Vec<Frame>, frame: Frame) -> Result<(), OutOfMemory>
    ensures ok { OnOk result (list.new.items ≡ list.old.items ++ frame ∷ []) }
    ensures err { OnErr result (list.new.items ≡ list.old.items) }
{
    list.push(frame)?;
    Ok(())
}

/// The last, which is taken off; None exactly of the empty list.
#[inline(always)]
fn pop_frame(list: &mut Vec<Frame>) -> Option<Frame>
    ensures { Pops list.old.items result list.new.items }
{
    list.pop()
}

/// Puts what is to lie below last; after a refusal it is given back, and the list is as it was.
fn push_below(list: &mut Vec<Below>, below: Below) -> Result<(), AllocFailed<Below>>
    ensures ok { OnOk result (list.new.items ≡ list.old.items ++ below ∷ []) }
    ensures err { OnErr result (list.new.items ≡ list.old.items) }
    ensures back { IfErr result (λ refused. refused.value ≡ below) }
{
    list.push(below)
}

/// The last, which is taken off; None exactly of the empty list.
fn pop_below(list: &mut Vec<Below>) -> Option<Below>
    ensures { Pops list.old.items result list.new.items }
{
    list.pop()
}

/// Puts a frame that waits on top; after a refusal the frames are as they were.
#[inline(always)]
pub(crate) fn push_waiting(stack: &mut Stack, frame: Frame) -> Result<(), OutOfMemory>
    ensures ok { OnOk result (all_of stack.new ≡ all_of stack.old ++ frame ∷ []) }
    ensures err { OnErr result (all_of stack.new ≡ all_of stack.old) }
{
    make_way(stack)?;
    push_frame(&mut stack.list, frame)
}

/// Puts a frame with its phase on top; after a refusal the frames are as they were.
#[inline(always)]
pub(crate) fn push_top(stack: &mut Stack, top: Top) -> Result<(), OutOfMemory>
    ensures ok { OnOk result (all_of stack.new ≡ all_of stack.old ++ top_of top ∷ []) }
    ensures err { OnErr result (all_of stack.new ≡ all_of stack.old) }
{
    make_way(stack)?;
    stack.top = Some(top);
    Ok(())
}

/// Makes way for a frame on top. The frames stay the same.
#[inline(always)]
fn make_way(stack: &mut Stack) -> Result<(), OutOfMemory>
    ensures same { all_of stack.new ≡ all_of stack.old }
    ensures way { OnOk result (stack.new.top ≡ None) }
{
    match stack.top.take() {
        None => Ok(()),
        Some(top) => lower(stack, top),
    }
}

/// A frame that was taken off the top goes back, below those that come; after a refusal it is on top again.
fn lower(stack: &mut Stack, top: Top) -> Result<(), OutOfMemory>
    requires { stack.old.top ≡ None }
    ensures same { all_of stack.new ≡ all_of stack.old ++ top_of top ∷ [] }
    ensures way { OnOk result (stack.new.top ≡ None) }
{
    let alloc = *stack.list.allocator();
    let list = mem::replace(&mut stack.list, Vec::new(alloc));
    match push_below(&mut stack.below, Below { list, top }) {
        Ok(()) => Ok(()),
        Err(refused) => {
            let Below { list, top } = refused.value;
            stack.list = list;
            stack.top = Some(top);
            Err(OutOfMemory)
        }
    }
}

/// The frame on top with its phase, which is taken off, so that there is way for another; None exactly where there is no frame.
#[inline(always)]
pub(crate) fn pop_top(stack: &mut Stack) -> Option<(Frame, Phase)>
    ensures pops { Pops (all_of stack.old) (option_map with_phase result) (all_of stack.new) }
    ensures way { stack.new.top ≡ None }
{
    match stack.top.take() {
        Some(top) => Some((top.frame, top.phase)),
        None => pop_waiting(stack),
    }
}

/// The last of the frames that wait, which is taken off; else the last of those below.
#[inline(always)]
fn pop_waiting(stack: &mut Stack) -> Option<(Frame, Phase)>
    requires { stack.old.top ≡ None }
    ensures pops { Pops (all_of stack.old) (option_map with_phase result) (all_of stack.new) }
    ensures way { stack.new.top ≡ None }
{
    match pop_frame(&mut stack.list) {
        Some(frame) => {
            let point = frame.point();
            Some((frame, Phase::Waiting(point)))
        }
        None => pop_lower(stack),
    }
}

/// The last of the frames below, which is taken off.
fn pop_lower(stack: &mut Stack) -> Option<(Frame, Phase)>
    requires top { stack.old.top ≡ None }
    requires list { stack.old.list.items ≡ [] }
    ensures pops { Pops (all_of stack.old) (option_map with_phase result) (all_of stack.new) }
    ensures way { stack.new.top ≡ None }
{
    match pop_below(&mut stack.below) {
        None => None,
        Some(below) => {
            stack.list = below.list;
            Some((below.top.frame, below.top.phase))
        }
    }
}

/// What goes on with a completion that it waits for, and all else as it was to.
#[inline(always)]
fn resumed(phase: Phase, completion: Completion) -> Phase
    ensures { result ≡ resumed phase completion }
{
    match phase {
        Phase::Waiting(point) => Phase::Given(point, completion),
        other => other,
    }
}

/// The frame on top goes on with a completion that it waits for; false exactly where there is no frame.
#[inline(always)]
pub(crate) fn give_top(stack: &mut Stack, completion: Completion) -> bool
    ensures given { all_of stack.new ≡ on_last (λ f. record f { phase = resumed f.phase completion }) (all_of stack.old) }
    ensures any { result ≡ is_some (last (all_of stack.old)) }
{
    match pop_top(stack) {
        None => false,
        Some((frame, phase)) => {
            let phase = resumed(phase, completion);
            stack.top = Some(Top { frame, phase });
            true
        }
    }
}

/// Whether a step is due before the frame on top goes on.
#[inline(always)]
pub(crate) fn is_due_top(stack: &Stack) -> bool
    ensures { result ≡ is_due (option_map (λ f. f.phase) (last (all_of stack.now))) }
{
    match &stack.top {
        Some(top) => is_due_at(&top.phase),
        None => is_due_waiting(stack),
    }
}

/// None is where the last frame waits; else the last of those below says so.
#[inline(always)]
fn is_due_waiting(stack: &Stack) -> bool
    requires { stack.now.top ≡ None }
    ensures { result ≡ is_due (option_map (λ f. f.phase) (last (all_of stack.now))) }
{
    match stack.list.last() {
        Some(frame) => is_due_of(frame),
        None => is_due_below(stack),
    }
}

/// None is before a frame that waits goes on.
#[inline(always)]
fn is_due_of(frame: &Frame) -> bool
    ensures { result ≡ is_due (Some frame.now.phase) }
{
    let _waits = frame.point();
    false
}

/// Whether one is due before the last of the frames below goes on.
fn is_due_below(stack: &Stack) -> bool
    requires top { stack.now.top ≡ None }
    requires list { stack.now.list.items ≡ [] }
    ensures { result ≡ is_due (option_map (λ f. f.phase) (last (all_of stack.now))) }
{
    match stack.below.last() {
        Some(below) => is_due_at(&below.top.phase),
        None => false,
    }
}

/// Whether a step is due in this phase.
#[inline(always)]
fn is_due_at(phase: &Phase) -> bool
    ensures { result ≡ is_due (Some phase.now) }
{
    match phase {
        Phase::Due(_) => true,
        Phase::Entering(_, _) => true,
        Phase::Ready(_) => false,
        Phase::Waiting(_) => false,
        Phase::Given(_, _) => false,
    }
}
