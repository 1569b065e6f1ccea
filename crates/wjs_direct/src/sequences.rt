//! Elements that follow one another: those that are done at once, and the next one by recursion (ECMA-262, 3rd edition, sections 10.2 and
//! 12.1).
ghost use Rattle.std.specs.Prelude.{◌≡◌, [], drop};
ghost use Rattle.wjs_meaning.specs.Deeds.{AtStmt, Eval};
ghost use Rattle.wjs_meaning.specs.Reading.{node_in};
ghost use Rattle.wjs_model.specs.Contents.{completion_in};
ghost use Rattle.wjs_model.specs.Soundness.{Base, HasCompletion, IsThere, StandsHere};
ghost use Rattle.wjs_frames.specs.Following.{Later};
ghost use Rattle.wjs_frames.specs.Handling.{Runs, GoesOn};
ghost use Rattle.wjs_frames.specs.Parts.{node_now};
ghost use Rattle.wjs_effects.specs.Sequences.{SequenceStands, elements_from, elements_in};
ghost use Rattle.wjs_stopping.specs.Evaluating.{Evaluates, HasOutcome, InMemory};
ghost use Rattle.wjs_direct_lines.specs.Deeds.{form_here};
ghost use Rattle.wjs_direct_lines.specs.Sequences.{behind};

use crate::statements::{by_form, is_evaluated};
use wjs_base::{NodeId, OutOfMemory};
use wjs_direct_lines::{ROOM, given};
use wjs_effects::{
    Reached, Sequence, element_of_sequence, elements_at_once, end_of, enter_statement,
    waiting_point,
};
use wjs_frames::finish;
use wjs_model::{Completion, Config, Frame};
use wjs_step_common::number_after;
use wjs_stopping::{Broken, Stops, finish_end, waits};
use wjs_store::WorldStore;

/// The elements of a sequence from one on.
pub fn run_elements<S: WorldStore>(
    config: &mut Config<S>,
    frame: Frame,
    kind: Sequence,
    from: u32,
) -> Result<(), OutOfMemory>
    requires runs { Runs S.meaning config.old frame }
    requires stands { SequenceStands config.old frame kind }
    ensures { GoesOn S.meaning frame config.old config.new result (λ t env.
        elements_from kind (drop from (elements_in kind (node_in t (node_now S.meaning config.old frame)))) env) }
{
    let reached = elements_at_once(config, &frame, kind, from)?;
    match reached {
        Reached::Next(at) => run_next(config, frame, kind, at),
        Reached::Ended(end) => finish(config, frame, end),
    }
}

/// The element of this number, which is not done at once, and those behind it; past the last the sequence ends.
fn run_next<S: WorldStore>(
    config: &mut Config<S>,
    frame: Frame,
    kind: Sequence,
    at: u32,
) -> Result<(), OutOfMemory>
    requires runs { Runs S.meaning config.old frame }
    requires stands { SequenceStands config.old frame kind }
    ensures { GoesOn S.meaning frame config.old config.new result (λ t env.
        elements_from kind (drop at (elements_in kind (node_in t (node_now S.meaning config.old frame)))) env) }
{
    match element_of_sequence(config, &frame, kind, at) {
        Some(element) => {
            let next = number_after(at)?;
            run_element(config, frame, kind, next, element)
        }
        None => finish(config, frame, end_of(kind)),
    }
}

/// An element: by recursion, where its form is evaluated so; else the frame waits for it.
fn run_element<S: WorldStore>(
    config: &mut Config<S>,
    frame: Frame,
    kind: Sequence,
    next: u32,
    element: NodeId,
) -> Result<(), OutOfMemory>
    requires runs { Runs S.meaning config.old frame }
    requires stands { SequenceStands config.old frame kind }
    requires element { StandsHere config.old frame element }
    ensures { GoesOn S.meaning frame config.old config.new result (λ t env. Eval (AtStmt element.0) env (behind S.meaning config.old frame kind next t env)) }
{
    if is_evaluated(config, &frame, kind, element) {
        let mut stops = Stops::new(config.heap.arena.allocator());
        let done = element_by_form(config, &frame, kind, next, element, &mut stops);
        finish_end(config, frame, done, stops)
    } else {
        let point = waiting_point(kind, next);
        enter_statement(config, frame, point, element)
    }
}

/// An element by its form. The frame waits for what stops, or is given its end, with which it goes on in a turn of its own.
fn element_by_form<S: WorldStore>(
    config: &mut Config<S>,
    frame: &Frame,
    kind: Sequence,
    next: u32,
    element: NodeId,
    stops: &mut Stops,
) -> Result<Completion, Broken>
    requires base { Base S.meaning config.old }
    requires there { IsThere S.meaning config.old frame.now }
    requires stands { SequenceStands config.old frame.now kind }
    requires element { StandsHere config.old frame.now element }
    requires empty { stops.old.waits ≡ [] }
    ensures later { InMemory result (Later S.meaning config.old config.new) }
    ensures found { HasOutcome S.meaning HasCompletion config.new result stops.new.waits stops.new.top }
    ensures does { Evaluates S.meaning (form_here S.meaning config.old frame.now (AtStmt element.0)
        (λ t env. behind S.meaning config.old frame.now kind next t env))
        completion_in result stops.new.waits stops.new.top config.old config.new }
{
    match by_form(config, frame, element, ROOM, stops) {
        Ok(end) => given(config, frame, kind, next, end, stops),
        Err(end) => {
            let point = waiting_point(kind, next);
            Err(waits(config, frame, frame.node(), point, end, stops))
        }
    }
}
