//! The loop `for`-`in` (ECMA-262, 3rd edition, section 12.6.4): its object, and then its visits. A frame of the loop's own, which is none of
//! the configuration's, holds those that are left; where a visit stops, it waits.
ghost use Rattle.std.specs.Prelude.{◌≡◌, IfOk, OnOk, MatchResult, []};
ghost use Rattle.wjs_base.specs.Text.{Grows, Table};
ghost use Rattle.wjs_meaning.specs.Deeds.{Act, AtExpr, AtTarget, then_reference, then_value};
ghost use Rattle.wjs_meaning.specs.Loops.{after_body};
ghost use Rattle.wjs_model.specs.Contents.{completion_in, reference_in};
ghost use Rattle.wjs_model.specs.Soundness.{Base, HasCompletion, HasReference, HasSlot, HasValue, IsThere, StandsHere};
ghost use Rattle.wjs_frames.specs.Following.{Later};
ghost use Rattle.wjs_frames.specs.Parts.{env_in};
ghost use Rattle.wjs_stopping.specs.Evaluating.{Evaluates, HasOutcome, InMemory};
ghost use Rattle.wjs_direct_lines.specs.Deeds.{form_here, line_here};
ghost use Rattle.wjs_direct.specs.Rounds.{HasRound};
ghost use Rattle.wjs_direct.specs.Visits.{GoesVisit, HoldsVisits, ListsVisits, RefusesVisits, TakesNames};
ghost use Rattle.wjs_direct.specs.Visits.{ended_or, name_taken, over_left, visits_left};

use crate::expressions::value;
use crate::loops::many;
use crate::statements::statement;
use crate::targets::target;
use wjs_base::{OutOfMemory, Slot, Value};
use wjs_direct_lines::{store_name, target_waits, visits_wait};
use wjs_frames::place_at;
use wjs_heap_steps::reference_at;
use wjs_loops::{AfterBody, Taker, after_body, hold_visits, next_present};
use wjs_model::{Completion, Config, Frame, Point, Reference, StmtPoint};
use wjs_stopping::{Broken, Stops, waits};
use wjs_store::WorldStore;
use wjs_tree::NodeId;

/// A `for`-`in`: its object, and then its visits, which a frame holds that is spared behind them; undefined and null have none, which is thrown.
#[cycle(direct)]
#[inline(never)]
pub(crate) fn for_in<S: WorldStore>(
    config: &mut Config<S>,
    frame: &Frame,
    node: NodeId,
    taker: Taker,
    object: NodeId,
    body: NodeId,
    room: u16,
    stops: &mut Stops,
) -> Result<Completion, Broken>
    requires base { Base S.meaning config.old }
    requires there { IsThere S.meaning config.old frame.now }
    requires node { StandsHere config.old frame.now node }
    requires empty { stops.old.waits ≡ [] }
    requires taker { TakesNames config.old frame.now node taker }
    requires object { StandsHere config.old frame.now object }
    requires body { StandsHere config.old frame.now body }
    ensures later { InMemory result (Later S.meaning config.old config.new) }
    ensures found { HasOutcome S.meaning HasCompletion config.new result stops.new.waits stops.new.top }
    ensures does { Evaluates S.meaning (form_here S.meaning config.old frame.now (AtExpr object.0)
        (λ t env. then_value (over_left node taker body t env)))
        completion_in result stops.new.waits stops.new.top config.old config.new }
{
    match value(config, frame, object, room, stops) {
        Ok(over) => {
            let listed = list_visits(config, frame, node, over)?;
            match listed {
                Ok(visits) => {
                    let mut visits = visits;
                    let done = run_visits(
                        config,
                        frame,
                        node,
                        taker,
                        body,
                        &mut visits,
                        room,
                        stops,
                    );
                    config.frames.spare(visits);
                    done
                }
                Err(error) => Err(Broken::Throws(error)),
            }
        }
        Err(end) => {
            let point = Point::Stmt(StmtPoint::VisitsObject(body));
            Err(waits(config, frame, node, point, end, stops))
        }
    }
}

/// A frame of the node that holds the visits of a value; of undefined and null what is thrown.
fn list_visits<S: WorldStore>(
    config: &mut Config<S>,
    frame: &Frame,
    node: NodeId,
    over: Value,
) -> Result<Result<Frame, Value>, OutOfMemory>
    requires base { Base S.meaning config.old }
    requires there { IsThere S.meaning config.old frame.now }
    requires node { StandsHere config.old frame.now node }
    requires over { HasValue config.old over }
    ensures later { OnOk result (Later S.meaning config.old config.new) }
    ensures found { IfOk result (λ answer. MatchResult answer (λ visits. HoldsVisits S.meaning config.new frame.now node visits)
        (λ error. HasValue config.new error)) }
    ensures does { IfOk result (λ answer. MatchResult answer (λ visits. ListsVisits S.meaning over frame.now node visits.held config.old config.new)
        (λ error. RefusesVisits S.meaning over error frame.now node config.old config.new)) }
{
    let mut visits = config.frames.begun(frame, node)?;
    let listed = hold_visits(config, &mut visits, over)?;
    match listed {
        Ok(()) => Ok(Ok(visits)),
        Err(error) => Ok(Err(error)),
    }
}

/// The visits that a frame holds, one by one, in one Rust loop.
#[cycle(direct)]
#[inline(never)]
pub(crate) fn run_visits<S: WorldStore>(
    config: &mut Config<S>,
    frame: &Frame,
    node: NodeId,
    taker: Taker,
    body: NodeId,
    visits: &mut Frame,
    room: u16,
    stops: &mut Stops,
) -> Result<Completion, Broken>
    requires base { Base S.meaning config.old }
    requires there { IsThere S.meaning config.old frame.now }
    requires node { StandsHere config.old frame.now node }
    requires empty { stops.old.waits ≡ [] }
    requires taker { TakesNames config.old frame.now node taker }
    requires body { StandsHere config.old frame.now body }
    requires visits { HoldsVisits S.meaning config.old frame.now node visits.old }
    ensures later { InMemory result (Later S.meaning config.old config.new) }
    ensures found { HasOutcome S.meaning HasCompletion config.new result stops.new.waits stops.new.top }
    ensures does { Evaluates S.meaning (line_here S.meaning config.old frame.now (visits_left node taker body visits.old.held))
        completion_in result stops.new.waits stops.new.top config.old config.new }
{
    let mut turns = many();
    'rounds: while turns > 0 {
        turns -= 1;
        match visit_next(config, frame, node, taker, body, visits, room, stops) {
            Ok(ended) => match ended {
                Some(end) => return Ok(end),
                None => {}
            },
            Err(end) => return Err(end),
        }
    }
    Err(Broken::OutOfMemory)
}

/// The next visit whose property is present, whose name a target takes, or the name of the `var` at its place; without one the loop ends.
#[cycle(direct)]
fn visit_next<S: WorldStore>(
    config: &mut Config<S>,
    frame: &Frame,
    node: NodeId,
    taker: Taker,
    body: NodeId,
    visits: &mut Frame,
    room: u16,
    stops: &mut Stops,
) -> Result<Option<Completion>, Broken>
    requires base { Base S.meaning config.old }
    requires there { IsThere S.meaning config.old frame.now }
    requires node { StandsHere config.old frame.now node }
    requires empty { stops.old.waits ≡ [] }
    requires taker { TakesNames config.old frame.now node taker }
    requires body { StandsHere config.old frame.now body }
    requires visits { HoldsVisits S.meaning config.old frame.now node visits.old }
    ensures later { InMemory result (Later S.meaning config.old config.new) }
    ensures found { HasOutcome S.meaning HasRound config.new result stops.new.waits stops.new.top }
    ensures visits { OnOk result (HoldsVisits S.meaning config.new frame.now node visits.new) }
    ensures does { GoesVisit S.meaning (line_here S.meaning config.old frame.now (visits_left node taker body visits.old.held))
        frame.now node taker body visits.new.held result stops.new.waits stops.new.top config.old config.new }
{
    let found = next_present(config, visits)?;
    match found {
        Some(slot) => match taker {
            Taker::Target(t) => {
                visit_target(config, frame, node, t, body, slot, visits, room, stops)
            }
            Taker::Variable(name) => {
                let place = place_at(config, frame, node, 0);
                let reference = reference_at(config, frame, place, name);
                let taker = Taker::Variable(name);
                named(
                    config, frame, node, taker, body, slot, reference, visits, room, stops,
                )
            }
        },
        None => Ok(Some(Completion::Normal)),
    }
}

/// A target takes the name; where it stops, its visit is held as the first of those that are left.
#[cycle(direct)]
fn visit_target<S: WorldStore>(
    config: &mut Config<S>,
    frame: &Frame,
    node: NodeId,
    t: NodeId,
    body: NodeId,
    slot: Slot,
    visits: &mut Frame,
    room: u16,
    stops: &mut Stops,
) -> Result<Option<Completion>, Broken>
    requires base { Base S.meaning config.old }
    requires there { IsThere S.meaning config.old frame.now }
    requires node { StandsHere config.old frame.now node }
    requires empty { stops.old.waits ≡ [] }
    requires taker { TakesNames config.old frame.now node (Taker.Target t) }
    requires target { StandsHere config.old frame.now t }
    requires body { StandsHere config.old frame.now body }
    requires slot { HasSlot config.old slot }
    requires visits { HoldsVisits S.meaning config.old frame.now node visits.old }
    ensures later { InMemory result (Later S.meaning config.old config.new) }
    ensures found { HasOutcome S.meaning HasRound config.new result stops.new.waits stops.new.top }
    ensures visits { OnOk result (HoldsVisits S.meaning config.new frame.now node visits.new) }
    ensures does { GoesVisit S.meaning (form_here S.meaning config.old frame.now (AtTarget t.0)
        (λ u env. then_reference (name_taken node (Taker.Target t) body visits.old.held slot u env)))
        frame.now node (Taker.Target t) body visits.new.held result stops.new.waits stops.new.top config.old config.new }
{
    match target(config, frame, t, room, stops) {
        Ok(reference) => {
            let taker = Taker::Target(t);
            named(
                config, frame, node, taker, body, slot, reference, visits, room, stops,
            )
        }
        Err(end) => Err(target_waits(config, frame, node, body, slot, visits, end, stops)),
    }
}

/// A reference takes the name, which is a store and may throw, and the body is run; where that stops, the visits that are left are held.
#[cycle(direct)]
fn named<S: WorldStore>(
    config: &mut Config<S>,
    frame: &Frame,
    node: NodeId,
    taker: Taker,
    body: NodeId,
    slot: Slot,
    reference: Reference,
    visits: &mut Frame,
    room: u16,
    stops: &mut Stops,
) -> Result<Option<Completion>, Broken>
    requires base { Base S.meaning config.old }
    requires there { IsThere S.meaning config.old frame.now }
    requires node { StandsHere config.old frame.now node }
    requires empty { stops.old.waits ≡ [] }
    requires taker { TakesNames config.old frame.now node taker }
    requires body { StandsHere config.old frame.now body }
    requires slot { HasSlot config.old slot }
    requires reference { HasReference config.old reference }
    requires visits { HoldsVisits S.meaning config.old frame.now node visits.old }
    ensures later { InMemory result (Later S.meaning config.old config.new) }
    ensures found { HasOutcome S.meaning HasRound config.new result stops.new.waits stops.new.top }
    ensures visits { OnOk result (HoldsVisits S.meaning config.new frame.now node visits.new) }
    ensures does { GoesVisit S.meaning (line_here S.meaning config.old frame.now
        (λ t env. name_taken node taker body visits.old.held slot t env (reference_in t reference)))
        frame.now node taker body visits.new.held result stops.new.waits stops.new.top config.old config.new }
{
    let _taker = taker;
    let end = store_name(config, frame, slot, reference)?;
    match end {
        Completion::Normal => match statement(config, frame, body, room, stops) {
            Ok(end) => Ok(body_ended(config, frame, node, end)),
            Err(end) => {
                let point = Point::Stmt(StmtPoint::VisitBody(body));
                Err(visits_wait(config, frame, node, visits, point, end, stops))
            }
        },
        _ => Ok(Some(end)),
    }
}

/// After the body: the visits that are left, or the loop's end.
fn body_ended<S: WorldStore>(
    config: &Config<S>,
    frame: &Frame,
    node: NodeId,
    end: Completion,
) -> Option<Completion>
    requires base { Base S.meaning config.now }
    requires end { HasCompletion config.now end }
    ensures is { (t : Table) → Grows config.now.heap.texts t → (again : Act) →
        after_body node.0 (env_in S.meaning config.now t frame.now) again (completion_in t end) ≡ ended_or t again result }
    ensures found { HasRound config.now result }
{
    match after_body(config, frame, node, end) {
        AfterBody::Again => None,
        AfterBody::Ends(ended) => Some(ended),
    }
}
