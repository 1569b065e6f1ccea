//! The loop `for`-`in` (section 12.6.4).
ghost use Rattle.std.specs.Prelude.{◌≡◌, Some};
ghost use Rattle.wjs_by_content.specs.Tables.{text_in, name_in, value_in};
ghost use Rattle.wjs_meaning.specs.Deeds.{then_value, then_reference};
ghost use Rattle.wjs_meaning.specs.Loops.{VarName, after_body, for_in_value, visits_from, visit_body};
ghost use Rattle.wjs_meaning.specs.Reading.{node_in};
ghost use Rattle.wjs_model.specs.Contents.{completion_in, holding_in, reference_in};
ghost use Rattle.wjs_model.specs.Lists.{if_visits};
ghost use Rattle.wjs_model.specs.Soundness.{HasValue, HasReference, HasCompletion, HasSlot, StandsHere};
ghost use Rattle.wjs_model.specs.Waiting.{visit_taken};
ghost use Rattle.wjs_frames.specs.Parts.{node_now};
ghost use Rattle.wjs_frames.specs.Handling.{Runs, GoesOn};
ghost use Rattle.wjs_loops.specs.ForIns.{taker_of, taker_in, visit_goes};

use crate::assigns::assign;
use crate::bodies::{AfterBody, after_body};
use crate::variables::place_of;
use crate::visits::{hold_visits, next_present, next_visit};
use wjs_base::{OutOfMemory, Slot, TextId, Value};
use wjs_effects::enter_at_once;
use wjs_frames::{Part, enter, finish, hold, node_of};
use wjs_heap_steps::{store, text_of};
use wjs_model::{Completion, Config, Frame, Held, Point, Reference, StmtPoint};
use wjs_store::WorldStore;
use wjs_tree::{Node, NodeId};

/// What takes the names: a target, or the name of the `var`.
#[derive(Clone, Copy)]
pub enum Taker {
    Target(NodeId),
    Variable(TextId),
}

/// What takes the names of the `for`-`in` that the frame runs; none where it runs none.
fn taker_of<S: WorldStore>(config: &Config<S>, frame: &Frame) -> Option<Taker>
    ensures { result ≡ taker_of (node_now S.meaning config.now frame.now) }
{
    match node_of(config, frame) {
        Some(Node::ForIn(target, _, _)) => Some(Taker::Target(*target)),
        Some(Node::ForVarIn(name, _, _)) => Some(Taker::Variable(*name)),
        _ => None,
    }
}

/// After the object whose names are visited.
pub fn visits_object<S: WorldStore>(
    config: &mut Config<S>,
    frame: Frame,
    s: NodeId,
    completion: Completion,
) -> Result<(), OutOfMemory>
    requires runs { Runs S.meaning config.old frame }
    requires body { StandsHere config.old frame s }
    requires completion { HasCompletion config.old completion }
    ensures { GoesOn S.meaning frame config.old config.new result (λ t env.
        then_value (λ v. if_visits (node_in t (node_now S.meaning config.old frame)) (λ taker. for_in_value frame.node.0 taker s.0 env v))
        (completion_in t completion)) }
{
    match completion {
        Completion::Gives(value) => match taker_of(config, &frame) {
            Some(taker) => over_value(config, frame, taker, s, value),
            None => finish(config, frame, Completion::Normal),
        },
        other => finish(config, frame, other),
    }
}

/// After the target of a visit.
pub fn visit_target<S: WorldStore>(
    config: &mut Config<S>,
    frame: Frame,
    s: NodeId,
    completion: Completion,
) -> Result<(), OutOfMemory>
    requires runs { Runs S.meaning config.old frame }
    requires body { StandsHere config.old frame s }
    requires completion { HasCompletion config.old completion }
    ensures { GoesOn S.meaning frame config.old config.new result (λ t env.
        then_reference (λ r. if_visits (node_in t (node_now S.meaning config.old frame)) (λ taker.
        visit_taken frame.node.0 taker s.0 (holding_in t frame.held).visits env r)) (completion_in t completion)) }
{
    match completion {
        Completion::Refers(reference) => match taker_of(config, &frame) {
            Some(taker) => visit_taken(config, frame, taker, s, reference),
            None => finish(config, frame, Completion::Normal),
        },
        other => finish(config, frame, other),
    }
}

/// After the body of a visit.
pub fn visit_body<S: WorldStore>(
    config: &mut Config<S>,
    frame: Frame,
    s: NodeId,
    completion: Completion,
) -> Result<(), OutOfMemory>
    requires runs { Runs S.meaning config.old frame }
    requires body { StandsHere config.old frame s }
    requires completion { HasCompletion config.old completion }
    ensures { GoesOn S.meaning frame config.old config.new result (λ t env.
        if_visits (node_in t (node_now S.meaning config.old frame)) (λ taker.
        after_body frame.node.0 env (visits_from frame.node.0 taker s.0 (holding_in t frame.held).visits env) (completion_in t completion))) }
{
    match taker_of(config, &frame) {
        Some(taker) => body_ended(config, frame, taker, s, completion),
        None => finish(config, frame, Completion::Normal),
    }
}

/// The next visit, or the end.
fn body_ended<S: WorldStore>(
    config: &mut Config<S>,
    frame: Frame,
    taker: Taker,
    s: NodeId,
    completion: Completion,
) -> Result<(), OutOfMemory>
    requires runs { Runs S.meaning config.old frame }
    requires taker { taker_of (node_now S.meaning config.old frame) ≡ Some taker }
    requires body { StandsHere config.old frame s }
    requires completion { HasCompletion config.old completion }
    ensures { GoesOn S.meaning frame config.old config.new result (λ t env.
        after_body frame.node.0 env (visits_from frame.node.0 (taker_in t taker) s.0 (holding_in t frame.held).visits env) (completion_in t completion)) }
{
    match after_body(config, &frame, frame.node(), completion) {
        AfterBody::Again => visit_next(config, frame, taker, s),
        AfterBody::Ends(ended) => finish(config, frame, ended),
    }
}

/// The visits of a value are listed, and the first of them that is present comes.
fn over_value<S: WorldStore>(
    config: &mut Config<S>,
    frame: Frame,
    taker: Taker,
    s: NodeId,
    value: Value,
) -> Result<(), OutOfMemory>
    requires runs { Runs S.meaning config.old frame }
    requires taker { taker_of (node_now S.meaning config.old frame) ≡ Some taker }
    requires body { StandsHere config.old frame s }
    requires value { HasValue config.old value }
    ensures { GoesOn S.meaning frame config.old config.new result (λ t env.
        for_in_value frame.node.0 (taker_in t taker) s.0 env (value_in t value)) }
{
    let mut frame = frame;
    match hold_visits(config, &mut frame, value)? {
        Ok(()) => visit_next(config, frame, taker, s),
        Err(error) => finish(config, frame, Completion::Throws(error)),
    }
}

/// The next visit that is present, or the end of the loop.
fn visit_next<S: WorldStore>(
    config: &mut Config<S>,
    frame: Frame,
    taker: Taker,
    s: NodeId,
) -> Result<(), OutOfMemory>
    requires runs { Runs S.meaning config.old frame }
    requires taker { taker_of (node_now S.meaning config.old frame) ≡ Some taker }
    requires body { StandsHere config.old frame s }
    ensures { GoesOn S.meaning frame config.old config.new result (λ t env.
        visits_from frame.node.0 (taker_in t taker) s.0 (holding_in t frame.held).visits env) }
{
    let mut frame = frame;
    match next_present(config, &mut frame)? {
        Some(slot) => visit(config, frame, taker, s, slot),
        None => finish(config, frame, Completion::Normal),
    }
}

/// A visit that is present: a target is entered, and a `var` takes the name at once.
fn visit<S: WorldStore>(
    config: &mut Config<S>,
    frame: Frame,
    taker: Taker,
    s: NodeId,
    slot: Slot,
) -> Result<(), OutOfMemory>
    requires runs { Runs S.meaning config.old frame }
    requires taker { taker_of (node_now S.meaning config.old frame) ≡ Some taker }
    requires body { StandsHere config.old frame s }
    requires slot { HasSlot config.old slot }
    ensures { GoesOn S.meaning frame config.old config.new result (λ t env.
        visit_goes frame.node.0 (taker_in t taker) s.0 (Some (name_in t slot.name)) (holding_in t frame.held).visits env) }
{
    match taker {
        Taker::Target(target) => {
            let mut frame = frame;
            hold(&mut frame, Held::Visit(slot))?;
            let point = Point::Stmt(StmtPoint::VisitTarget(s));
            enter(config, frame, point, Part::Target(target))
        }
        Taker::Variable(name) => visit_variable(config, frame, name, s, slot),
    }
}

/// The name of a visit is stored to the `var`, and the body entered.
fn visit_variable<S: WorldStore>(
    config: &mut Config<S>,
    frame: Frame,
    name: TextId,
    s: NodeId,
    slot: Slot,
) -> Result<(), OutOfMemory>
    requires runs { Runs S.meaning config.old frame }
    requires taker { taker_of (node_now S.meaning config.old frame) ≡ Some (Taker.Variable name) }
    requires body { StandsHere config.old frame s }
    requires slot { HasSlot config.old slot }
    ensures { GoesOn S.meaning frame config.old config.new result (λ t env.
        visit_goes frame.node.0 (VarName (text_in t name)) s.0 (Some (name_in t slot.name)) (holding_in t frame.held).visits env) }
{
    let place = place_of(config, &frame, 0);
    let id = text_of(config, slot.name)?;
    match assign(config, &frame, place, name, Value::Text(id))? {
        Ok(()) => {
            let point = Point::Stmt(StmtPoint::VisitBody(s));
            enter_at_once(config, frame, point, s)
        }
        Err(error) => finish(config, frame, Completion::Throws(error)),
    }
}

/// A target takes the name of a visit, and the body is entered.
fn visit_taken<S: WorldStore>(
    config: &mut Config<S>,
    frame: Frame,
    taker: Taker,
    s: NodeId,
    reference: Reference,
) -> Result<(), OutOfMemory>
    requires runs { Runs S.meaning config.old frame }
    requires taker { taker_of (node_now S.meaning config.old frame) ≡ Some taker }
    requires body { StandsHere config.old frame s }
    requires reference { HasReference config.old reference }
    ensures { GoesOn S.meaning frame config.old config.new result (λ t env.
        visit_taken frame.node.0 (taker_in t taker) s.0 (holding_in t frame.held).visits env (reference_in t reference)) }
{
    let mut frame = frame;
    match next_visit(config, &mut frame) {
        Some(slot) => visit_stored(config, frame, taker, s, slot, reference),
        None => finish(config, frame, Completion::Normal),
    }
}

/// The name of a visit is stored, and the body entered.
fn visit_stored<S: WorldStore>(
    config: &mut Config<S>,
    frame: Frame,
    taker: Taker,
    s: NodeId,
    slot: Slot,
    reference: Reference,
) -> Result<(), OutOfMemory>
    requires runs { Runs S.meaning config.old frame }
    requires taker { taker_of (node_now S.meaning config.old frame) ≡ Some taker }
    requires body { StandsHere config.old frame s }
    requires slot { HasSlot config.old slot }
    requires reference { HasReference config.old reference }
    ensures { GoesOn S.meaning frame config.old config.new result (λ t env.
        visit_body frame.node.0 s.0 (name_in t slot.name) env
        (visits_from frame.node.0 (taker_in t taker) s.0 (holding_in t frame.held).visits env) (reference_in t reference)) }
{
    let id = text_of(config, slot.name)?;
    match store(config, &frame, reference, Value::Text(id))? {
        Ok(()) => {
            let point = Point::Stmt(StmtPoint::VisitBody(s));
            enter_at_once(config, frame, point, s)
        }
        Err(error) => finish(config, frame, Completion::Throws(error)),
    }
}
