//! Targets, for their references (ECMA-262, 3rd edition, sections 11.1.6 and 11.2.1).
ghost use Rattle.std.specs.Prelude.{◌≡◌, ◌<◌, ◌≤◌, true, []};
ghost use Rattle.wjs_by_content.specs.Tables.{value_in};
ghost use Rattle.wjs_meaning.specs.Deeds.{AtExpr, AtTarget, then_value};
ghost use Rattle.wjs_model.specs.Waiting.{refer};
ghost use Rattle.wjs_meaning.specs.Expressions as line;
ghost use Rattle.wjs_meaning.specs.Reading.{spelt_in};
ghost use Rattle.wjs_model.specs.Soundness.{Base, HasReference, HasValue, IsThere, StandsHere};
ghost use Rattle.wjs_frames.specs.Following.{Later};
ghost use Rattle.wjs_stopping.specs.Evaluating.{Evaluates, HasOutcome, InMemory};
ghost use Rattle.wjs_direct_lines.specs.Deeds.{IsNode, entry_here, form_here, goal_here, refers_in};

use crate::expressions::value;
use wjs_base::Value;
use wjs_direct_lines::{may_enter, referred_by_name, referred_by_value};
use wjs_effects::reference_at_once;
use wjs_frames::node_at;
use wjs_model::{Config, ExprPoint, Frame, Held, Phase, Point, Purpose, Reference, Start};
use wjs_stopping::{Broken, Stops, stop, waits, waits_holding};
use wjs_store::WorldStore;
use wjs_tree::{Node, NodeId, Spelt};

/// The reference of a target: at once, where its parts have their values at once; else by its form.
#[cycle(direct)]
pub(crate) fn target<S: WorldStore>(
    config: &mut Config<S>,
    frame: &Frame,
    node: NodeId,
    room: u16,
    stops: &mut Stops,
) -> Result<Reference, Broken>
    requires base { Base S.meaning config.old }
    requires there { IsThere S.meaning config.old frame.now }
    requires node { StandsHere config.old frame.now node }
    requires empty { stops.old.waits ≡ [] }
    ensures later { InMemory result (Later S.meaning config.old config.new) }
    ensures found { HasOutcome S.meaning HasReference config.new result stops.new.waits stops.new.top }
    ensures does { Evaluates S.meaning (goal_here S.meaning config.old frame.now (AtTarget node.0))
        refers_in result stops.new.waits stops.new.top config.old config.new }
{
    if let Some(reference) = reference_at_once(config, frame, node) {
        return Ok(reference);
    }
    if !may_refer(config, frame, node, room) {
        return Err(stop(config, frame, node, Phase::Due(Start::Target), stops));
    }
    config.left -= 1;
    member(config, frame, node, room - 2, stops)
}

/// Whether a target may be entered here: there is a step and room for it, and it is a member.
fn may_refer<S: WorldStore>(config: &Config<S>, frame: &Frame, node: NodeId, room: u16) -> bool
    ensures left { result ≡ true → 0 < config.now.left }
    ensures room { result ≡ true → 8 ≤ room }
{
    if may_enter(config, room) {
        is_member(config, frame, node)
    } else {
        false
    }
}

/// Whether a node is a member.
fn is_member<S: WorldStore>(config: &Config<S>, frame: &Frame, node: NodeId) -> bool {
    matches!(
        node_at(config, frame, node),
        Some(Node::Dot(_, _) | Node::At(_, _))
    )
}

/// A member as a target, whose step is taken.
#[cycle(direct)]
fn member<S: WorldStore>(
    config: &mut Config<S>,
    frame: &Frame,
    node: NodeId,
    room: u16,
    stops: &mut Stops,
) -> Result<Reference, Broken>
    requires base { Base S.meaning config.old }
    requires there { IsThere S.meaning config.old frame.now }
    requires node { StandsHere config.old frame.now node }
    requires empty { stops.old.waits ≡ [] }
    ensures later { InMemory result (Later S.meaning config.old config.new) }
    ensures found { HasOutcome S.meaning HasReference config.new result stops.new.waits stops.new.top }
    ensures does { Evaluates S.meaning (entry_here S.meaning config.old frame.now (AtTarget node.0))
        refers_in result stops.new.waits stops.new.top config.old config.new }
{
    match node_at(config, frame, node) {
        Some(Node::Dot(base, name)) => {
            let (base, name) = (*base, *name);
            dot(config, frame, node, base, name, room, stops)
        }
        Some(Node::At(base, index)) => {
            let (base, index) = (*base, *index);
            at(config, frame, node, base, index, room, stops)
        }
        _ => Err(stop(config, frame, node, Phase::Ready(Start::Target), stops)),
    }
}

/// A member by name.
#[cycle(direct)]
fn dot<S: WorldStore>(
    config: &mut Config<S>,
    frame: &Frame,
    node: NodeId,
    base: NodeId,
    name: Spelt,
    room: u16,
    stops: &mut Stops,
) -> Result<Reference, Broken>
    requires base { Base S.meaning config.old }
    requires there { IsThere S.meaning config.old frame.now }
    requires node { StandsHere config.old frame.now node }
    requires empty { stops.old.waits ≡ [] }
    requires is { IsNode S.meaning config.old frame.now node (Node.Dot base name) }
    ensures later { InMemory result (Later S.meaning config.old config.new) }
    ensures found { HasOutcome S.meaning HasReference config.new result stops.new.waits stops.new.top }
    ensures does { Evaluates S.meaning (form_here S.meaning config.old frame.now (AtExpr base.0)
        (λ t env. then_value (line.dot_base (spelt_in t name) env refer)))
        refers_in result stops.new.waits stops.new.top config.old config.new }
{
    match value(config, frame, base, room, stops) {
        Ok(object) => referred_by_name(config, frame, node, name, object, stops),
        Err(end) => {
            let point = Point::Expr(ExprPoint::DotBase(Purpose::Target));
            Err(waits(config, frame, node, point, end, stops))
        }
    }
}

/// A member by value: the base, and then the index.
#[cycle(direct)]
fn at<S: WorldStore>(
    config: &mut Config<S>,
    frame: &Frame,
    node: NodeId,
    base: NodeId,
    index: NodeId,
    room: u16,
    stops: &mut Stops,
) -> Result<Reference, Broken>
    requires base { Base S.meaning config.old }
    requires there { IsThere S.meaning config.old frame.now }
    requires node { StandsHere config.old frame.now node }
    requires empty { stops.old.waits ≡ [] }
    requires is { IsNode S.meaning config.old frame.now node (Node.At base index) }
    ensures later { InMemory result (Later S.meaning config.old config.new) }
    ensures found { HasOutcome S.meaning HasReference config.new result stops.new.waits stops.new.top }
    ensures does { Evaluates S.meaning (form_here S.meaning config.old frame.now (AtExpr base.0)
        (λ t env. then_value (line.at_base index.0 env refer)))
        refers_in result stops.new.waits stops.new.top config.old config.new }
{
    match value(config, frame, base, room, stops) {
        Ok(object) => index_of_base(config, frame, node, object, index, room, stops),
        Err(end) => {
            let point = Point::Expr(ExprPoint::IndexBase(Purpose::Target, index));
            Err(waits(config, frame, node, point, end, stops))
        }
    }
}

/// The index, behind the base.
#[cycle(direct)]
fn index_of_base<S: WorldStore>(
    config: &mut Config<S>,
    frame: &Frame,
    node: NodeId,
    object: Value,
    index: NodeId,
    room: u16,
    stops: &mut Stops,
) -> Result<Reference, Broken>
    requires base { Base S.meaning config.old }
    requires there { IsThere S.meaning config.old frame.now }
    requires node { StandsHere config.old frame.now node }
    requires empty { stops.old.waits ≡ [] }
    requires object { HasValue config.old object }
    requires index { StandsHere config.old frame.now index }
    ensures later { InMemory result (Later S.meaning config.old config.new) }
    ensures found { HasOutcome S.meaning HasReference config.new result stops.new.waits stops.new.top }
    ensures does { Evaluates S.meaning (form_here S.meaning config.old frame.now (AtExpr index.0)
        (λ t env. then_value (line.at_index (value_in t object) env refer)))
        refers_in result stops.new.waits stops.new.top config.old config.new }
{
    match value(config, frame, index, room, stops) {
        Ok(key) => referred_by_value(config, frame, node, object, key, stops),
        Err(end) => {
            let point = Point::Expr(ExprPoint::Index(Purpose::Target));
            let held = Held::Value(object);
            Err(waits_holding(config, frame, node, held, point, end, stops))
        }
    }
}
