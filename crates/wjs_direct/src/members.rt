//! Members for their value (ECMA-262, 3rd edition, sections 8.7.1 and 11.2.1).
ghost use Rattle.std.specs.Prelude.{◌≡◌, []};
ghost use Rattle.wjs_by_content.specs.Tables.{value_in};
ghost use Rattle.wjs_meaning.specs.Deeds.{AtExpr, then_value};
ghost use Rattle.wjs_meaning.specs.Expressions as line;
ghost use Rattle.wjs_meaning.specs.Reading.{spelt_in};
ghost use Rattle.wjs_model.specs.Soundness.{Base, HasValue, IsThere, StandsHere};
ghost use Rattle.wjs_frames.specs.Following.{Later};
ghost use Rattle.wjs_stopping.specs.Ends.{gives_in};
ghost use Rattle.wjs_stopping.specs.Evaluating.{Evaluates, HasOutcome, InMemory};
ghost use Rattle.wjs_direct_lines.specs.Deeds.{IsNode, form_here};

use crate::expressions::value;
use wjs_base::Value;
use wjs_direct_lines::{member_by_name, member_by_value};
use wjs_model::{Config, ExprPoint, Frame, Held, Point, Purpose};
use wjs_stopping::{Broken, Stops, waits, waits_holding};
use wjs_store::WorldStore;
use wjs_tree::{Node, NodeId, Spelt};

/// A member by name.
#[cycle(direct)]
#[inline(never)]
pub(crate) fn dot<S: WorldStore>(
    config: &mut Config<S>,
    frame: &Frame,
    node: NodeId,
    base: NodeId,
    name: Spelt,
    room: u16,
    stops: &mut Stops,
) -> Result<Value, Broken>
    requires base { Base S.meaning config.old }
    requires there { IsThere S.meaning config.old frame.now }
    requires node { StandsHere config.old frame.now node }
    requires empty { stops.old.waits ≡ [] }
    requires is { IsNode S.meaning config.old frame.now node (Node.Dot base name) }
    ensures later { InMemory result (Later S.meaning config.old config.new) }
    ensures found { HasOutcome S.meaning HasValue config.new result stops.new.waits stops.new.top }
    ensures does { Evaluates S.meaning (form_here S.meaning config.old frame.now (AtExpr base.0)
        (λ t env. then_value (line.dot_base (spelt_in t name) env (line.give_value_of env))))
        gives_in result stops.new.waits stops.new.top config.old config.new }
{
    match value(config, frame, base, room, stops) {
        Ok(object) => member_by_name(config, frame, node, name, object, stops),
        Err(end) => {
            let point = Point::Expr(ExprPoint::DotBase(Purpose::Value));
            Err(waits(config, frame, node, point, end, stops))
        }
    }
}

/// A member by value: the base, and then the index.
#[cycle(direct)]
#[inline(never)]
pub(crate) fn at<S: WorldStore>(
    config: &mut Config<S>,
    frame: &Frame,
    node: NodeId,
    base: NodeId,
    index: NodeId,
    room: u16,
    stops: &mut Stops,
) -> Result<Value, Broken>
    requires base { Base S.meaning config.old }
    requires there { IsThere S.meaning config.old frame.now }
    requires node { StandsHere config.old frame.now node }
    requires empty { stops.old.waits ≡ [] }
    requires is { IsNode S.meaning config.old frame.now node (Node.At base index) }
    ensures later { InMemory result (Later S.meaning config.old config.new) }
    ensures found { HasOutcome S.meaning HasValue config.new result stops.new.waits stops.new.top }
    ensures does { Evaluates S.meaning (form_here S.meaning config.old frame.now (AtExpr base.0)
        (λ t env. then_value (line.at_base index.0 env (line.give_value_of env))))
        gives_in result stops.new.waits stops.new.top config.old config.new }
{
    match value(config, frame, base, room, stops) {
        Ok(object) => index_of_base(config, frame, node, object, index, room, stops),
        Err(end) => {
            let point = Point::Expr(ExprPoint::IndexBase(Purpose::Value, index));
            Err(waits(config, frame, node, point, end, stops))
        }
    }
}

/// The index, behind the base.
#[cycle(direct)]
fn index_of_base<S: WorldStore>(
    config: &mut Config<S>,
    frame: &Frame,
    node: NodeId,
    object: Value,
    index: NodeId,
    room: u16,
    stops: &mut Stops,
) -> Result<Value, Broken>
    requires base { Base S.meaning config.old }
    requires there { IsThere S.meaning config.old frame.now }
    requires node { StandsHere config.old frame.now node }
    requires empty { stops.old.waits ≡ [] }
    requires object { HasValue config.old object }
    requires index { StandsHere config.old frame.now index }
    ensures later { InMemory result (Later S.meaning config.old config.new) }
    ensures found { HasOutcome S.meaning HasValue config.new result stops.new.waits stops.new.top }
    ensures does { Evaluates S.meaning (form_here S.meaning config.old frame.now (AtExpr index.0)
        (λ t env. then_value (line.at_index (value_in t object) env (line.give_value_of env))))
        gives_in result stops.new.waits stops.new.top config.old config.new }
{
    match value(config, frame, index, room, stops) {
        Ok(key) => member_by_value(config, frame, node, object, key, stops),
        Err(end) => {
            let point = Point::Expr(ExprPoint::Index(Purpose::Value));
            let held = Held::Value(object);
            Err(waits_holding(config, frame, node, held, point, end, stops))
        }
    }
}
