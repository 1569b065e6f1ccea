//! Members of values that are there (ECMA-262, 3rd edition, section 11.2.1).
ghost use Rattle.std.specs.Prelude.{◌≡◌, []};
ghost use Rattle.wjs_by_content.specs.Tables.{value_in};
ghost use Rattle.wjs_meaning.specs.Expressions as line;
ghost use Rattle.wjs_meaning.specs.Reading.{spelt_in};
ghost use Rattle.wjs_model.specs.Soundness.{Base, HasValue, IsThere, StandsHere};
ghost use Rattle.wjs_frames.specs.Following.{Later};
ghost use Rattle.wjs_stopping.specs.Ends.{gives_in};
ghost use Rattle.wjs_stopping.specs.Evaluating.{Evaluates, HasOutcome, InMemory};
ghost use Rattle.wjs_direct_lines.specs.Deeds.{IsDot, line_here};

use crate::references::{reference_value, value_read};
use wjs_base::Value;
use wjs_effects::{dot_reference, index_reference};
use wjs_model::{Completion, Config, ExprPoint, Frame, Held, Phase, Point, Purpose};
use wjs_quick::dotted;
use wjs_stopping::{Broken, Stops, stop, stop_holding};
use wjs_store::WorldStore;
use wjs_tree::{NodeId, Spelt};

/// The member of its base: by a look, where that tells it; else it is read.
pub fn member_by_name<S: WorldStore>(
    config: &mut Config<S>,
    frame: &Frame,
    node: NodeId,
    name: Spelt,
    object: Value,
    stops: &mut Stops,
) -> Result<Value, Broken>
    requires base { Base S.meaning config.old }
    requires there { IsThere S.meaning config.old frame.now }
    requires node { StandsHere config.old frame.now node }
    requires empty { stops.old.waits ≡ [] }
    requires is { IsDot S.meaning config.old frame.now node name }
    requires object { HasValue config.old object }
    ensures later { InMemory result (Later S.meaning config.old config.new) }
    ensures found { HasOutcome S.meaning HasValue config.new result stops.new.waits stops.new.top }
    ensures does { Evaluates S.meaning (line_here S.meaning config.old frame.now
        (λ t env. line.dot_base (spelt_in t name) env (line.give_value_of env) (value_in t object)))
        gives_in result stops.new.waits stops.new.top config.old config.new }
{
    match dotted(config, frame, object, name) {
        Some(member) => Ok(member),
        None => read_by_name(config, frame, node, name, object, stops),
    }
}

/// It is read, since a world has still to note that it is. A base that has none, and a name whose text has to be made, are left to a
/// frame.
#[inline(never)]
fn read_by_name<S: WorldStore>(
    config: &mut Config<S>,
    frame: &Frame,
    node: NodeId,
    name: Spelt,
    object: Value,
    stops: &mut Stops,
) -> Result<Value, Broken>
    requires base { Base S.meaning config.old }
    requires there { IsThere S.meaning config.old frame.now }
    requires node { StandsHere config.old frame.now node }
    requires empty { stops.old.waits ≡ [] }
    requires is { IsDot S.meaning config.old frame.now node name }
    requires object { HasValue config.old object }
    ensures later { InMemory result (Later S.meaning config.old config.new) }
    ensures found { HasOutcome S.meaning HasValue config.new result stops.new.waits stops.new.top }
    ensures does { Evaluates S.meaning (line_here S.meaning config.old frame.now
        (λ t env. line.dot_base (spelt_in t name) env (line.give_value_of env) (value_in t object)))
        gives_in result stops.new.waits stops.new.top config.old config.new }
{
    match dot_reference(config, object, name) {
        Some(reference) => value_read(config, frame, reference),
        None => {
            let point = Point::Expr(ExprPoint::DotBase(Purpose::Value));
            let phase = Phase::Given(point, Completion::Gives(object));
            Err(stop(config, frame, node, phase, stops))
        }
    }
}

/// The member of its base. Where that has none, or where a text would be made for its name, a frame goes on with the index.
pub fn member_by_value<S: WorldStore>(
    config: &mut Config<S>,
    frame: &Frame,
    node: NodeId,
    object: Value,
    key: Value,
    stops: &mut Stops,
) -> Result<Value, Broken>
    requires base { Base S.meaning config.old }
    requires there { IsThere S.meaning config.old frame.now }
    requires node { StandsHere config.old frame.now node }
    requires empty { stops.old.waits ≡ [] }
    requires object { HasValue config.old object }
    requires key { HasValue config.old key }
    ensures later { InMemory result (Later S.meaning config.old config.new) }
    ensures found { HasOutcome S.meaning HasValue config.new result stops.new.waits stops.new.top }
    ensures does { Evaluates S.meaning (line_here S.meaning config.old frame.now
        (λ t env. line.at_index (value_in t object) env (line.give_value_of env) (value_in t key)))
        gives_in result stops.new.waits stops.new.top config.old config.new }
{
    match index_reference(config, object, key) {
        Some(reference) => reference_value(config, frame, reference),
        None => {
            let point = Point::Expr(ExprPoint::Index(Purpose::Value));
            let phase = Phase::Given(point, Completion::Gives(key));
            Err(stop_holding(config, frame, node, Held::Value(object), phase, stops))
        }
    }
}
