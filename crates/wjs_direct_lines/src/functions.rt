//! Function expressions (ECMA-262, 3rd edition, section 13).
ghost use Rattle.std.specs.Prelude.{◌≡◌, []};
ghost use Rattle.wjs_meaning.specs.Deeds.{AtExpr};
ghost use Rattle.wjs_model.specs.Soundness.{Base, HasValue, IsThere, StandsHere};
ghost use Rattle.wjs_frames.specs.Following.{Later};
ghost use Rattle.wjs_stopping.specs.Ends.{gives_in};
ghost use Rattle.wjs_stopping.specs.Evaluating.{Evaluates, HasOutcome, InMemory};
ghost use Rattle.wjs_direct_lines.specs.Deeds.{IsFunctionExpression, entry_here};

use wjs_base::{TextId, Value};
use wjs_calls::make_function;
use wjs_model::{Config, Frame};
use wjs_stopping::{Broken, Stops};
use wjs_store::WorldStore;
use wjs_tree::NodeId;

/// A function expression, whose step is taken: the function is made.
pub fn function<S: WorldStore>(
    config: &mut Config<S>,
    frame: &Frame,
    node: NodeId,
    name: Option<TextId>,
    stops: &mut Stops,
) -> Result<Value, Broken>
    requires base { Base S.meaning config.old }
    requires there { IsThere S.meaning config.old frame.now }
    requires node { StandsHere config.old frame.now node }
    requires empty { stops.old.waits ≡ [] }
    requires is { IsFunctionExpression S.meaning config.old frame.now node name }
    ensures later { InMemory result (Later S.meaning config.old config.new) }
    ensures found { HasOutcome S.meaning HasValue config.new result stops.new.waits stops.new.top }
    ensures does { Evaluates S.meaning (entry_here S.meaning config.old frame.now (AtExpr node.0))
        gives_in result stops.new.waits stops.new.top config.old config.new }
{
    let _stops = stops;
    let function = make_function(config, frame, node, name)?;
    Ok(Value::Object(function))
}
