//! Operations on two values (ECMA-262, 3rd edition, sections 11.5 to 11.10).
ghost use Rattle.std.specs.Prelude.{◌≡◌, []};
ghost use Rattle.wjs_by_content.specs.Tables.{value_in};
ghost use Rattle.wjs_meaning.specs.Expressions as line;
ghost use Rattle.wjs_model.specs.Soundness.{Base, HasValue, IsThere, StandsHere};
ghost use Rattle.wjs_frames.specs.Following.{Later};
ghost use Rattle.wjs_stopping.specs.Ends.{gives_in};
ghost use Rattle.wjs_stopping.specs.Evaluating.{Evaluates, HasOutcome, InMemory};
ghost use Rattle.wjs_direct_lines.specs.Deeds.{line_here};

use wjs_base::Value;
use wjs_effects::result_at_once;
use wjs_model::{Completion, Config, ExprPoint, Frame, Held, Phase, Point};
use wjs_stopping::{Broken, Stops, stop_holding};
use wjs_store::WorldStore;
use wjs_tree::{BinaryOperator, NodeId};

/// The operation on both; one that asks for a conversion of an object or a look at one is done by a frame.
#[inline(always)]
pub fn operation<S: WorldStore>(
    config: &mut Config<S>,
    frame: &Frame,
    node: NodeId,
    operator: BinaryOperator,
    first: Value,
    second: Value,
    stops: &mut Stops,
) -> Result<Value, Broken>
    requires base { Base S.meaning config.old }
    requires there { IsThere S.meaning config.old frame.now }
    requires node { StandsHere config.old frame.now node }
    requires empty { stops.old.waits ≡ [] }
    requires left { HasValue config.old first }
    requires right { HasValue config.old second }
    ensures later { InMemory result (Later S.meaning config.old config.new) }
    ensures found { HasOutcome S.meaning HasValue config.new result stops.new.waits stops.new.top }
    ensures does { Evaluates S.meaning (line_here S.meaning config.old frame.now (λ t env. line.binary_right operator (value_in t first) env (value_in t second)))
        gives_in result stops.new.waits stops.new.top config.old config.new }
{
    let done = result_at_once(config, frame, operator, first, second)?;
    match done {
        Some(value) => Ok(value),
        None => {
            let point = Point::Expr(ExprPoint::BinaryRight(operator));
            let phase = Phase::Given(point, Completion::Gives(second));
            Err(stop_holding(config, frame, node, Held::Value(first), phase, stops))
        }
    }
}
