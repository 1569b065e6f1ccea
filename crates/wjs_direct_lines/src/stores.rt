//! Stores of values (ECMA-262, 3rd edition, sections 8.7.2 and 11.13).
ghost use Rattle.std.specs.Prelude.{◌≡◌, [], MatchResult};
ghost use Rattle.wjs_by_content.specs.Tables.{value_in};
ghost use Rattle.wjs_meaning.specs.Deeds.{give};
ghost use Rattle.wjs_meaning.specs.Expressions as line;
ghost use Rattle.wjs_meaning.specs.References.{store};
ghost use Rattle.wjs_model.specs.Contents.{reference_in};
ghost use Rattle.wjs_model.specs.Soundness.{Base, HasReference, HasValue, IsThere, StandsHere};
ghost use Rattle.wjs_frames.specs.Following.{Later};
ghost use Rattle.wjs_stopping.specs.Ends.{gives_in};
ghost use Rattle.wjs_stopping.specs.Evaluating.{Evaluates, HasOutcome, InMemory};
ghost use Rattle.wjs_heap_steps.specs.Reads.{GivesOrThrows};
ghost use Rattle.wjs_direct_lines.specs.Deeds.{IsThrown, line_here};

use crate::holding::stop_compound;
use wjs_base::Value;
use wjs_effects::{result_at_once, store_and_end};
use wjs_model::{Completion, Config, ExprPoint, Frame, Phase, Point, Reference};
use wjs_stopping::{Broken, Stops};
use wjs_store::WorldStore;
use wjs_tree::{BinaryOperator, NodeId};

/// The store of a value, and the one that is given.
pub fn stored<S: WorldStore>(
    config: &mut Config<S>,
    frame: &Frame,
    reference: Reference,
    value: Value,
    told: Value,
    stops: &mut Stops,
) -> Result<Value, Broken>
    requires base { Base S.meaning config.old }
    requires there { IsThere S.meaning config.old frame.now }
    requires empty { stops.old.waits ≡ [] }
    requires reference { HasReference config.old reference }
    requires value { HasValue config.old value }
    requires told { HasValue config.old told }
    ensures later { InMemory result (Later S.meaning config.old config.new) }
    ensures found { HasOutcome S.meaning HasValue config.new result stops.new.waits stops.new.top }
    ensures does { Evaluates S.meaning (line_here S.meaning config.old frame.now
        (λ t env. store (reference_in t reference) (value_in t value) env (give (value_in t told))))
        gives_in result stops.new.waits stops.new.top config.old config.new }
{
    let _stops = stops;
    let end = store_and_end(config, frame, reference, value, Completion::Gives(told))?;
    value_or_thrown(end)
}

/// The value that a read or a store ends with, or what it throws.
pub(crate) fn value_or_thrown(end: Completion) -> Result<Value, Broken>
    requires { GivesOrThrows end }
    ensures { MatchResult result (λ value. end ≡ Completion.Gives value) (λ broken. IsThrown end broken) }
{
    match end {
        Completion::Gives(value) => Ok(value),
        Completion::Throws(error) => Err(Broken::Throws(error)),
        _ => unreachable!(),
    }
}

/// The operation on both, and the store of its result; one that asks for a conversion of an object or a look at one is done by a frame.
pub fn compound_stored<S: WorldStore>(
    config: &mut Config<S>,
    frame: &Frame,
    node: NodeId,
    operator: BinaryOperator,
    reference: Reference,
    old: Value,
    value: Value,
    stops: &mut Stops,
) -> Result<Value, Broken>
    requires base { Base S.meaning config.old }
    requires there { IsThere S.meaning config.old frame.now }
    requires node { StandsHere config.old frame.now node }
    requires empty { stops.old.waits ≡ [] }
    requires reference { HasReference config.old reference }
    requires old { HasValue config.old old }
    requires value { HasValue config.old value }
    ensures later { InMemory result (Later S.meaning config.old config.new) }
    ensures found { HasOutcome S.meaning HasValue config.new result stops.new.waits stops.new.top }
    ensures does { Evaluates S.meaning (line_here S.meaning config.old frame.now
        (λ t env. line.compound_value operator (value_in t old) (reference_in t reference) env (value_in t value)))
        gives_in result stops.new.waits stops.new.top config.old config.new }
{
    let done = result_at_once(config, frame, operator, old, value)?;
    match done {
        Some(new) => stored(config, frame, reference, new, new, stops),
        None => {
            let point = Point::Expr(ExprPoint::CompoundValue(operator));
            let phase = Phase::Given(point, Completion::Gives(value));
            Err(stop_compound(config, frame, node, reference, old, phase, stops))
        }
    }
}
