//! `delete` and `typeof` behind their operand (ECMA-262, 3rd edition, sections 11.4.1 and 11.4.3).
ghost use Rattle.std.specs.Prelude.{◌≡◌, []};
ghost use Rattle.wjs_by_content.specs.Tables.{name_in, value_in};
ghost use Rattle.wjs_meaning.specs.Deeds.{Sub};
ghost use Rattle.wjs_meaning.specs.Expressions as line;
ghost use Rattle.wjs_meaning.specs.Properties.{get_value};
ghost use Rattle.wjs_model.specs.Contents.{reference_in};
ghost use Rattle.wjs_model.specs.Soundness.{Base, HasName, HasReference, HasValue, IsThere};
ghost use Rattle.wjs_frames.specs.Following.{Later};
ghost use Rattle.wjs_stopping.specs.Ends.{gives_in};
ghost use Rattle.wjs_stopping.specs.Evaluating.{Evaluates, HasOutcome, InMemory};
ghost use Rattle.wjs_direct_lines.specs.Deeds.{line_here};
ghost use Rattle.wjs_direct_lines.specs.Operands.{IsTypedByValue, after_reference, after_value, target_point, value_point};

use crate::references::reference_value;
use wjs_base::{Name, Value};
use wjs_effects::{delete_at, type_of};
use wjs_heap_steps::get_value;
use wjs_model::{Config, ExprPoint, Frame, Reference};
use wjs_stopping::{Broken, Stops};
use wjs_store::WorldStore;

/// An operator that asks for the reference of its operand, where that has one.
#[derive(Clone, Copy)]
pub enum Query {
    Delete,
    Typeof,
}

/// Where its frame waits for an operand that is a target.
pub fn target_point(query: Query) -> ExprPoint
    ensures { result ≡ target_point query }
{
    match query {
        Query::Delete => ExprPoint::DeleteTarget,
        Query::Typeof => ExprPoint::TypeofTarget,
    }
}

/// Where it waits for every other one.
pub fn value_point(query: Query) -> ExprPoint
    ensures { result ≡ value_point query }
{
    match query {
        Query::Delete => ExprPoint::DeleteValue,
        Query::Typeof => ExprPoint::TypeofValue,
    }
}

/// What follows the reference of its operand.
pub fn reference_told<S: WorldStore>(
    config: &mut Config<S>,
    frame: &Frame,
    query: Query,
    reference: Reference,
    stops: &mut Stops,
) -> Result<Value, Broken>
    requires base { Base S.meaning config.old }
    requires there { IsThere S.meaning config.old frame.now }
    requires empty { stops.old.waits ≡ [] }
    requires reference { HasReference config.old reference }
    ensures later { InMemory result (Later S.meaning config.old config.new) }
    ensures found { HasOutcome S.meaning HasValue config.new result stops.new.waits stops.new.top }
    ensures does { Evaluates S.meaning (line_here S.meaning config.old frame.now
        (λ t env. after_reference query env (reference_in t reference)))
        gives_in result stops.new.waits stops.new.top config.old config.new }
{
    match query {
        Query::Delete => deleted(config, frame, reference, stops),
        Query::Typeof => reference_typed(config, frame, reference, stops),
    }
}

/// `delete` takes away what the reference stands for.
fn deleted<S: WorldStore>(
    config: &mut Config<S>,
    frame: &Frame,
    reference: Reference,
    stops: &mut Stops,
) -> Result<Value, Broken>
    requires base { Base S.meaning config.old }
    requires there { IsThere S.meaning config.old frame.now }
    requires empty { stops.old.waits ≡ [] }
    requires reference { HasReference config.old reference }
    ensures later { InMemory result (Later S.meaning config.old config.new) }
    ensures found { HasOutcome S.meaning HasValue config.new result stops.new.waits stops.new.top }
    ensures does { Evaluates S.meaning (line_here S.meaning config.old frame.now
        (λ t env. line.delete_reference env (reference_in t reference)))
        gives_in result stops.new.waits stops.new.top config.old config.new }
{
    let _stops = stops;
    let gone = delete_at(config, frame, reference)?;
    Ok(Value::Bool(gone))
}

/// `typeof` of a reference: an absent name of the global object is undefined, and throws nothing.
fn reference_typed<S: WorldStore>(
    config: &mut Config<S>,
    frame: &Frame,
    reference: Reference,
    stops: &mut Stops,
) -> Result<Value, Broken>
    requires base { Base S.meaning config.old }
    requires there { IsThere S.meaning config.old frame.now }
    requires empty { stops.old.waits ≡ [] }
    requires reference { HasReference config.old reference }
    ensures later { InMemory result (Later S.meaning config.old config.new) }
    ensures found { HasOutcome S.meaning HasValue config.new result stops.new.waits stops.new.top }
    ensures does { Evaluates S.meaning (line_here S.meaning config.old frame.now
        (λ t env. line.typeof_reference env (reference_in t reference)))
        gives_in result stops.new.waits stops.new.top config.old config.new }
{
    match reference {
        Reference::Global(name) => global_typed(config, frame, name, stops),
        _ => found_typed(config, frame, reference, stops),
    }
}

/// A property of the global object.
fn global_typed<S: WorldStore>(
    config: &mut Config<S>,
    frame: &Frame,
    name: Name,
    stops: &mut Stops,
) -> Result<Value, Broken>
    requires base { Base S.meaning config.old }
    requires there { IsThere S.meaning config.old frame.now }
    requires empty { stops.old.waits ≡ [] }
    requires name { HasName config.old name }
    ensures later { InMemory result (Later S.meaning config.old config.new) }
    ensures found { HasOutcome S.meaning HasValue config.new result stops.new.waits stops.new.top }
    ensures does { Evaluates S.meaning (line_here S.meaning config.old frame.now
        (λ t env. get_value env.global (name_in t name) env line.typeof_value))
        gives_in result stops.new.waits stops.new.top config.old config.new }
{
    let global = config.global;
    let value = get_value(config, frame, global, name)?;
    value_typed(config, value, stops)
}

/// A reference whose value is taken as any other: mostly a look tells it.
fn found_typed<S: WorldStore>(
    config: &mut Config<S>,
    frame: &Frame,
    reference: Reference,
    stops: &mut Stops,
) -> Result<Value, Broken>
    requires base { Base S.meaning config.old }
    requires there { IsThere S.meaning config.old frame.now }
    requires empty { stops.old.waits ≡ [] }
    requires reference { HasReference config.old reference }
    requires typed { IsTypedByValue reference }
    ensures later { InMemory result (Later S.meaning config.old config.new) }
    ensures found { HasOutcome S.meaning HasValue config.new result stops.new.waits stops.new.top }
    ensures does { Evaluates S.meaning (line_here S.meaning config.old frame.now
        (λ t env. line.typeof_reference env (reference_in t reference)))
        gives_in result stops.new.waits stops.new.top config.old config.new }
{
    match reference_value(config, frame, reference) {
        Ok(value) => value_typed(config, value, stops),
        Err(end) => Err(end),
    }
}

/// What follows the value of its operand, which is no reference and stays.
pub fn value_told<S: WorldStore>(
    config: &mut Config<S>,
    query: Query,
    value: Value,
    stops: &mut Stops,
) -> Result<Value, Broken>
    requires base { Base S.meaning config.old }
    requires empty { stops.old.waits ≡ [] }
    requires value { HasValue config.old value }
    ensures later { InMemory result (Later S.meaning config.old config.new) }
    ensures found { HasOutcome S.meaning HasValue config.new result stops.new.waits stops.new.top }
    ensures does { Evaluates S.meaning (λ t go. Sub (after_value query (value_in t value)) go)
        gives_in result stops.new.waits stops.new.top config.old config.new }
{
    match query {
        Query::Delete => Ok(Value::Bool(true)),
        Query::Typeof => value_typed(config, value, stops),
    }
}

/// `typeof` of a value.
fn value_typed<S: WorldStore>(
    config: &mut Config<S>,
    value: Value,
    stops: &mut Stops,
) -> Result<Value, Broken>
    requires base { Base S.meaning config.old }
    requires empty { stops.old.waits ≡ [] }
    requires value { HasValue config.old value }
    ensures later { InMemory result (Later S.meaning config.old config.new) }
    ensures found { HasOutcome S.meaning HasValue config.new result stops.new.waits stops.new.top }
    ensures does { Evaluates S.meaning (λ t go. Sub (line.typeof_value (value_in t value)) go)
        gives_in result stops.new.waits stops.new.top config.old config.new }
{
    let _stops = stops;
    let name = type_of(config, value)?;
    Ok(name)
}
