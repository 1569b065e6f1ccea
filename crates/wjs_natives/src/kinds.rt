//! How native functions convert their receivers and arguments.
ghost use Rattle.std.specs.Prelude.{◌≡◌, slice_get, true, false, MatchOption, IsTrue, ◌↔◌};
ghost use Rattle.wjs_base.specs.Text.{Table};
ghost use Rattle.wjs_by_content.specs.Tables.{value_in};
ghost use Rattle.wjs_meaning.specs.Deeds.{Env, give};
ghost use Rattle.wjs_meaning.specs.Kinds.{convert, kinds_of};
ghost use Rattle.wjs_model.specs.Rest.{begin_conversion};
ghost use Rattle.wjs_natives.specs.Kinds.{conversions, unless_undefined};

use wjs_arena::Native;
use wjs_base::Value;
use wjs_meaning::{Kind, Kinds, row_of};
use wjs_model::Conversion;

/// The kind of the receiver, which stands at place 0, or of an argument, of which so many are given; None past the last.
pub(crate) fn kind_at(native: Native, given: usize, at: usize) -> Option<Kind>
    ensures { result ≡ slice_get (conversions native given) at }
{
    let row = row_of(native);
    if at == 0 {
        Some(row.this)
    } else {
        argument_kind(row.arguments, given, at - 1)
    }
}

/// The kind at a place among kinds, of so many arguments that are given.
pub(crate) fn argument_kind(kinds: Kinds, given: usize, at: usize) -> Option<Kind>
    ensures { result ≡ slice_get (kinds_of kinds given) at }
{
    match kinds {
        Kinds::Nothing => None,
        Kinds::One(kind) if at == 0 => Some(kind),
        Kinds::Two(kind, _) if at == 0 => Some(kind),
        Kinds::Two(_, kind) if at == 1 => Some(kind),
        Kinds::Three(kind, _, _) if at == 0 => Some(kind),
        Kinds::Three(_, kind, _) if at == 1 => Some(kind),
        Kinds::Three(_, _, kind) if at == 2 => Some(kind),
        Kinds::Each(kind) if at < given => Some(kind),
        Kinds::IfGiven(kind) if at == 0 && given > 0 => Some(kind),
        _ => None,
    }
}

/// The conversion of a value; None where it stays as it is.
pub(crate) fn conversion_of(kind: Kind, value: Value) -> Option<Conversion>
    ensures { MatchOption result ((t : Table) (env : Env) → convert kind (value_in t value) env ≡ give (value_in t value))
        (λ conversion. (t : Table) (env : Env) → convert kind (value_in t value) env ≡ begin_conversion conversion (value_in t value) env) }
{
    match kind {
        Kind::AsIs => None,
        Kind::ToText => Some(Conversion::Text),
        Kind::ToNumber => Some(Conversion::Number),
        Kind::ToInteger => Some(Conversion::Integer),
        Kind::TextIfGiven => unless_undefined(value, Conversion::Text),
        Kind::NumberIfGiven => unless_undefined(value, Conversion::Number),
        Kind::IntegerIfGiven => unless_undefined(value, Conversion::Integer),
    }
}

/// A conversion, unless the value is undefined.
fn unless_undefined(value: Value, conversion: Conversion) -> Option<Conversion>
    ensures { result ≡ unless_undefined value conversion }
{
    match value {
        Value::Undefined => None,
        _ => Some(conversion),
    }
}
