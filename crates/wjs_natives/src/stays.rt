//! Receivers and arguments that are of their kinds already (ECMA-262, 3rd edition, section 9).
ghost use Rattle.std.specs.Prelude.{◌≡◌, Bool, true, List, ◌++◌, map, length};
ghost use Rattle.wjs_base.specs.Text.{Table};
ghost use Rattle.wjs_by_content.specs.Tables.{value_in};
ghost use Rattle.wjs_by_content.specs.Values.{Value as Content, Text, Undefined, Number, String};
ghost use Rattle.wjs_meaning.specs.Deeds.{Env, give};
ghost use Rattle.wjs_meaning.specs.Kinds.{convert, kinds_of, with_kinds};
ghost use Rattle.wjs_meaning.specs.Natives.{convert_from, native_line, native_of, native_run};
ghost use Rattle.wjs_frames.specs.Shortening.{Shortens};

use crate::kinds::argument_kind;
use wjs_arena::Native;
use wjs_base::{Value, Whole};
use wjs_meaning::{Kind, Kinds, row_of};

/// Whether the receiver and the arguments of a native function stay as they are: each is of the kind that it would be converted to, none is
/// missing and none is too many.
pub fn stay(native: Native, this: Value, args: &[Value]) -> bool
    ensures { result ≡ true → (t : Table) (by_new : Bool) (env : Env) → env.this ≡ value_in t this →
        Shortens (native_of native by_new (map (value_in t) args.now) env) (native_line native by_new (value_in t this) (map (value_in t) args.now) env) }
{
    let row = row_of(native);
    if !stays(row.this, this) {
        return false;
    }
    all_stay(row.arguments, args)
}

/// Whether arguments stay as they are, one for each kind.
fn all_stay(kinds: Kinds, args: &[Value]) -> bool
    ensures { result ≡ true → (t : Table) (native : Native) (by_new : Bool) (done : List Content) (env : Env) →
        Shortens (convert_from native by_new (with_kinds (kinds_of kinds (length args.now)) (map (value_in t) args.now)) done env)
        (native_run native by_new (done ++ map (value_in t) args.now) env) }
{
    let given = args.len();
    for (at, value) in args.iter().enumerate() {
        let Some(kind) = argument_kind(kinds, given, at) else {
            return false;
        };
        if !stays(kind, *value) {
            return false;
        }
    }
    argument_kind(kinds, given, given).is_none()
}

/// Whether a conversion gives a value as it is.
fn stays(kind: Kind, value: Value) -> bool
    ensures { result ≡ true → (t : Table) (env : Env) → Shortens (convert kind (value_in t value) env) (give (value_in t value)) }
{
    match value {
        Value::Undefined => undefined_stays(kind),
        Value::Number(number) => number_stays(kind, number),
        Value::Text(_) => text_stays(kind),
        _ => is_as_is(kind),
    }
}

/// Whether a conversion gives undefined as it is.
fn undefined_stays(kind: Kind) -> bool
    ensures { result ≡ true → (env : Env) → Shortens (convert kind Undefined env) (give Undefined) }
{
    match kind {
        Kind::AsIs | Kind::TextIfGiven | Kind::NumberIfGiven | Kind::IntegerIfGiven => true,
        Kind::ToText | Kind::ToNumber | Kind::ToInteger => false,
    }
}

/// Whether a conversion gives a number as it is. ToInteger gives 0 for NaN.
fn number_stays(kind: Kind, number: Whole) -> bool
    ensures { result ≡ true → (env : Env) → Shortens (convert kind (Number number.number) env) (give (Number number.number)) }
{
    match kind {
        Kind::AsIs | Kind::ToNumber | Kind::NumberIfGiven => true,
        Kind::ToInteger | Kind::IntegerIfGiven => number.get().is_some(),
        Kind::ToText | Kind::TextIfGiven => false,
    }
}

/// Whether a conversion gives a text as it is.
fn text_stays(kind: Kind) -> bool
    ensures { result ≡ true → (s : Text) (env : Env) → Shortens (convert kind (String s) env) (give (String s)) }
{
    match kind {
        Kind::AsIs | Kind::ToText | Kind::TextIfGiven => true,
        Kind::ToNumber | Kind::ToInteger | Kind::NumberIfGiven | Kind::IntegerIfGiven => false,
    }
}

/// Whether every value is given as it is.
fn is_as_is(kind: Kind) -> bool
    ensures { result ≡ true → kind ≡ Kind.AsIs }
{
    matches!(kind, Kind::AsIs)
}
