//! Values, names and slots.
ghost use Rattle.std.specs.Prelude.{◌≡◌};
ghost use Rattle.wjs_base.specs.Same.{same_value};

use crate::ids::{ObjId, TextId};
use crate::number::Whole;
use std::cmp::Ordering;

/// The name of a property: an array index, or any other text (ECMA-262, 3rd edition, section 15.4).
#[derive(Clone, Copy, PartialEq, Eq)]
pub enum Name {
    /// From 0 to 4,294,967,294.
    Index(u32),
    /// A text that spells no index.
    Text(TextId),
}

impl Name {
    ghost use Rattle.wjs_base.specs.Order.{kind_of, number_of};

    /// An index before a text.
    fn kind(&self) -> u8
        ensures { result ≡ kind_of self.now }
    {
        match self {
            Name::Index(_) => 0,
            Name::Text(_) => 1,
        }
    }

    /// The index, or the text's number.
    fn number(&self) -> u64
        ensures { result ≡ number_of self.now }
    {
        match self {
            Name::Index(index) => *index as u64,
            Name::Text(text) => text.0,
        }
    }
}

/// Indices ascending, then texts by their numbers.
impl Ord for Name {
    ghost use Rattle.std.proofs.Common.{rules};
    ghost use Rattle.std.specs.Cmp.Rules.{comparing};
    ghost use Rattle.std.specs.Prelude.{refl};
    ghost use Rattle.wjs_base.specs.Order.{name_cmp, names_tied};

    ghost cmp = { name_cmp };

    ghost total = { Prim.search (comparing, rules) };

    ghost matches_partial_cmp = { Prim.search (comparing, rules) };

    ghost matches_eq = { names_tied ⟦<Name as PartialEq>⟧.eq (λ _ _. refl) (λ _ _. refl) (λ _ _. refl) (λ _ _. refl) };

    fn cmp(&self, other: &Name) -> Ordering {
        self.kind()
            .cmp(&other.kind())
            .then(self.number().cmp(&other.number()))
    }
}

impl PartialOrd for Name {
    ghost use Rattle.std.proofs.Common.{rules};
    ghost use Rattle.std.specs.Cmp.{partial_order_from_own_ties};
    ghost use Rattle.std.specs.Cmp.Rules.{comparing};
    ghost use Rattle.std.specs.Ordering.{as_partial_cmp};
    ghost use Rattle.std.specs.Prelude.{refl};
    ghost use Rattle.wjs_base.specs.Order.{name_cmp, names_tied};

    ghost partial_cmp = { as_partial_cmp name_cmp };

    ghost laws = { partial_order_from_own_ties (Prim.search (comparing, rules))
        (names_tied ⟦<Name as PartialEq>⟧.eq (λ _ _. refl) (λ _ _. refl) (λ _ _. refl) (λ _ _. refl)) };

    fn partial_cmp(&self, other: &Name) -> Option<Ordering> {
        Some(self.cmp(other))
    }
}

/// A value of the language (ECMA-262, 3rd edition, section 8).
#[derive(Clone, Copy)]
pub enum Value {
    Undefined,
    Null,
    Bool(bool),
    Number(Whole),
    Text(TextId),
    Object(ObjId),
}

/// What a slot holds in a world.
#[derive(Clone, Copy)]
pub enum Content {
    Absent,
    Present(Value),
}

/// An object with a name. Slots are ordered by owner, serial, then name.
#[derive(Clone, Copy, PartialEq, Eq, PartialOrd, Ord)]
pub struct Slot {
    pub object: ObjId,
    pub name: Name,
}

/// Whether two values are one: NaN is the same as NaN, texts by content, objects by identity.
pub fn same_value(a: Value, b: Value) -> bool
    ensures { result ≡ same_value a b }
{
    match (a, b) {
        (Value::Undefined, Value::Undefined) => true,
        (Value::Null, Value::Null) => true,
        (Value::Bool(a), Value::Bool(b)) => a == b,
        (Value::Number(a), Value::Number(b)) => a == b,
        (Value::Text(a), Value::Text(b)) => a.0 == b.0,
        (Value::Object(a), Value::Object(b)) => a.owner == b.owner && a.serial == b.serial,
        _ => false,
    }
}
