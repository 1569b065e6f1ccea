//! What a `for`-`in` visits (ECMA-262, 3rd edition, section 12.6.4).
ghost use Rattle.std.specs.Prelude.{◌≡◌, ◌==◌, ◌++◌, ◌∷◌, [], length, OnOk, OnErr, IfSome, IfNone};

use std::alloc::Global;
use std::marker::Model;
use wjs_base::{Name, ObjId, OutOfMemory};

/// A name that a `for`-`in` visits, and the object that has it.
#[derive(Clone, Copy)]
pub struct Visit {
    pub object: ObjId,
    pub name: Name,
}

/// Visits in their order. Contracts see the list.
#[derive(Drop)]
pub struct Visits {
    items: Vec<Visit>,
}

impl Model for Visits {
    ghost use Rattle.std.specs.Prelude.{List};
    ghost use Rattle.wjs_props.specs.declared.visits.Visit.{Visit};

    ghost Value = { List Visit };

    ghost view = { λ v. v.items.items };
}

impl Visits {
    /// No visits.
    pub fn new(alloc: Global) -> Visits
        ensures { result ≡ [] }
    {
        Visits {
            items: Vec::new(alloc),
        }
    }

    /// The visits of the vector, with no memory taken.
    pub fn from_vec(items: Vec<Visit>) -> Visits
        ensures { result ≡ items.items }
    {
        Visits { items }
    }

    /// Puts a visit last; after a refusal the list is as it was.
    pub fn push(&mut self, visit: Visit) -> Result<(), OutOfMemory>
        ensures ok { OnOk result (self.new ≡ self.old ++ visit ∷ []) }
        ensures err { OnErr result (self.new ≡ self.old) }
    {
        self.items.push(visit)?;
        Ok(())
    }

    /// Takes the last visit off; None exactly where there is none.
    pub fn pop(&mut self) -> Option<Visit>
        ensures last { IfSome result (λ visit. self.old ≡ self.new ++ visit ∷ []) }
        ensures none { IfNone result (self.old ≡ []) }
        ensures empty { IfNone result (self.new ≡ []) }
    {
        self.items.pop()
    }

    /// How many visits there are.
    pub fn len(&self) -> usize
        ensures { result ≡ length self.now }
    {
        self.items.len()
    }

    /// Whether there is none.
    pub fn is_empty(&self) -> bool
        ensures { result ≡ (length self.now == 0) }
    {
        self.items.is_empty()
    }

    /// The visits.
    pub fn as_slice(&self) -> &[Visit]
        ensures { result.now ≡ self.now }
    {
        self.items.as_slice()
    }

    /// The visits as a vector, with no memory taken.
    pub fn into_vec(self) -> Vec<Visit>
        ensures { result.items ≡ self }
    {
        self.items
    }
}
