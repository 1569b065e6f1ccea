//! The walk along the prototypes.
ghost use Rattle.std.specs.Prelude.{◌≡◌, IsTrue};
ghost use Rattle.wjs_arena.specs.Entries.{has, IsThere};
ghost use Rattle.wjs_arena.specs.There.{there_prop};

use crate::arena::Arena;
use wjs_base::{Name, ObjId};

/// An object and its prototypes in order. It ends, since each was made after the next.
#[derive(Drop)]
pub struct Chain<'a> {
    arena: &'a Arena,
    next: Option<ObjId>,
    ghost there: { IsThere arena.now next } by { there_prop arena.now next },
}

impl<'a> Iterator for Chain<'a> {
    ghost use Rattle.std.specs.Iterator.{YieldsFirst, item_count};
    ghost use Rattle.wjs_arena.specs.Rest.{rest};

    type Item = ObjId;

    ghost next_gives = { YieldsFirst rest };

    ghost remaining = { item_count rest };

    fn next(&mut self) -> Option<ObjId> {
        let id = self.next?;
        self.next = self.arena.prototype(id);
        Some(id)
    }
}

impl Arena {
    ghost use Rattle.wjs_arena.specs.Chains.{chain, is_puttable};
    ghost use Rattle.wjs_arena.specs.Rest.{rest};

    /// The object and its prototypes in order. It ends, since each was made after the next.
    pub fn chain(&self, id: ObjId) -> Chain<'_>
        requires { IsTrue (has self.now id) }
        ensures { rest result ≡ chain self.now id }
    {
        Chain {
            arena: self,
            next: Some(id),
        }
    }

    /// Whether no object of the chain has the name as a fixed property (ECMA-262, 3rd edition, section 8.6.2.3).
    pub fn is_puttable(&self, id: ObjId, name: Name) -> bool
        requires { IsTrue (has self.now id) }
        ensures { result ≡ is_puttable self.now id name }
    {
        let mut at = Some(id);
        'up: while let Some(next) = at {
            if self.fixed(next, name).is_some() {
                return false;
            }
            at = self.prototype(next);
        }
        true
    }
}
