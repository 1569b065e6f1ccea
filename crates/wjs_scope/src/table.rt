//! The places of the names of a script.

use crate::place::Place;
use std::marker::Model;
use wjs_tree::NodeId;

/// The places of the names of one script: for each node those of its names, in order.
#[derive(Drop)]
pub struct Places {
    pub(crate) starts: Vec<usize>,
    pub(crate) list: Vec<Place>,
}

impl Model for Places {
    ghost use Rattle.std.specs.Prelude.{ℕ, List};
    ghost use Rattle.wjs_scope.specs.declared.place.Place.{Place};

    ghost Value = { List ℕ × List Place };

    ghost view = { λ p. (p.starts.items, p.list.items) };
}

impl Places {
    ghost use Rattle.std.specs.Prelude.{◌≡◌, Some, IsSome};
    ghost use Rattle.wjs_scope.specs.Places.{place_at};

    /// The place of one of the names of a node, counted from 0; None exactly where no place is kept for one.
    #[inline(always)]
    pub fn get(&self, node: NodeId, at: usize) -> Option<Place>
        ensures { result ≡ place_at self.now node at }
    {
        let start = self.starts.get(node.0 as usize)?;
        let list = self.list.get(*start..)?;
        list.get(at).copied()
    }

    /// The place of the name of a node that is a Name. It takes two steps.
    pub fn place(&self, node: NodeId) -> Place
        requires { IsSome (place_at self.now node 0) }
        ensures { place_at self.now node 0 ≡ Some result }
    {
        self.var_place(node, 0)
    }

    /// The place of one of the names that a node declares by `var`, counted from 0. It takes two steps.
    pub fn var_place(&self, node: NodeId, at: usize) -> Place
        requires { IsSome (place_at self.now node at) }
        ensures { place_at self.now node at ≡ Some result }
    {
        self.list[self.starts[node.0 as usize] + at]
    }
}
