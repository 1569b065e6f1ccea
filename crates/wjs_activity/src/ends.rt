//! How the activities of a play end.
ghost use Rattle.std.specs.Prelude.{◌≡◌, ◌<◌, ◌++◌, ◌∷◌, [], Some, length, slice_get, OnOk};

use std::alloc::Global;
use std::marker::Model;
use wjs_base::OutOfMemory;
use wjs_tries::Outcome;

/// A turn of an activity, of so many steps at most and of one at least. Activities are numbered from 1.
#[derive(Clone, Copy, Debug, PartialEq, Eq)]
pub struct PlayTurn {
    pub activity: u32,
    pub steps: u64,
}

/// The end of an activity: the owner, from 1 on, of the objects and worlds that its last try made, and how many tries it took, from
/// 1 to 4. Activities are numbered from 1.
#[derive(Drop)]
pub struct Ended {
    pub activity: u32,
    pub owner: u32,
    pub outcome: Outcome,
    pub tries: u32,
}

/// The ends of a play's activities, in their order. Contracts see the list.
#[derive(Drop)]
pub struct Ends {
    list: Vec<Ended>,
}

impl Model for Ends {
    ghost use Rattle.std.specs.Prelude.{List};
    ghost use Rattle.wjs_activity.specs.declared.ends.Ended.{Ended};
    ghost use Rattle.std.specs.Coded.{codes};
    ghost use Rattle.wjs_activity.specs.contracts.ends.Ended as ended_contract;

    ghost Value = { List Ended };

    ghost coded = { Prim.hlevel (codes, ended_contract.the_row.coded) };

    ghost view = { λ ends. ends.list.items };
}

impl Ends {
    /// None yet.
    pub(crate) fn new(alloc: Global) -> Ends
        ensures { result ≡ [] }
    {
        Ends {
            list: Vec::new(alloc),
        }
    }

    /// Puts an end last.
    pub(crate) fn push(&mut self, end: Ended) -> Result<(), OutOfMemory>
        ensures { OnOk result (self.new ≡ self.old ++ end ∷ []) }
    {
        self.list.push(end)?;
        Ok(())
    }

    /// How many there are.
    pub fn len(&self) -> usize
        ensures { result ≡ length self.now }
    {
        self.list.len()
    }

    /// The end at a place, counted from 0.
    pub fn at(&self, place: usize) -> &Ended
        requires { place < length self.now }
        ensures { slice_get self.now place ≡ Some result.now }
    {
        &self.list[place]
    }

    /// The ends.
    pub(crate) fn as_slice(&self) -> &[Ended]
        ensures { result.now ≡ self.now }
    {
        self.list.as_slice()
    }
}
