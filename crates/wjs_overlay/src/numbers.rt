//! Worlds by their numbers.
ghost use Rattle.std.specs.Prelude.{◌≡◌, OnOk, unwrap_or};
ghost use Rattle.std.specs.FinMap as map;
ghost use Rattle.wjs_base.specs.Order.{world_cmp};

use std::alloc::Global;
use std::collections::BTreeMap;
use std::marker::Model;
use wjs_base::{OutOfMemory, WorldId};

/// The place of each world.
#[derive(Drop)]
pub struct Places {
    tree: BTreeMap<WorldId, usize>,
}

impl Model for Places {
    ghost use Rattle.std.specs.Prelude.{ℕ};
    ghost use Rattle.std.specs.Coded.{coded_ℕ};
    ghost use Rattle.std.specs.FinMap as map;
    ghost use Rattle.wjs_base.specs.Order.{world_cmp};
    ghost use Rattle.wjs_base.specs.Codes.{coded_world};

    ghost Value = { map.FinMap world_cmp ℕ };

    ghost coded = { map.code coded_world coded_ℕ };

    ghost view = { λ m. map.from_entries m.tree.entries };
}

impl Places {
    pub fn new(alloc: Global) -> Places
        ensures { result ≡ map.empty }
    {
        Places {
            tree: BTreeMap::new(alloc),
        }
    }

    pub fn get(&self, world: WorldId) -> Option<usize>
        ensures { result ≡ map.get self.now world }
    {
        self.tree.get(&world).copied()
    }

    pub fn insert(&mut self, world: WorldId, place: usize) -> Result<(), OutOfMemory>
        ensures ok { OnOk result (self.new ≡ map.insert self.old world place) }
    {
        self.tree.insert(world, place)?;
        Ok(())
    }
}

/// How many worlds each owner has.
#[derive(Drop)]
pub struct Owners {
    tree: BTreeMap<u32, u64>,
}

impl Model for Owners {
    ghost use Rattle.std.specs.Prelude.{ℕ};
    ghost use Rattle.std.specs.Coded.{coded_ℕ};
    ghost use Rattle.std.specs.Ordering.{nat_cmp};
    ghost use Rattle.std.specs.FinMap as map;

    ghost Value = { map.FinMap nat_cmp ℕ };

    ghost coded = { map.code coded_ℕ coded_ℕ };

    ghost view = { λ m. map.from_entries m.tree.entries };
}

impl Owners {
    pub fn new(alloc: Global) -> Owners
        ensures { result ≡ map.empty }
    {
        Owners {
            tree: BTreeMap::new(alloc),
        }
    }

    pub fn count(&self, owner: u32) -> u64
        ensures { result ≡ unwrap_or (map.get self.now owner) 0 }
    {
        self.tree.get(&owner).copied().unwrap_or(0)
    }

    pub fn insert(&mut self, owner: u32, count: u64) -> Result<(), OutOfMemory>
        ensures ok { OnOk result (self.new ≡ map.insert self.old owner count) }
    {
        self.tree.insert(owner, count)?;
        Ok(())
    }
}
