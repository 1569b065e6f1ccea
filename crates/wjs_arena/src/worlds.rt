//! The objects that stand for worlds.
ghost use Rattle.std.specs.Prelude.{◌≡◌, ◌==◌, cond, OnOk, OnErr, None, Some};
ghost use Rattle.std.specs.FinMap as map;
ghost use Rattle.std.specs.BTreeMap.{get, is_at};
ghost use Rattle.wjs_base.specs.Order.{world_cmp};
ghost use Rattle.wjs_base.specs.declared.ids.WorldId.{WorldId};
ghost use Rattle.wjs_arena.specs.Kept.{PutsOne};

use std::alloc::Global;
use std::collections::BTreeMap;
use std::marker::Model;
use wjs_base::{ObjId, OutOfMemory, WorldId};

/// The object of each world that has one, for each owner those of its worlds. Contracts see the finite map of all of them.
#[derive(Drop)]
pub struct Worlds {
    alloc: Global,
    owners: BTreeMap<u32, BTreeMap<WorldId, ObjId>>,
}

impl Model for Worlds {
    ghost use Rattle.std.specs.FinMap as map;
    ghost use Rattle.wjs_base.specs.Order.{world_cmp};
    ghost use Rattle.wjs_base.specs.declared.ids.ObjId.{ObjId};
    ghost use Rattle.wjs_base.specs.Codes.{coded_object, coded_world};
    ghost use Rattle.wjs_arena.specs.Kept.{worlds_in};

    ghost Value = { map.FinMap world_cmp ObjId };

    ghost coded = { map.code coded_world coded_object };

    ghost view = { λ m. worlds_in (λ tree. tree.entries) m.owners.entries };
}

impl Worlds {
    pub fn new(alloc: Global) -> Worlds
        ensures { result ≡ map.empty }
    {
        Worlds {
            alloc,
            owners: BTreeMap::new(alloc),
        }
    }

    pub fn get(&self, world: WorldId) -> Option<ObjId>
        ensures { result ≡ map.get self.now world }
    {
        match self.owners.get(&world.owner) {
            Some(tree) => tree.get(&world).copied(),
            None => None,
        }
    }

    pub fn insert(&mut self, world: WorldId, object: ObjId) -> Result<(), OutOfMemory>
        ensures ok { OnOk result (self.new ≡ map.insert self.old world object) }
        ensures err { OnErr result (self.new ≡ self.old) }
    {
        match self.owners.get_mut(&world.owner) {
            Some(tree) => put_in(tree, world, object),
            None => put_first(self.alloc, &mut self.owners, world, object),
        }
    }

    pub fn remove(&mut self, world: WorldId)
        ensures { self.new ≡ map.remove self.old world }
    {
        let Some(tree) = self.owners.get_mut(&world.owner) else {
            return;
        };
        take_from(tree, world);
    }

    /// Takes out the objects of an owner's worlds.
    pub fn take(&mut self, owner: u32) -> BTreeMap<WorldId, ObjId>
        ensures taken { (w : WorldId) → w.owner ≡ owner → get world_cmp result w ≡ map.get self.old w }
        ensures left { (w : WorldId) → map.get self.new w ≡ cond (w.owner == owner) None (map.get self.old w) }
    {
        if let Some(tree) = self.owners.remove(&owner) {
            return tree;
        }
        BTreeMap::new(self.alloc)
    }

    /// Puts the objects of an owner's worlds in place of those that there are; after a refusal nothing has changed.
    pub fn put(&mut self, owner: u32, tree: BTreeMap<WorldId, ObjId>) -> Result<(), OutOfMemory>
        ensures ok { OnOk result ((w : WorldId) → map.get self.new w ≡ cond (w.owner == owner) (get world_cmp tree w) (map.get self.old w)) }
        ensures err { OnErr result (self.new ≡ self.old) }
    {
        self.owners.insert(owner, tree)?;
        Ok(())
    }
}

/// Puts the object of a world among those of its owner's.
fn put_in(
    tree: &mut BTreeMap<WorldId, ObjId>,
    world: WorldId,
    object: ObjId,
) -> Result<(), OutOfMemory>
    ensures ok { OnOk result ((q : WorldId) → get world_cmp tree.new q ≡ cond (is_at (world_cmp world) q) (Some object) (get world_cmp tree.old q)) }
    ensures err { OnErr result (tree.new.entries ≡ tree.old.entries) }
{
    tree.insert(world, object)?;
    Ok(())
}

/// Takes the object of a world out of those of its owner's.
fn take_from(tree: &mut BTreeMap<WorldId, ObjId>, world: WorldId)
    ensures { (q : WorldId) → get world_cmp tree.new q ≡ cond (is_at (world_cmp world) q) None (get world_cmp tree.old q) }
{
    let _ = tree.remove(&world);
}

/// Puts the object of the first world of an owner.
fn put_first(
    alloc: Global,
    owners: &mut BTreeMap<u32, BTreeMap<WorldId, ObjId>>,
    world: WorldId,
    object: ObjId,
) -> Result<(), OutOfMemory>
    ensures ok { OnOk result (PutsOne owners.old owners.new world object) }
    ensures err { OnErr result (owners.new.entries ≡ owners.old.entries) }
{
    let mut tree = BTreeMap::new(alloc);
    tree.insert(world, object)?;
    owners.insert(world.owner, tree)?;
    Ok(())
}
