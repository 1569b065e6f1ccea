//! The arena: objects, fixed once made.
ghost use Rattle.std.specs.Prelude.{◌≡◌, ◌↔◌, ◌<◌, ◌+◌, ◌==◌, cond, max, slice_get, OnOk, OnErr, IfOk, IfSome, IfNone, IsTrue, Some, None};
ghost use Rattle.std.specs.BTreeMap.{get};
ghost use Rattle.std.specs.FinMap as map;
ghost use Rattle.wjs_base.specs.Order.{world_cmp};
ghost use Rattle.wjs_base.specs.declared.ids.ObjId.{ObjId};
ghost use Rattle.wjs_base.specs.declared.ids.WorldId.{WorldId};
ghost use Rattle.wjs_arena.specs.Entries.{has, IsThere, IsArena, WorldsAreOwn, NoOwnerInCommon, Keeps, created, entry_over, next_number, objects_of};
ghost use Rattle.wjs_arena.specs.Entries.{others_of, joined, world_of, depth_of};
ghost use Rattle.wjs_arena.specs.Chains.{fixed, flags, flags_in};
ghost use Rattle.wjs_arena.specs.Kept.{with_world, without_world};

use crate::class::Class;
use crate::object::{Code, Flags, Object};
use crate::packed::Packed;
use crate::rows::Rows;
use crate::under::find;
use crate::worlds::Worlds;
use std::alloc::Global;
use std::collections::BTreeMap;
use std::marker::Model;
use wjs_base::{Name, ObjId, OutOfMemory, Value, WorldId};

/// All objects, seen as a finite map from their numbers. An object is fixed once it is made, after its prototype and its
/// scope; an owner's objects have the serials from 0 on; and at most one object stands for a world.
#[derive(Drop)]
pub struct Arena {
    rows: Rows,
    worlds: Worlds,
}

impl Model for Arena {
    ghost use Rattle.std.specs.FinMap as map;
    ghost use Rattle.wjs_arena.specs.Entries.{Objects};
    ghost use Rattle.wjs_base.specs.Codes.{coded_object};
    ghost use Rattle.wjs_arena.specs.Codes.{coded_entry};
    ghost use Rattle.wjs_arena.specs.Kept.{IsKept};

    ghost Value = { Objects };

    ghost coded = { map.code coded_object coded_entry };

    ghost view = { λ a. a.rows };

    ghost invariant = { λ a. IsKept a.rows a.worlds };
}

/// An owner's objects, taken out of an arena. Contracts see them by their numbers.
#[derive(Drop)]
pub struct Owned {
    owner: u32,
    rows: Vec<Packed>,
    worlds: BTreeMap<WorldId, ObjId>,
}

impl Model for Owned {
    ghost use Rattle.std.specs.FinMap as map;
    ghost use Rattle.wjs_arena.specs.Entries.{Objects};
    ghost use Rattle.wjs_base.specs.Codes.{coded_object};
    ghost use Rattle.wjs_arena.specs.Codes.{coded_entry};
    ghost use Rattle.wjs_arena.specs.Kept.{owned_objects, IsOwned};

    ghost Value = { Objects };

    ghost coded = { map.code coded_object coded_entry };

    ghost view = { λ o. owned_objects o.owner o.rows.items };

    ghost invariant = { λ o. IsOwned o.owner (owned_objects o.owner o.rows.items) o.worlds };
}

impl Arena {
    /// No objects.
    pub fn new(alloc: Global) -> Arena
        ensures empty { result ≡ map.empty }
        ensures arena { IsArena result }
    {
        Arena {
            rows: Rows::new(alloc),
            worlds: Worlds::new(alloc),
        }
    }

    /// Where its memory comes from.
    pub fn allocator(&self) -> Global {
        self.rows.allocator()
    }

    /// Makes an object of an owner, whose prototype and scope are there and whose world no object stands for, and gives its
    /// number: the owner's next. After a refusal nothing has changed.
    pub fn create(&mut self, owner: u32, object: Object) -> Result<ObjId, OutOfMemory>
        requires prototype { IsThere self.old object.prototype }
        requires scope { IsThere self.old object.scope }
        requires world { IfSome object.world (λ world. (o : ObjId) → ¬ (world_of self.old o ≡ Some world)) }
        ensures number { IfOk result (λ id. id ≡ next_number self.old owner) }
        ensures created { OnOk result (self.new ≡ created self.old owner object) }
        ensures err { OnErr result (self.new ≡ self.old) }
        ensures arena { IsArena self.new }

        // What follows for who makes objects.
        ensures there { IfOk result (λ id. map.get self.new id ≡ Some (entry_over self.old object)) }
        ensures keeps { Keeps self.old self.new }
    {
        let id = self.next_number(owner);
        let world = object.world;
        let Some(depth) = self.depth_over(&object) else {
            return Err(OutOfMemory);
        };
        put(&mut self.rows, &mut self.worlds, id, world, object, depth)?;
        Ok(id)
    }

    /// Whether there is an object of this number.
    pub fn has(&self, id: ObjId) -> bool
        ensures has { result ≡ has self.now id }
        ensures arena { IsArena self.now }
    {
        self.rows.has(id)
    }

    /// The class of an object.
    #[inline(always)]
    pub fn class(&self, id: ObjId) -> Class
        requires { IsTrue (has self.now id) }
        ensures class { IfSome (map.get self.now id) (λ entry. result ≡ entry.object.class) }
        ensures arena { IsArena self.now }
    {
        self.rows.at(id).class()
    }

    /// The prototype of an object.
    #[inline(always)]
    pub fn prototype(&self, id: ObjId) -> Option<ObjId>
        requires { IsTrue (has self.now id) }
        ensures prototype { IfSome (map.get self.now id) (λ entry. result ≡ entry.object.prototype) }
        ensures arena { IsArena self.now }
    {
        self.rows.at(id).prototype()
    }

    /// A function's scope, or the next scope outwards.
    #[inline(always)]
    pub fn scope(&self, id: ObjId) -> Option<ObjId>
        requires { IsTrue (has self.now id) }
        ensures scope { IfSome (map.get self.now id) (λ entry. result ≡ entry.object.scope) }
        ensures arena { IsArena self.now }
    {
        self.rows.at(id).scope()
    }

    /// The code of an object.
    #[inline(always)]
    pub fn code(&self, id: ObjId) -> Code
        requires { IsTrue (has self.now id) }
        ensures code { IfSome (map.get self.now id) (λ entry. result ≡ entry.object.code) }
        ensures arena { IsArena self.now }
    {
        self.rows.at(id).code()
    }

    /// What a wrapper holds; otherwise undefined.
    pub fn primitive(&self, id: ObjId) -> Value
        requires { IsTrue (has self.now id) }
        ensures primitive { IfSome (map.get self.now id) (λ entry. result ≡ entry.object.primitive) }
        ensures arena { IsArena self.now }
    {
        self.rows.at(id).primitive()
    }

    /// The world that an object stands for.
    pub fn world(&self, id: ObjId) -> Option<WorldId>
        requires { IsTrue (has self.now id) }
        ensures world { IfSome (map.get self.now id) (λ entry. result ≡ entry.object.world) }
        ensures arena { IsArena self.now }
    {
        self.rows.at(id).world()
    }

    /// The properties of an object that no world changes. The first of a name counts.
    pub fn fixed_of(&self, id: ObjId) -> &[(Name, Value)]
        requires { IsTrue (has self.now id) }
        ensures fixed { IfSome (map.get self.now id) (λ entry. result.now ≡ entry.object.fixed) }
        ensures arena { IsArena self.now }
    {
        self.rows.at(id).fixed()
    }

    /// The value of a fixed property, which no world changes; None exactly where the object has none of this name.
    #[inline(always)]
    pub fn fixed(&self, id: ObjId, name: Name) -> Option<Value>
        requires { IsTrue (has self.now id) }
        ensures fixed { result ≡ fixed self.now id name }
        ensures arena { IsArena self.now }
    {
        find(self.rows.at(id).fixed(), name)
    }

    /// The attributes of a name: a fixed property is hidden and kept, and others are as the object lists them.
    pub fn flags(&self, id: ObjId, name: Name) -> Flags
        requires { IsTrue (has self.now id) }
        ensures { result ≡ flags self.now id name }
    {
        flags_in(self.rows.at(id), name)
    }

    /// The object that stands for a world; None exactly where none does.
    pub fn world_object(&self, world: WorldId) -> Option<ObjId>
        ensures found { IfSome result (λ id. world_of self.now id ≡ Some world) }
        ensures none { IfNone result ((id : ObjId) → ¬ (world_of self.now id ≡ Some world)) }
        ensures arena { IsArena self.now }
    {
        let _rows = &self.rows;
        self.worlds.get(world)
    }

    /// The number that the owner's next object gets.
    pub fn next_number(&self, owner: u32) -> ObjId
        ensures number { result ≡ next_number self.now owner }
        ensures arena { IsArena self.now }
    {
        ObjId {
            owner,
            serial: self.rows.len(owner),
        }
    }

    /// Takes out an owner's objects. None of them is the prototype or the scope of another's, and each world that an object stands
    /// for is its owner's.
    pub fn take(&mut self, owner: u32) -> Owned
        requires others { IsArena (others_of self.old owner) }
        requires worlds { WorldsAreOwn self.old }
        ensures taken { result ≡ objects_of self.old owner }
        ensures left { self.new ≡ others_of self.old owner }
    {
        let rows = self.rows.take(owner);
        let worlds = self.worlds.take(owner);
        Owned {
            owner,
            rows,
            worlds,
        }
    }

    /// Puts an owner's objects back, of whom there are none, where with them it is an arena; after a refusal nothing has changed.
    pub fn put(&mut self, owned: Owned) -> Result<(), OutOfMemory>
        requires apart { NoOwnerInCommon self.old owned }
        requires arena { IsArena (joined self.old owned) }
        requires worlds { WorldsAreOwn self.old }
        ensures ok { OnOk result (self.new ≡ joined self.old owned) }
        ensures err { OnErr result (self.new ≡ self.old) }
    {
        let Owned {
            owner,
            rows,
            worlds,
        } = owned;
        if rows.as_slice().is_empty() {
            return Ok(());
        }
        put_owned(&mut self.rows, &mut self.worlds, owner, rows, worlds)
    }

    fn depth_of(&self, id: Option<ObjId>) -> u64
        requires { IsThere self.now id }
        ensures { result ≡ depth_of self.now id }
    {
        match id {
            None => 0,
            Some(id) => self.rows.at(id).depth(),
        }
    }

    /// One more than the depths of the prototype and the scope. No list in memory is so long that there is none.
    fn depth_over(&self, object: &Object) -> Option<u64>
        requires prototype { IsThere self.now object.now.prototype }
        requires scope { IsThere self.now object.now.scope }
        ensures { IfSome result (λ depth. depth ≡ max (depth_of self.now object.now.prototype) (depth_of self.now object.now.scope) + 1) }
    {
        let prototype = self.depth_of(object.prototype);
        let scope = self.depth_of(object.scope);
        prototype.max(scope).checked_add(1)
    }
}

/// The attributes of a name of an object.
fn flags_in(entry: &Packed, name: Name) -> Flags
    ensures { result ≡ flags_in entry.now.object name }
{
    if find(entry.fixed(), name).is_some() {
        return Flags {
            hidden: true,
            kept: true,
        };
    }
    let listed = entry.flag(name).unwrap_or(Flags {
        hidden: false,
        kept: false,
    });
    Flags {
        hidden: listed.hidden,
        kept: entry.all_kept() || listed.kept,
    }
}

/// Puts an object at its owner's next number, and under its world; after a refusal nothing has changed.
#[inline(always)]
fn put(
    rows: &mut Rows,
    worlds: &mut Worlds,
    id: ObjId,
    world: Option<WorldId>,
    object: Object,
    depth: u64,
) -> Result<(), OutOfMemory>
    requires next { id ≡ next_number rows.old id.owner }
    requires world { IfSome world (λ w. map.get worlds.old w ≡ None) }
    ensures rows { OnOk result (rows.new ≡ map.insert rows.old id (record { object = object; depth = depth })) }
    ensures worlds { OnOk result (worlds.new ≡ with_world worlds.old world id) }
    ensures serials { OnOk result ((id : ObjId) → IsTrue (has rows.new id) ↔ (id.serial < (next_number rows.new id.owner).serial)) }
    ensures rows_err { OnErr result (rows.new ≡ rows.old) }
    ensures worlds_err { OnErr result (worlds.new ≡ worlds.old) }
{
    note(worlds, world, id)?;
    match push(rows, id.owner, object, depth) {
        Ok(()) => Ok(()),
        Err(_) => {
            forget(worlds, world);
            Err(OutOfMemory)
        }
    }
}

/// Puts an owner's objects, of whom there are none, and those of its worlds; after a refusal nothing has changed.
fn put_owned(
    rows: &mut Rows,
    worlds: &mut Worlds,
    owner: u32,
    list: Vec<Packed>,
    tree: BTreeMap<WorldId, ObjId>,
) -> Result<(), OutOfMemory>
    requires { (w : WorldId) → w.owner ≡ owner → map.get worlds.old w ≡ None }
    ensures rows { OnOk result ((id : ObjId) → map.get rows.new id ≡ cond (id.owner == owner) (slice_get list.items id.serial) (map.get rows.old id)) }
    ensures worlds { OnOk result ((w : WorldId) → map.get worlds.new w ≡ cond (w.owner == owner) (get world_cmp tree w) (map.get worlds.old w)) }
    ensures rows_err { OnErr result (rows.new ≡ rows.old) }
    ensures worlds_err { OnErr result (worlds.new ≡ worlds.old) }
{
    worlds.put(owner, tree)?;
    match rows.put(owner, list) {
        Ok(()) => Ok(()),
        Err(_) => {
            let _ = worlds.take(owner);
            Err(OutOfMemory)
        }
    }
}

/// Puts an owner's next object; after a refusal nothing has changed.
#[inline(always)]
fn push(rows: &mut Rows, owner: u32, object: Object, depth: u64) -> Result<(), OutOfMemory>
    ensures ok { OnOk result (rows.new ≡ map.insert rows.old (next_number rows.old owner) (record { object = object; depth = depth })) }
    ensures err { OnErr result (rows.new ≡ rows.old) }
    ensures serials { OnOk result ((id : ObjId) → IsTrue (has rows.new id) ↔ (id.serial < (next_number rows.new id.owner).serial)) }
{
    match Packed::new(rows.allocator(), object, depth) {
        Ok(entry) => rows.push(owner, entry),
        Err(_) => Err(OutOfMemory),
    }
}

#[inline(always)]
fn note(worlds: &mut Worlds, world: Option<WorldId>, id: ObjId) -> Result<(), OutOfMemory>
    ensures ok { OnOk result (worlds.new ≡ with_world worlds.old world id) }
    ensures err { OnErr result (worlds.new ≡ worlds.old) }
{
    match world {
        None => Ok(()),
        Some(world) => worlds.insert(world, id),
    }
}

fn forget(worlds: &mut Worlds, world: Option<WorldId>)
    ensures { worlds.new ≡ without_world worlds.old world }
{
    match world {
        None => {}
        Some(world) => worlds.remove(world),
    }
}
