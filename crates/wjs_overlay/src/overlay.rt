//! The store of sparse worlds.
ghost use Rattle.std.specs.Prelude.{◌≡◌, false, IfOk, IsTrue, Some, slice_get};
ghost use Rattle.wjs_layers.specs.declared.layer.Layer.{Layer};
ghost use Rattle.wjs_overlay.specs.Store.{IsStore, store_prop, first_id};
ghost use Rattle.wjs_overlay.specs.Touched.{IsCovered, covered_prop};

use crate::bounds::{Bound, covers, hand_up, reach};
use crate::marks::count_marks;
use crate::numbers::{Owners, Places};
use crate::{calls, marks, uncounted};
use std::alloc::Global;
use std::marker::Brand;
use std::sync::ledger::{Blank, Ledger};
use wjs_base::{Content, Name, Names, ObjId, OutOfMemory, Slot, Value, WorldId};
use wjs_layers::{Layer, Spot, layers};
use wjs_rows::Steps;
use wjs_store::{Counts, Verdict, WorldStore};

/// Worlds of which only what was touched is kept: a row for each slot that was read or written in a world, and the
/// objects that were listed there. The first world's rows are its present slots.
///
/// A store that ran out of memory is spent, and has the first world alone.
#[derive(Drop)]
pub struct Overlay {
    alloc: Global,
    layers: Vec<Layer>,
    places: Places,
    owners: Owners,
    /// Which objects each world but the first may have touched: of others it holds what the first world does.
    bounds: Vec<Bound>,
    spent: bool,
    ghost kept: { spent ≡ false → IsStore layers.items places owners } by { store_prop spent layers.items places owners },
    ghost covered: { spent ≡ false → IsCovered bounds.items layers.items } by { covered_prop spent bounds.items layers.items },
}

/// The number of the first world.
fn first_world() -> WorldId
    ensures { result ≡ first_id }
{
    WorldId {
        owner: 0,
        serial: 0,
    }
}

/// Where a world stands if its owner made all worlds, or if each owner made one behind the first world.
fn likely_place(world: WorldId) -> usize {
    if world.serial == 0 {
        world.owner as usize
    } else {
        world.serial as usize
    }
}

/// Whether a world is the one at a place.
fn stands_at(layers: &[Layer], world: WorldId, place: usize) -> bool
    ensures { IsTrue result → (r : Layer) × (slice_get layers.now place ≡ Some r) × (r.id ≡ world) }
{
    match layers.get(place) {
        None => false,
        Some(layer) => {
            let found = layer.id();
            if world.owner == found.owner && world.serial == found.serial {
                return true;
            }
            false
        }
    }
}

impl Overlay {
    ghost use Rattle.std.specs.Prelude.{◌≡◌, ◌+◌, ◌*◌, ◌<◌, ◌≤◌, true, false, IfOk, IsTrue, Some};
    ghost use Rattle.wjs_base.specs.declared.ids.WorldId.{WorldId};
    ghost use Rattle.wjs_overlay.specs.Covers.{covers};
    ghost use Rattle.wjs_store.specs.Fixed.{fixed, begun, fresh};
    ghost use Rattle.wjs_store.specs.Meaning.{Answers, AnswersAll, entries_of, writes_of, worlds};
    ghost use Rattle.wjs_store.specs.State.{has_world, read, write, list, sprout, commit, found, wrote, listed, sprouted, committed};
    ghost use Rattle.wjs_store.specs.Shown.{content_of, slots_of, verdict_of};
    ghost use Rattle.wjs_layers.specs.Sparse.{IsAt, full_of, place_of, depth_of};
    ghost use Rattle.wjs_overlay.specs.Store.{check_of};
    ghost use Rattle.wjs_layers.specs.Work.{rows_of, closed_of, rows_above};
    ghost use Rattle.std.specs.Prelude.{IsSome, IfSome, Ok, ◌&&◌};
    ghost use Rattle.wjs_base.specs.declared.values.Slot.{Slot};
    ghost use Rattle.wjs_overlay.specs.Check.{IsLeast};
    ghost use Rattle.wjs_layers.specs.Cursor.{to_come};
    ghost use Rattle.wjs_layers.specs.Marks.{is_written};
    ghost use Rattle.wjs_layers.specs.Reset.{has_child, after_reset};
    ghost use Rattle.wjs_store.specs.State.{parent_of};

    /// A store with the first world alone, which is owner 0's.
    pub fn new(alloc: Global) -> Result<Overlay, OutOfMemory>
        ensures { IfOk result (λ store. ⟦<Overlay as WorldStore>⟧.meaning store ≡ fixed fresh false) }
    {
        let store = Overlay::starting(alloc, first_world())?;
        Ok(store)
    }

    /// A store with a first world of this number alone: its owner's first.
    pub fn starting(alloc: Global, first: WorldId) -> Result<Overlay, OutOfMemory>
        requires { first.serial ≡ 0 }
        ensures { IfOk result (λ store. ⟦<Overlay as WorldStore>⟧.meaning store ≡ fixed (begun first) false) }
    {
        let mut layers = Vec::new(alloc);
        let mut places = Places::new(alloc);
        let mut owners = Owners::new(alloc);
        let bounds = Vec::new(alloc);
        places.insert(first, 0)?;
        owners.insert(first.owner, 1)?;
        layers.push(Layer::first(alloc, first))?;
        Ok(Overlay {
            alloc,
            layers,
            places,
            owners,
            bounds,
            spent: false,
        })
    }

    /// A world by its number, and its place: the first world, in which most calls are, is known without a search.
    #[inline(always)]
    fn spot(&self, world: WorldId) -> Spot
        requires live { self.now.spent ≡ false }
        requires there { IsTrue (has_world (full_of self.now.layers.items) world) }
        ensures at { IsAt self.now.layers.items result }
        ensures world { result.world ≡ world }
    {
        let first = self.layers[0].id();
        if world.owner == first.owner && world.serial == first.serial {
            return Spot { world, place: 0 };
        }
        Spot {
            world,
            place: self.search(world),
        }
    }

    /// The place of a world: mostly the likely one.
    #[inline(never)]
    fn search(&self, world: WorldId) -> usize
        requires live { self.now.spent ≡ false }
        requires there { IsTrue (has_world (full_of self.now.layers.items) world) }
        ensures { place_of (full_of self.now.layers.items) world ≡ Some result }
    {
        let place = likely_place(world);
        if stands_at(self.layers.as_slice(), world, place) {
            return place;
        }
        self.places.get(world).unwrap()
    }

    /// The first world.
    fn first_spot(&self) -> Spot
        requires { self.now.spent ≡ false }
        ensures at { IsAt self.now.layers.items result }
        ensures place { result.place ≡ 0 }
    {
        Spot {
            world: self.layers[0].id(),
            place: 0,
        }
    }

    /// The place of a world's parent, where it has one: an earlier one.
    fn place_above(&self, at: Spot) -> usize
        requires live { self.now.spent ≡ false }
        requires there { IsAt self.now.layers.items at }
        ensures { (p : WorldId) → parent_of (full_of self.now.layers.items) at.world ≡ Some p → (place_of (full_of self.now.layers.items) p ≡ Some result) ×
            (result < at.place) }
    {
        let layer = &self.layers[at.place];
        match layer.above() {
            None => 0,
            Some(above) => above.place,
        }
    }

    /// `read`, in at most twice the depth and 3 steps.
    #[inline(always)]
    pub fn read_counted<L: Ledger>(
        &mut self,
        world: WorldId,
        slot: Slot,
        steps: &mut Steps<L>,
    ) -> Result<Content, OutOfMemory>
        requires { IsTrue (has_world (worlds (⟦<Overlay as WorldStore>⟧.meaning self.old)) world) }
        ensures answers { Answers (⟦<Overlay as WorldStore>⟧.meaning self.old) (read world slot) (λ content. found (content_of content)) result (⟦<Overlay as WorldStore>⟧.meaning self.new) }
        ensures steps { steps.new ≤ steps.old + (2 * depth_of (worlds (⟦<Overlay as WorldStore>⟧.meaning self.old)) world + 3) }
    {
        if self.spent {
            return Err(OutOfMemory);
        }
        let at = self.spot(world);
        let layer = &self.layers[at.place];
        match layer.above() {
            None => Ok(layer.get_first(slot, steps)),
            Some(_) => self.read_marked(at, slot, steps),
        }
    }

    /// `read_counted` at a place, in a world with a parent.
    #[inline(never)]
    fn read_marked<L: Ledger>(
        &mut self,
        at: Spot,
        slot: Slot,
        steps: &mut Steps<L>,
    ) -> Result<Content, OutOfMemory>
        requires live { self.old.spent ≡ false }
        requires there { IsAt self.old.layers.items at }
        requires child { 0 < at.place }
        ensures answers { Answers (⟦<Overlay as WorldStore>⟧.meaning self.old) (read at.world slot) (λ content. found (content_of content)) result
            (⟦<Overlay as WorldStore>⟧.meaning self.new) }
        ensures steps { steps.new ≤ steps.old + (2 * depth_of (full_of self.old.layers.items) at.world + 3) }
    {
        if covers(self.bounds.as_slice(), at.place, slot.object.serial) {
            return self.read_touched(at, slot, steps);
        }
        self.read_past(at, slot, steps)
    }

    /// `read_marked` of an object that no world between this one and the first has touched, this one neither: none of these is
    /// looked at.
    fn read_past<L: Ledger>(
        &mut self,
        at: Spot,
        slot: Slot,
        steps: &mut Steps<L>,
    ) -> Result<Content, OutOfMemory>
        requires live { self.old.spent ≡ false }
        requires there { IsAt self.old.layers.items at }
        requires child { 0 < at.place }
        requires past { covers self.old.bounds.items at.place slot.object.serial ≡ false }
        ensures answers { Answers (⟦<Overlay as WorldStore>⟧.meaning self.old) (read at.world slot) (λ content. found (content_of content)) result
            (⟦<Overlay as WorldStore>⟧.meaning self.new) }
        ensures steps { steps.new ≤ steps.old + 3 }
    {
        let first = self.first_spot();
        self.spent = true;
        reach(&mut self.bounds, at.place, slot.object.serial)?;
        let answer = calls::read_past(&mut self.layers, at, first, slot, steps)?;
        self.spent = false;
        Ok(answer)
    }

    /// `read_marked` of an object that may have been touched.
    fn read_touched<L: Ledger>(
        &mut self,
        at: Spot,
        slot: Slot,
        steps: &mut Steps<L>,
    ) -> Result<Content, OutOfMemory>
        requires live { self.old.spent ≡ false }
        requires there { IsAt self.old.layers.items at }
        requires within { covers self.old.bounds.items at.place slot.object.serial ≡ true }
        ensures answers { Answers (⟦<Overlay as WorldStore>⟧.meaning self.old) (read at.world slot) (λ content. found (content_of content)) result
            (⟦<Overlay as WorldStore>⟧.meaning self.new) }
        ensures steps { steps.new ≤ steps.old + (2 * depth_of (full_of self.old.layers.items) at.world + 3) }
    {
        self.spent = true;
        let answer = calls::read(&mut self.layers, at, slot, steps)?;
        self.spent = false;
        Ok(answer)
    }

    /// `peek` in a store that isn't spent, in one step. It answers in the first world, and in each other where the slot has
    /// a row there: the look is `read_counted`'s first.
    #[inline(always)]
    pub fn peek_counted<L: Ledger>(
        &self,
        world: WorldId,
        slot: Slot,
        steps: &mut Steps<L>,
    ) -> Option<Content>
        requires live { (⟦<Overlay as WorldStore>⟧.meaning self.now).spent ≡ false }
        requires there { IsTrue (has_world (worlds (⟦<Overlay as WorldStore>⟧.meaning self.now)) world) }
        ensures answers { IfSome result (λ content. Answers (⟦<Overlay as WorldStore>⟧.meaning self.now) (read world slot) (λ c. found (content_of c)) (Ok content) (⟦<Overlay as WorldStore>⟧.meaning self.now)) }
        ensures step { steps.new ≡ steps.old + 1 }
    {
        let at = self.spot(world);
        let layer = &self.layers[at.place];
        match layer.above() {
            None => Some(layer.get_first(slot, steps)),
            Some(_) => layer.now(slot, steps),
        }
    }

    /// `write`, in at most twice the depth and 7 steps.
    #[inline(always)]
    pub fn write_counted<L: Ledger>(
        &mut self,
        world: WorldId,
        slot: Slot,
        content: Content,
        steps: &mut Steps<L>,
    ) -> Result<(), OutOfMemory>
        requires { IsTrue (has_world (worlds (⟦<Overlay as WorldStore>⟧.meaning self.old)) world) }
        ensures answers { Answers (⟦<Overlay as WorldStore>⟧.meaning self.old) (write world slot (content_of content)) (λ _. wrote) result (⟦<Overlay as WorldStore>⟧.meaning self.new) }
        ensures steps { steps.new ≤ steps.old + (2 * depth_of (worlds (⟦<Overlay as WorldStore>⟧.meaning self.old)) world + 7) }
    {
        if self.spent {
            return Err(OutOfMemory);
        }
        let at = self.spot(world);
        self.spent = true;
        reach(&mut self.bounds, at.place, slot.object.serial)?;
        calls::write(&mut self.layers, at, slot, content, steps)?;
        self.spent = false;
        Ok(())
    }

    /// `write_rows`, with its steps.
    #[inline(always)]
    pub(crate) fn write_rows_counted<L: Ledger>(
        &mut self,
        world: WorldId,
        object: ObjId,
        rows: &[(Name, Value)],
        steps: &mut Steps<L>,
    ) -> Result<(), OutOfMemory>
        requires { IsTrue (has_world (worlds (⟦<Overlay as WorldStore>⟧.meaning self.old)) world) }
        ensures answers { AnswersAll (⟦<Overlay as WorldStore>⟧.meaning self.old) (writes_of world (entries_of object rows.now)) result (⟦<Overlay as WorldStore>⟧.meaning self.new) }
    {
        if self.spent {
            return Err(OutOfMemory);
        }
        let at = self.spot(world);
        self.spent = true;
        reach(&mut self.bounds, at.place, object.serial)?;
        calls::write_rows(&mut self.layers, at, object, rows, steps)?;
        self.spent = false;
        Ok(())
    }

    /// `list`, with its steps.
    pub(crate) fn list_counted<L: Ledger>(
        &mut self,
        world: WorldId,
        object: ObjId,
        steps: &mut Steps<L>,
    ) -> Result<Names, OutOfMemory>
        requires { IsTrue (has_world (worlds (⟦<Overlay as WorldStore>⟧.meaning self.old)) world) }
        ensures answers { Answers (⟦<Overlay as WorldStore>⟧.meaning self.old) (list world object) (λ names. listed (slots_of object names)) result (⟦<Overlay as WorldStore>⟧.meaning self.new) }
    {
        if self.spent {
            return Err(OutOfMemory);
        }
        let at = self.spot(world);
        self.spent = true;
        reach(&mut self.bounds, at.place, object.serial)?;
        let answer = calls::list(self.alloc, &mut self.layers, at, object, steps)?;
        self.spent = false;
        Ok(answer)
    }

    /// `commit`, in at most `(R + C + A + 1) * (4 * depth + 20)` steps, taken as the call begins: `depth` is the number
    /// of worlds above, `R` the number of slots that were read or written in the world, `C` the number of its listed
    /// objects, and `A` the number of rows on these objects in all worlds above, where the first world's rows are its
    /// present slots.
    pub fn commit_counted<L: Ledger>(
        &mut self,
        world: WorldId,
        steps: &mut Steps<L>,
    ) -> Result<Verdict, OutOfMemory>
        requires { IsTrue (has_world (worlds (⟦<Overlay as WorldStore>⟧.meaning self.old)) world) }
        ensures answers { Answers (⟦<Overlay as WorldStore>⟧.meaning self.old) (commit world) (λ verdict. committed (verdict_of verdict)) result (⟦<Overlay as WorldStore>⟧.meaning self.new) }
        ensures steps { let F = worlds (⟦<Overlay as WorldStore>⟧.meaning self.old) in steps.new ≤ steps.old + (rows_of F world + closed_of F world + rows_above F world + 1) * (4 * depth_of F world + 20) }
    {
        if self.spent {
            return Err(OutOfMemory);
        }
        let at = self.spot(world);
        let above = self.place_above(at);
        self.spent = true;
        hand_up(&mut self.bounds, at.place, above)?;
        let answer = calls::commit(self.alloc, &mut self.layers, at, steps)?;
        self.spent = false;
        Ok(answer)
    }

    /// `sprout`, which takes no step.
    pub fn sprout_counted<L: Ledger>(
        &mut self,
        world: WorldId,
        owner: u32,
        strict: bool,
        _steps: &mut Steps<L>,
    ) -> Result<WorldId, OutOfMemory>
        requires { IsTrue (has_world (worlds (⟦<Overlay as WorldStore>⟧.meaning self.old)) world) }
        ensures answers { Answers (⟦<Overlay as WorldStore>⟧.meaning self.old) (sprout world owner strict) (λ child. sprouted child) result (⟦<Overlay as WorldStore>⟧.meaning self.new) }
        ensures steps { _steps.new ≤ _steps.old + 2 }
    {
        if self.spent {
            return Err(OutOfMemory);
        }
        let at = self.spot(world);
        let serial = self.owners.count(owner);
        let child = WorldId { owner, serial };
        let place = self.layers.len();
        self.spent = true;
        layers::sprout(self.alloc, &mut self.layers, at, child, strict)?;
        self.places.insert(child, place)?;
        let Some(next) = serial.checked_add(1) else {
            return Err(OutOfMemory);
        };
        self.owners.insert(owner, next)?;
        self.spent = false;
        Ok(child)
    }

    /// Gives up what was done in a world that has a parent and no child: it is as its parent would sprout it now, and what was
    /// kept of it is given back.
    pub fn reset(&mut self, world: WorldId)
        requires live { (⟦<Overlay as WorldStore>⟧.meaning self.old).spent ≡ false }
        requires there { IsTrue (has_world (worlds (⟦<Overlay as WorldStore>⟧.meaning self.old)) world) }
        requires parent { IsSome (parent_of (worlds (⟦<Overlay as WorldStore>⟧.meaning self.old)) world) }
        requires leaf { has_child (worlds (⟦<Overlay as WorldStore>⟧.meaning self.old)) world ≡ false }
        ensures { ⟦<Overlay as WorldStore>⟧.meaning self.new ≡ fixed (after_reset (worlds (⟦<Overlay as WorldStore>⟧.meaning self.old)) world) false }
    {
        let at = self.spot(world);
        self.spent = true;
        calls::reset(self.alloc, &mut self.layers, at);
        self.spent = false;
    }

    /// The least slot that fails the check of a world that has a parent; None exactly where the check passes.
    pub fn commit_check(&self, world: WorldId) -> Option<Slot>
        requires live { (⟦<Overlay as WorldStore>⟧.meaning self.now).spent ≡ false }
        requires there { IsTrue (has_world (worlds (⟦<Overlay as WorldStore>⟧.meaning self.now)) world) }
        requires parent { IsSome (parent_of (worlds (⟦<Overlay as WorldStore>⟧.meaning self.now)) world) }
        ensures { result ≡ check_of (worlds (⟦<Overlay as WorldStore>⟧.meaning self.now)) world }
    {
        let at = self.spot(world);
        calls::check_in::<Brand>(self.layers.as_slice(), at, Blank::new(1))
    }

    /// The least slot that was written in a world and stands after the slot given, or the least of all; None exactly
    /// where there is none.
    pub fn next_written(&self, world: WorldId, after: Option<Slot>) -> Option<Slot>
        requires live { (⟦<Overlay as WorldStore>⟧.meaning self.now).spent ≡ false }
        requires there { IsTrue (has_world (worlds (⟦<Overlay as WorldStore>⟧.meaning self.now)) world) }
        ensures { IsLeast (λ (s : Slot). is_written (worlds (⟦<Overlay as WorldStore>⟧.meaning self.now)) world s && to_come after s) result }
    {
        let at = self.spot(world);
        marks::next_written::<Brand>(&self.layers[at.place], after, Blank::new(1))
    }
}

impl WorldStore for Overlay {
    ghost use Rattle.wjs_store.specs.Fixed.{fixed};
    ghost use Rattle.wjs_overlay.specs.Store.{worlds_of};
    ghost use Rattle.wjs_overlay.specs.Sound.{sound_store};

    ghost meaning = { λ s. fixed (worlds_of s.spent s.layers.items) s.spent };

    ghost sound = { λ s h. sound_store s.spent s.layers.items s.places s.owners s.kept h };

    fn first(&self) -> WorldId {
        if self.spent {
            return first_world();
        }
        self.layers[0].id()
    }

    fn has_world(&self, world: WorldId) -> bool {
        if self.spent {
            return world.owner == 0 && world.serial == 0;
        }
        self.places.get(world).is_some()
    }

    fn is_spent(&self) -> bool {
        self.spent
    }

    #[inline(always)]
    fn read(&mut self, world: WorldId, slot: Slot) -> Result<Content, OutOfMemory> {
        uncounted::read_uncounted::<Brand>(self, world, slot, Blank::new(1))
    }

    #[inline(always)]
    fn peek(&self, world: WorldId, slot: Slot) -> Option<Content> {
        uncounted::peek_uncounted::<Brand>(self, world, slot, Blank::new(1))
    }

    #[inline(always)]
    fn write(&mut self, world: WorldId, slot: Slot, content: Content) -> Result<(), OutOfMemory> {
        uncounted::write_uncounted::<Brand>(self, world, slot, content, Blank::new(1))
    }

    #[inline(always)]
    fn write_rows(
        &mut self,
        world: WorldId,
        object: ObjId,
        rows: &[(Name, Value)],
    ) -> Result<(), OutOfMemory> {
        uncounted::write_rows_uncounted::<Brand>(self, world, object, rows, Blank::new(1))
    }

    fn list(&mut self, world: WorldId, object: ObjId) -> Result<Names, OutOfMemory> {
        uncounted::list_uncounted::<Brand>(self, world, object, Blank::new(1))
    }

    fn sprout(&mut self, world: WorldId, owner: u32, strict: bool) -> Result<WorldId, OutOfMemory> {
        uncounted::sprout_uncounted::<Brand>(self, world, owner, strict, Blank::new(1))
    }

    fn commit(&mut self, world: WorldId) -> Result<Verdict, OutOfMemory> {
        uncounted::commit_uncounted::<Brand>(self, world, Blank::new(1))
    }

    fn parent(&self, world: WorldId) -> Option<WorldId> {
        if self.spent {
            return None;
        }
        let at = self.spot(world);
        let layer = &self.layers[at.place];
        match layer.above() {
            None => None,
            Some(above) => Some(above.world),
        }
    }

    fn counts(&self, world: WorldId) -> Counts {
        if self.spent {
            return Counts {
                reads: 0,
                writes: 0,
                closed: 0,
            };
        }
        let at = self.spot(world);
        count_marks::<Brand>(&self.layers[at.place], Blank::new(1))
    }
}
