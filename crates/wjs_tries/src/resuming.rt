//! A try becomes a configuration for its turn, and rests behind it or is given up.
ghost use Rattle.std.specs.Prelude.{◌≡◌, ◌<◌, false, length, set, IfOk};
ghost use Rattle.wjs_store.specs.State.{has_world};
ghost use Rattle.wjs_arena.specs.Entries.{IsArena, WorldsAreOwn, objects_of, others_of, joined};
ghost use Rattle.wjs_meaning.specs.Builtins.{global_object};
ghost use Rattle.wjs_session.specs.Stores.{worlds_in};
ghost use Rattle.wjs_session.specs.Resumed.{Rests};
ghost use Rattle.wjs_alone.specs.Alone.{world_of};
ghost use Rattle.wjs_tries.specs.Hiding.{no_owner};
ghost use Rattle.wjs_tries.specs.Meant.{meant, Listed, resting, Opens};
ghost use Rattle.wjs_tries.specs.Resting.{Owns};
ghost use Rattle.wjs_tries.specs.Turning.{Shares, GivesUp, GoesOnAs};

use crate::common::{Common, Rested};
use crate::keeping::{NO_OWNER, set_apart};
use std::alloc::Global;
use wjs_base::{OutOfMemory, WorldId};
use wjs_heap::Heap;
use wjs_model::{Config, Frames, State};
use wjs_session::Session;
use wjs_start::GLOBAL_OBJECT;
use wjs_store::WorldStore;

/// A try of an owner who has none yet, of which nothing is due.
pub fn fresh(alloc: Global, common: Common, owner: u32) -> Result<Config<Session>, OutOfMemory>
    requires live { common.shared.spent ≡ false }
    requires new { has_world (worlds_in common.shared) (world_of owner) ≡ false }
    ensures opens { IfOk result (Opens (⟦<Session as WorldStore>⟧.meaning) common.texts common.arena common.units.items (worlds_in common.shared) owner) }
    ensures units { IfOk result (λ config. config.units ≡ common.units) }
    ensures number { IfOk result (λ config. config.heap.store.world ≡ world_of owner) }
    ensures apart { IfOk result (λ config. config.apart ≡ common.apart) }
{
    let Common {
        texts,
        arena,
        units,
        shared,
        apart,
    } = common;
    let store = Session::begin(alloc, shared, owner)?;
    Ok(Config {
        heap: Heap {
            texts,
            arena,
            store,
        },
        units,
        frames: Frames::new(alloc),
        global: GLOBAL_OBJECT,
        world: WorldId { owner, serial: 0 },
        owner,
        apart,
        pending: Vec::new(alloc),
        left: 0,
        state: State::Done,
    })
}

/// The try of the activity at a place goes on where it rested, with its objects; the others' are kept apart from it.
pub fn resume(common: Common, rest: Rested, place: usize) -> Result<Config<Session>, OutOfMemory>
    requires live { common.shared.spent ≡ false }
    requires stands { Rests (worlds_in common.shared) rest.resting }
    requires place { place < length common.apart.items }
    requires owns { Owns common rest }
    requires whole { IsArena (joined common.arena rest.objects) }
    requires worlds { WorldsAreOwn common.arena }
    ensures goes_on { IfOk result (GoesOnAs (⟦<Session as WorldStore>⟧.meaning) common rest) }
    ensures list { IfOk result (λ config. config.apart.items ≡ set common.apart.items place no_owner) }
{
    let Common {
        texts,
        mut arena,
        units,
        shared,
        mut apart,
    } = common;
    set_apart(&mut apart, place, NO_OWNER);
    let Rested {
        resting,
        objects,
        frames,
        pending,
        left,
        owner,
    } = rest;
    arena.put(objects)?;
    Ok(Config {
        heap: Heap {
            texts,
            arena,
            store: resting.resume(shared),
        },
        units,
        frames,
        global: GLOBAL_OBJECT,
        world: WorldId { owner, serial: 0 },
        owner,
        apart,
        pending,
        left,
        state: State::Running,
    })
}

/// The try of the activity at a place rests, with its objects, and is kept apart from the others'.
pub fn rest(config: Config<Session>, place: usize) -> (Common, Rested)
    requires live { config.heap.store.spent ≡ false }
    requires place { place < length config.apart.items }
    requires others { IsArena (others_of config.heap.arena config.owner) }
    requires worlds { WorldsAreOwn config.heap.arena }
    ensures shares { Shares config result.0 }
    ensures stands { Rests (worlds_in result.0.shared) result.1.resting }
    ensures number { result.1.resting.world ≡ config.heap.store.world }
    ensures same { config.state ≡ State.Running → config.global ≡ global_object → config.world ≡ world_of config.owner → (us : Listed)
        → resting us result.0 result.1 ≡ record (meant (⟦<Session as WorldStore>⟧.meaning) config) { apart = us } }
    ensures owner { result.1.owner ≡ config.owner }
    ensures objects { result.1.objects ≡ objects_of config.heap.arena config.owner }
    ensures left { result.1.left ≡ config.left }
    ensures list { result.0.apart.items ≡ set config.apart.items place config.owner }
{
    let (mut common, rest) = pause(config);
    set_apart(&mut common.apart, place, rest.owner);
    (common, rest)
}

/// A try rests, with its objects.
fn pause(config: Config<Session>) -> (Common, Rested)
    requires live { config.heap.store.spent ≡ false }
    requires others { IsArena (others_of config.heap.arena config.owner) }
    requires worlds { WorldsAreOwn config.heap.arena }
    ensures shares { Shares config result.0 }
    ensures stands { Rests (worlds_in result.0.shared) result.1.resting }
    ensures number { result.1.resting.world ≡ config.heap.store.world }
    ensures same { config.state ≡ State.Running → config.global ≡ global_object → config.world ≡ world_of config.owner → (us : Listed)
        → resting us result.0 result.1 ≡ record (meant (⟦<Session as WorldStore>⟧.meaning) config) { apart = us } }
    ensures owner { result.1.owner ≡ config.owner }
    ensures objects { result.1.objects ≡ objects_of config.heap.arena config.owner }
    ensures left { result.1.left ≡ config.left }
    ensures apart { result.0.apart ≡ config.apart }
{
    let Config {
        heap: Heap {
            texts,
            mut arena,
            store,
        },
        units,
        frames,
        global: _,
        world: _,
        owner,
        apart,
        pending,
        left,
        state: _,
    } = config;
    let (shared, resting) = store.rest();
    let objects = arena.take(owner);
    (
        Common {
            texts,
            arena,
            units,
            shared,
            apart,
        },
        Rested {
            resting,
            objects,
            frames,
            pending,
            left,
            owner,
        },
    )
}

/// What is shared, of a try of which nothing is kept but the texts that it made.
pub fn left_behind(config: Config<Session>) -> Common
    requires live { config.heap.store.spent ≡ false }
    requires others { IsArena (others_of config.heap.arena config.owner) }
    requires worlds { WorldsAreOwn config.heap.arena }
    ensures gives_up { GivesUp config result }
    ensures apart { result.apart ≡ config.apart }
{
    let Config {
        heap: Heap {
            texts,
            mut arena,
            store,
        },
        units,
        frames: _,
        global: _,
        world: _,
        owner,
        apart,
        pending: _,
        left: _,
        state: _,
    } = config;
    let shared = store.abandon();
    let _ = arena.take(owner);
    Common {
        texts,
        arena,
        units,
        shared,
        apart,
    }
}
