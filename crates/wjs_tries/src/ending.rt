//! The end of a try.
ghost use Rattle.std.specs.Prelude.{◌≡◌, ℕ, List, IfOk};
ghost use Rattle.wjs_arena.specs.Entries.{IsArena, others_of};
ghost use Rattle.wjs_meaning.specs.Trees.{Tree};
ghost use Rattle.wjs_model.specs.Soundness.{Sound};
ghost use Rattle.wjs_session.specs.Session.{first_copy};
ghost use Rattle.wjs_session.specs.Stores.{worlds_in};
ghost use Rattle.wjs_tries.specs.Turning.{IsOver, IsTurned, IsAtEnd, IsRest, EndsApart};
ghost use Rattle.wjs_tries.specs.Exact.{EndsBy};

use crate::common::Common;
use crate::outcome::{Outcome, Shown};
use crate::resuming::left_behind;
use crate::turns::Came;
use wjs_base::{OutOfMemory, Value};
use wjs_heap::Heap;
use wjs_model::{Config, State};
use wjs_reports::show_thrown;
use wjs_session::Session;
use wjs_store::WorldStore;

/// Ends a try that goes on no more. Where what it has read stands there still, that is its activity's end: a normal one is
/// committed, and of others nothing is kept. Else the try is dropped. What it made goes with it, but for texts.
pub fn finish(config: Config<Session>) -> Result<(Common, Came), OutOfMemory>
    requires over { ¬ (config.state ≡ State.Running) }
    requires sound { Sound (⟦<Session as WorldStore>⟧.meaning) config }
    requires others { IsArena (others_of config.heap.arena config.owner) }
    ensures turned { IfOk result (λ r. (trees : List Tree) (tree budget drawn : ℕ) → IsOver (⟦<Session as WorldStore>⟧.meaning) trees tree budget drawn config
        → IsTurned (⟦<Session as WorldStore>⟧.meaning) trees tree budget drawn config r.0 r.1) }
    ensures awake { IfOk result (λ r. ¬ (IsRest r.1)) }
    ensures certain { IfOk result (λ r. (⟦<Session as WorldStore>⟧.meaning config.heap.store).own ≡ first_copy (worlds_in config.heap.store.shared)
        → ¬ (r.1 ≡ Came.Drops)) }
    ensures checked { IfOk result (λ r. EndsBy config r.0 r.1) }
    ensures apart { IfOk result (λ r. EndsApart config r.0) }
{
    if !config.heap.store.agrees() {
        return Ok((left_behind(config), Came::Drops));
    }
    match config.state {
        State::Done => commit(config),
        State::Threw(value) => tell(config, value),
        _ => Ok(spend(config)),
    }
}

/// Commits a try that ended normally and agrees: its world's changes are the first world's, and its output counts.
fn commit(config: Config<Session>) -> Result<(Common, Came), OutOfMemory>
    requires done { config.state ≡ State.Done }
    requires sound { Sound (⟦<Session as WorldStore>⟧.meaning) config }
    ensures { IfOk result (λ r. IsAtEnd (⟦<Session as WorldStore>⟧.meaning) config r.0 r.1) }
{
    let Config {
        heap: Heap {
            texts,
            arena,
            store,
        },
        units,
        frames: _,
        global: _,
        world: _,
        owner: _,
        apart,
        pending,
        left: _,
        state: _,
    } = config;
    let settled = store.settle()?;
    let (shared, _verdict) = settled;
    let common = Common {
        texts,
        arena,
        units,
        shared,
        apart,
    };
    Ok((common, Came::Ends(Outcome::Committed, pending)))
}

/// Tells what a try threw that agrees, in its own world, before that is given up.
fn tell(config: Config<Session>, value: Value) -> Result<(Common, Came), OutOfMemory>
    requires threw { config.state ≡ State.Threw value }
    requires sound { Sound (⟦<Session as WorldStore>⟧.meaning) config }
    requires others { IsArena (others_of config.heap.arena config.owner) }
    ensures { IfOk result (λ r. IsAtEnd (⟦<Session as WorldStore>⟧.meaning) config r.0 r.1) }
{
    let mut config = config;
    let alloc = config.heap.arena.allocator();
    let text = show_thrown(&mut config, value)?;
    let outcome = Outcome::Threw(Shown::new(text));
    Ok((left_behind(config), Came::Ends(outcome, Vec::new(alloc))))
}

/// Ends a try that agrees and has spent its budget.
fn spend(config: Config<Session>) -> (Common, Came)
    requires spent { config.state ≡ State.StepsSpent }
    requires sound { Sound (⟦<Session as WorldStore>⟧.meaning) config }
    requires others { IsArena (others_of config.heap.arena config.owner) }
    ensures { IsAtEnd (⟦<Session as WorldStore>⟧.meaning) config result.0 result.1 }
{
    let alloc = config.heap.arena.allocator();
    (
        left_behind(config),
        Came::Ends(Outcome::Spent, Vec::new(alloc)),
    )
}
