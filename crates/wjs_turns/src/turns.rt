//! A turn of a try.
ghost use Rattle.std.specs.Prelude.{◌≡◌, ◌<◌, ◌≤◌, ℕ, List, length, IfOk};
ghost use Rattle.wjs_arena.specs.Entries.{IsArena, others_of};
ghost use Rattle.wjs_meaning.specs.Trees.{Tree};
ghost use Rattle.wjs_model.specs.Soundness.{Sound};
ghost use Rattle.wjs_session.specs.Session.{first_copy};
ghost use Rattle.wjs_session.specs.Stores.{worlds_in};
ghost use Rattle.wjs_tries.specs.Views.{KnowsView};
ghost use Rattle.wjs_tries.specs.Turning.{IsLive, IsTurned, TurnsApart, IsRest, HasLess};
ghost use Rattle.wjs_tries.specs.Exact.{IsExact};

use crate::walks::walk;
use wjs_base::OutOfMemory;
use wjs_model::{Config, State};
use wjs_session::Session;
use wjs_store::WorldStore;
use wjs_tries::{Came, Common, finish, rest};

/// Takes a turn of a try of the activity at a place: it goes on up to the step that would be one more than these, or to its end. A
/// step that is due where the budget is spent ends it in this turn.
pub fn take_turn(
    config: Config<Session>,
    place: usize,
    steps: u64,
) -> Result<(Common, Came), OutOfMemory>
    requires place { place < length config.apart.items }
    requires running { config.state ≡ State.Running }
    requires sound { Sound (⟦<Session as WorldStore>⟧.meaning) config }
    // No object of another has one of the try's as prototype or scope.
    requires others { IsArena (others_of config.heap.arena config.owner) }
    ensures turned { IfOk result (λ r. (trees : List Tree) (tree budget drawn : ℕ) → IsLive (⟦<Session as WorldStore>⟧.meaning) trees tree budget drawn config
        → IsTurned (⟦<Session as WorldStore>⟧.meaning) trees tree budget drawn config r.0 r.1) }
    // It is the turn that the definition of plays has.
    ensures exact { IfOk result (λ r. (trees : List Tree) (tree budget drawn : ℕ)
        → (is : IsLive (⟦<Session as WorldStore>⟧.meaning) trees tree budget drawn config)
        → KnowsView config.heap.texts (⟦<Session as WorldStore>⟧.meaning config.heap.store).own
        → IsExact (⟦<Session as WorldStore>⟧.meaning) trees tree budget is.taken steps config r.0 r.1) }
    // Nothing that is left names what the tries have made that are kept apart from it.
    ensures apart { IfOk result (λ r. (trees : List Tree) (tree budget drawn : ℕ) → IsLive (⟦<Session as WorldStore>⟧.meaning) trees tree budget drawn config
        → TurnsApart place config r.0 r.1) }
    // A turn without limit doesn't end at rest, and others end it with fewer steps left.
    ensures whole { IfOk result (λ r. config.left ≤ steps → ¬ (IsRest r.1)) }
    ensures less { IfOk result (λ r. 1 ≤ steps → HasLess config.left r.1) }
    // Where the try takes the first world to hold what it holds, it isn't dropped.
    ensures certain { IfOk result (λ r. (⟦<Session as WorldStore>⟧.meaning config.heap.store).own ≡ first_copy (worlds_in config.heap.store.shared)
        → ¬ (r.1 ≡ Came.Drops)) }
{
    let mut config = config;
    let _taken = walk(&mut config, steps)?;
    match config.state {
        State::Running => {
            let (common, rest) = rest(config, place);
            Ok((common, Came::Rests(rest)))
        }
        _ => finish(config),
    }
}
