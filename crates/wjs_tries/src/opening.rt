//! The begin of a try.
ghost use Rattle.std.specs.Prelude.{◌≡◌, ◌-◌, ◌<◌, ◌≤◌, ℕ, false, length, IfOk, IsTrue};
ghost use Rattle.wjs_model.specs.Apart.{is_apart};
ghost use Rattle.wjs_model.specs.Soundness.{Sound};
ghost use Rattle.wjs_session.specs.Stores.{worlds_in};
ghost use Rattle.wjs_tries.specs.Common.{IsCommon};
ghost use Rattle.wjs_tries.specs.Hiding.{MayList};
ghost use Rattle.wjs_tries.specs.Turning.{Begun};

use crate::common::Common;
use crate::resuming::fresh;
use std::alloc::Global;
use wjs_base::OutOfMemory;
use wjs_model::{Config, State};
use wjs_parts::enter;
use wjs_session::Session;
use wjs_store::WorldStore;

/// A try of the next owner, with the whole budget: the part's body is due in a world of its own, which holds what the first world
/// holds.
pub fn open(
    alloc: Global,
    common: Common,
    owner: u32,
    part: u32,
    budget: u64,
) -> Result<Config<Session>, OutOfMemory>
    requires live { common.shared.spent ≡ false }
    requires some { 1 ≤ owner }
    requires common { IsCommon common.texts common.arena common.units.items (worlds_in common.shared) (owner - 1) }
    requires part { part < length common.units.items }
    requires apart { (u : ℕ) → IsTrue (is_apart common.apart.items u) → MayList owner common u }
    ensures running { IfOk result (λ config. config.state ≡ State.Running) }
    ensures sound { IfOk result (Sound (⟦<Session as WorldStore>⟧.meaning)) }
    ensures begun { IfOk result (Begun (⟦<Session as WorldStore>⟧.meaning) owner part budget common) }
{
    let mut config = fresh(alloc, common, owner)?;
    enter(&mut config, part, budget)?;
    Ok(config)
}
