//! How much room is left to an evaluation.
ghost use Rattle.std.specs.Prelude.{◌≡◌, ◌<◌, ◌≤◌, true};

use wjs_model::Config;
use wjs_store::WorldStore;

/// How much room an evaluation has at its entry, in pieces of half a KB of stack.
pub const ROOM: u16 = 144;

/// How much is asked for where a node is entered.
const LEAST: u16 = 8;

/// Whether a node may be entered: a step is left, and there is room for it.
#[inline(always)]
pub fn may_enter<S: WorldStore>(config: &Config<S>, room: u16) -> bool
    ensures left { result ≡ true → 0 < config.now.left }
    ensures room { result ≡ true → 8 ≤ room }
{
    if config.left == 0 {
        return false;
    }
    room >= LEAST
}
