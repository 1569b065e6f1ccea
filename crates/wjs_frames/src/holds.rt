//! What frames hold.
ghost use Rattle.std.specs.Prelude.{◌≡◌, ◌∷◌, OnOk};
ghost use Rattle.wjs_model.specs.declared.frame.Held.{Held};

use wjs_base::OutOfMemory;
use wjs_model::{Frame, Held};

/// The frame holds one more thing, which is its latest.
pub fn hold(frame: &mut Frame, item: Held) -> Result<(), OutOfMemory>
    ensures { OnOk result (frame.new ≡ record frame.old { held = item ∷ frame.old.held }) }
{
    frame.hold(item)
}
