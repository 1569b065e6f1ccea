//! Output.
ghost use Rattle.std.specs.Prelude.{IfOk, OnOk};
ghost use Rattle.wjs_heap.specs.Means.{nothing};
ghost use Rattle.wjs_meaning.specs.Deeds.{Do, Emit};
ghost use Rattle.wjs_model.specs.Soundness.{Base};
ghost use Rattle.wjs_frames.specs.Doing.{Does};
ghost use Rattle.wjs_frames.specs.Following.{Later};

use wjs_base::OutOfMemory;
use wjs_model::Config;
use wjs_store::WorldStore;

/// Bytes go out, after those that are pending.
pub fn emit<S: WorldStore>(config: &mut Config<S>, bytes: &[u8]) -> Result<(), OutOfMemory>
    requires base { Base S.meaning config.old }
    ensures does { IfOk result (λ _. Does S.meaning (λ t go. Do (Emit bytes.now) go) (λ t. nothing) config.old config.new) }
    ensures later { OnOk result (Later S.meaning config.old config.new) }
{
    config.pending.extend_from_slice(bytes)?;
    Ok(())
}
