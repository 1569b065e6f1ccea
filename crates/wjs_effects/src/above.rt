//! A frame that waits for another above it, which is run at a node around the same.
ghost use Rattle.std.specs.Prelude.{◌≡◌, [], IfOk, OnOk};
ghost use Rattle.wjs_model.specs.Soundness.{HasPoint};
ghost use Rattle.wjs_frames.specs.Following.{Later};
ghost use Rattle.wjs_frames.specs.Handling.{Runs};
ghost use Rattle.wjs_frames.specs.Nesting.{Nests};
ghost use Rattle.wjs_frames.specs.Parts.{env_in, then_at};

use wjs_base::OutOfMemory;
use wjs_frames::wait;
use wjs_model::{Config, Frame, Point};
use wjs_store::WorldStore;
use wjs_tree::NodeId;

/// The frame waits at a point, and another is made for above it, at a node around the same, with nothing held; where that one waits, its
/// own move says.
pub fn wait_below<S: WorldStore>(
    config: &mut Config<S>,
    frame: Frame,
    point: Point,
    node: NodeId,
) -> Result<Frame, OutOfMemory>
    requires runs { Runs S.meaning config.old frame }
    requires point { HasPoint config.old frame point }
    ensures nests { OnOk result (Nests S.meaning (λ t.
        then_at S.meaning config.old frame point t (env_in S.meaning config.old t frame)) config.old config.new) }
    ensures same { OnOk result (config.new ≡ record config.old { frames = config.new.frames }) }
    ensures later { OnOk result (Later S.meaning config.old config.new) }
    ensures inner { IfOk result (λ inner. inner ≡ record frame { node = node; held = [] }) }
{
    let inner = config.frames.begun(&frame, node)?;
    wait(config, frame, point)?;
    Ok(inner)
}
