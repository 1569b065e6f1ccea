//! Names, for their value and as targets (ECMA-262, 3rd edition, sections 10.1.4 and 11.1.2).
ghost use Rattle.std.specs.Prelude.{◌≡◌, ◌<◌, length};
ghost use Rattle.wjs_base.specs.Text.{Table};
ghost use Rattle.wjs_scope.specs.Places.{placed_names};
ghost use Rattle.wjs_by_content.specs.Tables.{text_in};
ghost use Rattle.wjs_meaning.specs.Deeds.{tree_here};
ghost use Rattle.wjs_meaning.specs.Expressions as line;
ghost use Rattle.wjs_meaning.specs.Trees.{Name, name_place};
ghost use Rattle.wjs_model.specs.Units.{place_in};
ghost use Rattle.wjs_model.specs.Waiting.{refer};
ghost use Rattle.wjs_frames.specs.Parts.{env_in, node_now};
ghost use Rattle.wjs_frames.specs.Handling.{Runs, IsAt, GoesOn};

use wjs_base::{OutOfMemory, TextId};
use wjs_frames::{finish, place_at};
use wjs_heap_steps::reference_at;
use wjs_model::{Completion, Config, Frame};
use wjs_scope::Place;
use wjs_step_common::give_value_of;
use wjs_store::WorldStore;
use wjs_tree::Node;

/// Where the name at a frame's node is found.
fn place_of<S: WorldStore>(config: &Config<S>, frame: &Frame) -> Place
    requires named { 0 < length (placed_names (node_now S.meaning config.now frame.now)) }
    ensures { (t : Table) → name_place (tree_here (env_in S.meaning config.now t frame.now)) frame.now.node.0 0 ≡ place_in result }
{
    place_at(config, frame, frame.node(), 0)
}

/// A name for its value.
pub fn name_value<S: WorldStore>(
    config: &mut Config<S>,
    frame: Frame,
    id: TextId,
) -> Result<(), OutOfMemory>
    requires runs { Runs S.meaning config.old frame }
    requires node { IsAt S.meaning config.old frame (Node.Name id) }
    ensures { GoesOn S.meaning frame config.old config.new result (λ t env. line.reference_of frame.node.0 (Name (text_in t id)) env (line.give_value_of env)) }
{
    let place = place_of(config, &frame);
    let reference = reference_at(config, &frame, place, id);
    give_value_of(config, frame, reference)
}

/// A name as a target.
pub(crate) fn name_target<S: WorldStore>(
    config: &mut Config<S>,
    frame: Frame,
    id: TextId,
) -> Result<(), OutOfMemory>
    requires runs { Runs S.meaning config.old frame }
    requires node { IsAt S.meaning config.old frame (Node.Name id) }
    ensures { GoesOn S.meaning frame config.old config.new result (λ t env. line.reference_of frame.node.0 (Name (text_in t id)) env refer) }
{
    let place = place_of(config, &frame);
    let reference = reference_at(config, &frame, place, id);
    finish(config, frame, Completion::Refers(reference))
}
