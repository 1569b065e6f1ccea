//! Variables of a node, and the store of their values (ECMA-262, 3rd edition, section 12.2).
ghost use Rattle.std.specs.Prelude.{◌≡◌, ◌+◌, IfSome, [], slice_get};
ghost use Rattle.wjs_base.specs.Text.{Has};
ghost use Rattle.wjs_by_content.specs.Tables.{value_in};
ghost use Rattle.wjs_model.specs.Soundness.{Base, HasCompletion, HasValue, IsThere};
ghost use Rattle.wjs_frames.specs.Following.{Later};
ghost use Rattle.wjs_frames.specs.Parts.{node_among};
ghost use Rattle.wjs_effects.specs.Variables.{declarators_in};
ghost use Rattle.wjs_stopping.specs.Evaluating.{HasOutcome, InMemory};
ghost use Rattle.wjs_direct_lines.specs.Deeds.{line_here};
ghost use Rattle.wjs_direct_lines.specs.Variables.{Declares, GoesNext, variable_valued, variables_left};

use wjs_base::Value;
use wjs_effects::store_and_end;
use wjs_frames::{node_at, place_at};
use wjs_heap_steps::reference_at;
use wjs_model::{Completion, Config, Frame};
use wjs_stopping::{Broken, Stops};
use wjs_store::WorldStore;
use wjs_tree::{Declarator, ForInit, Node, NodeId};

/// The variables that a node declares.
fn declarators_of<'a, S: WorldStore>(
    config: &'a Config<S>,
    frame: &Frame,
    node: NodeId,
) -> &'a [Declarator]
    ensures { result.now ≡ declarators_in (node_among config.now.units.items frame.now.tree node) }
{
    match node_at(config, frame, node) {
        Some(Node::Var(variables, _)) => variables.as_slice(),
        Some(Node::For(ForInit::Var(variables), _, _, _)) => variables.as_slice(),
        _ => &[],
    }
}

/// The variable of a number among them.
pub fn variable_at<S: WorldStore>(
    config: &Config<S>,
    frame: &Frame,
    node: NodeId,
    at: u32,
) -> Option<Declarator>
    requires { Base S.meaning config.now }
    ensures is { result ≡ slice_get (declarators_in (node_among config.now.units.items frame.now.tree node)) at }
    ensures known { IfSome result (λ x. Has config.now.heap.texts x.name) }
{
    match declarators_of(config, frame, node).get(at as usize) {
        Some(variable) => Some(*variable),
        None => None,
    }
}

/// The store to the name of the variable of a number.
pub fn variable_stored<S: WorldStore>(
    config: &mut Config<S>,
    frame: &Frame,
    node: NodeId,
    at: u32,
    variable: Declarator,
    value: Value,
    stops: &mut Stops,
) -> Result<Completion, Broken>
    requires base { Base S.meaning config.old }
    requires there { IsThere S.meaning config.old frame.now }
    requires empty { stops.old.waits ≡ [] }
    requires is { Declares config.old frame.now node at variable }
    requires name { Has config.old.heap.texts variable.name }
    requires value { HasValue config.old value }
    ensures later { InMemory result (Later S.meaning config.old config.new) }
    ensures found { HasOutcome S.meaning HasCompletion config.new result stops.new.waits stops.new.top }
    ensures does { GoesNext S.meaning (line_here S.meaning config.old frame.now
        (λ t env. variable_valued config.old frame.now node at t env (value_in t value)))
        frame.now (variables_left config.old frame.now node (at + 1)) result stops.new.waits stops.new.top config.old config.new }
{
    let _stops = stops;
    let place = place_at(config, frame, node, at as usize);
    let reference = reference_at(config, frame, place, variable.name);
    let end = store_and_end(config, frame, reference, value, Completion::Normal)?;
    Ok(end)
}
