//! Arguments of calls and of `new`, and `this` of what is called (ECMA-262, 3rd edition, sections 11.2.3 and 11.2.4).
ghost use Rattle.std.specs.Prelude.{◌≡◌, ◌∷◌, ◌++◌, OnOk, []};
ghost use Rattle.wjs_base.specs.Text.{Table};
ghost use Rattle.wjs_by_content.specs.Tables.{value_in};
ghost use Rattle.wjs_meaning.specs.Expressions as line;
ghost use Rattle.wjs_meaning.specs.Reading.{node_in};
ghost use Rattle.wjs_model.specs.Contents.{reference_in};
ghost use Rattle.wjs_model.specs.Lists.{arguments_of};
ghost use Rattle.wjs_model.specs.Soundness.{HasReference, HasValue};
ghost use Rattle.wjs_frames.specs.Parts.{node_among};
ghost use Rattle.wjs_effects.specs.Sequences.{NextIs};

use wjs_base::{OutOfMemory, Value};
use wjs_effects::element_of;
use wjs_frames::node_at;
use wjs_model::{Config, Frame, Reference};
use wjs_store::WorldStore;
use wjs_tree::{Node, NodeId};

/// The base of a member, and undefined for every other reference.
pub fn base_of<S: WorldStore>(config: &Config<S>, reference: Reference) -> Value
    requires { HasReference config.now reference }
    ensures is { (t : Table) → value_in t result ≡ line.base_of (reference_in t reference) }
    ensures found { HasValue config.now result }
{
    let _config = config;
    match reference {
        Reference::Member(base, _) => base,
        _ => Value::Undefined,
    }
}

/// The argument of a number.
#[inline(always)]
pub fn argument<S: WorldStore>(
    config: &Config<S>,
    frame: &Frame,
    node: NodeId,
    at: u32,
) -> Option<NodeId>
    ensures { (t : Table) → NextIs (arguments_of (node_in t (node_among config.now.units.items frame.now.tree node))) at result }
{
    match node_at(config, frame, node) {
        Some(Node::Call(_, arguments)) => element_of(arguments.as_slice(), at),
        Some(Node::NewWith(_, arguments)) => element_of(arguments.as_slice(), at),
        _ => None,
    }
}

pub fn push(values: &mut Vec<Value>, value: Value) -> Result<(), OutOfMemory>
    ensures { OnOk result (values.new.items ≡ values.old.items ++ value ∷ []) }
{
    values.push(value)?;
    Ok(())
}
