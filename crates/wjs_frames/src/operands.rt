//! Parts that need no frame of their own.
ghost use Rattle.std.specs.Prelude.{◌≡◌, IfSome};
ghost use Rattle.wjs_model.specs.Soundness.{Base, IsThere};
ghost use Rattle.wjs_frames.specs.Operands.{IsOperand};

use crate::node::{node_among, place_at};
use crate::part::Part;
use wjs_base::Value;
use wjs_model::{Config, Frame, Operand};
use wjs_store::WorldStore;
use wjs_tree::{Node, NodeId};

/// The operand that a part is, where it is a literal, `this` or a name.
#[inline(always)]
pub fn operand_of<S: WorldStore>(config: &Config<S>, frame: &Frame, part: Part) -> Option<Operand>
    requires base { Base S.meaning config.now }
    requires there { IsThere S.meaning config.now frame.now }
    ensures { IfSome result (λ operand. IsOperand S.meaning config.now frame.now part operand) }
{
    match part {
        Part::Expr(node) => value_operand(config, frame, node),
        Part::Target(node) => target_operand(config, frame, node),
        _ => None,
    }
}

/// A part for its value.
#[inline(always)]
fn value_operand<S: WorldStore>(config: &Config<S>, frame: &Frame, node: NodeId) -> Option<Operand>
    requires base { Base S.meaning config.now }
    requires there { IsThere S.meaning config.now frame.now }
    ensures { IfSome result (λ operand. IsOperand S.meaning config.now frame.now (Part.Expr node) operand) }
{
    match node_among(config, frame.tree(), node) {
        Some(Node::Name(id)) => Some(Operand::Name(place_at(config, frame, node, 0), *id)),
        Some(Node::Number(number)) => Some(Operand::Value(Value::Number(*number))),
        Some(Node::Text(id)) => Some(Operand::Value(Value::Text(*id))),
        Some(Node::This) => Some(Operand::Value(frame.this())),
        Some(Node::Null) => Some(Operand::Value(Value::Null)),
        Some(Node::Bool(truth)) => Some(Operand::Value(Value::Bool(*truth))),
        _ => None,
    }
}

/// A part as a target.
#[inline(always)]
fn target_operand<S: WorldStore>(config: &Config<S>, frame: &Frame, node: NodeId) -> Option<Operand>
    requires base { Base S.meaning config.now }
    requires there { IsThere S.meaning config.now frame.now }
    ensures { IfSome result (λ operand. IsOperand S.meaning config.now frame.now (Part.Target node) operand) }
{
    match node_among(config, frame.tree(), node) {
        Some(Node::Name(id)) => Some(Operand::Target(place_at(config, frame, node, 0), *id)),
        _ => None,
    }
}
