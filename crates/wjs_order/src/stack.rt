//! Nodes that are still to take.
ghost use Rattle.std.specs.Prelude.{◌≡◌, ◌∷◌, [], OnOk};
ghost use Rattle.wjs_base.specs.Stacks.{Takes};

use std::alloc::Global;
use std::marker::Model;
use wjs_base::OutOfMemory;
use wjs_tree::NodeId;

/// Nodes that are still to take. Contracts see them with the next first.
#[derive(Drop)]
pub struct Stack {
    items: Vec<NodeId>,
}

impl Model for Stack {
    ghost use Rattle.std.specs.Prelude.{List, reverse};
    ghost use Rattle.wjs_base.specs.declared.ids.NodeId.{NodeId};

    ghost Value = { List NodeId };

    ghost view = { λ s. reverse s.items.items };
}

impl Stack {
    /// No nodes.
    pub fn new(alloc: Global) -> Stack
        ensures { result ≡ [] }
    {
        Stack {
            items: Vec::new(alloc),
        }
    }

    /// Puts a node before the others.
    pub fn push(&mut self, id: NodeId) -> Result<(), OutOfMemory>
        ensures { OnOk result (self.new ≡ id ∷ self.old) }
    {
        self.items.push(id)?;
        Ok(())
    }

    /// Takes the first node, if there is one.
    pub fn pop(&mut self) -> Option<NodeId>
        ensures { Takes self.old result self.new }
    {
        self.items.pop()
    }
}
