//! What the bodies of a program declare.

use crate::shared::Declared;
use std::marker::Model;
use wjs_base::OutOfMemory;
use wjs_tree::NodeId;

/// What each body of a program declares, by its node.
#[derive(Drop)]
pub struct BodyTable {
    /// Of each node; what declares nothing where the node is no body's.
    pub(crate) rows: Vec<Declared>,
    /// What declares nothing.
    pub(crate) none: Declared,
}

impl Model for BodyTable {
    ghost use Rattle.std.specs.Prelude.{List};
    ghost use Rattle.wjs_scope.specs.declared.declarations.Declarations.{Declarations};

    ghost Value = { List Declarations × Declarations };

    ghost view = { λ b. (b.rows.items, b.none) };
}

impl BodyTable {
    ghost use Rattle.std.specs.Prelude.{◌≡◌, IfOk};
    ghost use Rattle.wjs_scope.specs.Bodies.{declared_in};

    /// What the body at a node declares; nothing where the node is no body's. It takes two steps and no memory.
    pub fn get(&self, node: NodeId) -> Result<Declared, OutOfMemory>
        ensures { IfOk result (λ d. d ≡ declared_in self.now node.0) }
    {
        match self.rows.get(node.0 as usize) {
            Some(declared) => declared.share(),
            None => self.none.share(),
        }
    }
}
