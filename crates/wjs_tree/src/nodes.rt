//! Trees as numbered nodes.
ghost use Rattle.std.specs.Prelude.{◌≡◌, ◌+◌, ◌<◌, [], length, slice_get, Some, OnErr, IfOk};
ghost use Rattle.std.specs.Prelude.{◌++◌, ◌∷◌};
ghost use Rattle.std.specs.Prelude.{ℕ, List};
ghost use Rattle.wjs_tree.specs.Children.{ChildrenBelow};
ghost use Rattle.wjs_tree.specs.Trees.{Expr, Stmt, Elements};
ghost use Rattle.wjs_tree.specs.Levels.{level, is_target, starts_with_brace};
ghost use Rattle.wjs_tree.specs.Height.{height, stmt_height, program_height};
ghost use Rattle.wjs_tree.specs.Shows.{Has, Shows, StmtShows, IsBody, Keeps};

use crate::facts::{Facts, facts_of};
use crate::node::Node;
use std::alloc::Global;
use std::marker::Model;
use wjs_base::{NodeId, OutOfMemory};

/// The nodes of trees, each child with a smaller number than its parent. Contracts see their list.
#[derive(Drop)]
pub struct Nodes {
    list: Vec<Node>,
    facts: Vec<Facts>,
}

impl Model for Nodes {
    ghost use Rattle.std.specs.Prelude.{List};
    ghost use Rattle.wjs_tree.specs.declared.node.Node.{Node};
    ghost use Rattle.std.specs.Coded.{codes};
    ghost use Rattle.wjs_tree.specs.contracts.node.Node as node_contract;

    ghost Value = { List Node };

    ghost coded = { Prim.hlevel (codes, node_contract.the_row.coded) };

    ghost view = { λ n. n.list.items };

    ghost use Rattle.wjs_tree.specs.Facts.{AreKept};

    ghost invariant = { λ n. AreKept n.list.items n.facts.items };
}

impl Nodes {
    /// No nodes.
    pub fn new(alloc: Global) -> Nodes
        ensures { result ≡ [] }
    {
        Nodes {
            list: Vec::new(alloc),
            facts: Vec::new(alloc),
        }
    }

    /// Puts a node last, whose children are there, and gives its number; after a refusal the nodes are as they were.
    pub fn add(&mut self, node: Node) -> Result<NodeId, OutOfMemory>
        requires { ChildrenBelow (length self.old) node }
        ensures ok { IfOk result (λ id. id.0 ≡ length self.old) }
        ensures added { IfOk result (λ id. self.new ≡ self.old ++ node ∷ []) }
        ensures err { OnErr result (self.new ≡ self.old) }

        // What follows for the one who builds trees.
        ensures has { IfOk result (λ id. Has self.new id node) }
        ensures longer { IfOk result (λ id. length self.new ≡ length self.old + 1) }
        ensures keeps { Keeps self.old self.new }
    {
        let id = self.put(node)?;
        Ok(id)
    }

    fn put(&mut self, node: Node) -> Result<NodeId, OutOfMemory>
        requires { ChildrenBelow (length self.old) node }
        ensures ok { IfOk result (λ id. id.0 ≡ length self.old) }
        ensures added { IfOk result (λ id. self.new ≡ self.old ++ node ∷ []) }
        ensures err { OnErr result (self.new ≡ self.old) }
    {
        let id = NodeId(self.list.len() as u64);
        let facts = facts_of(self.facts.as_slice(), &node);
        self.facts.push(facts)?;
        match self.list.push(node) {
            Ok(()) => Ok(id),
            Err(_) => {
                self.facts.truncate(id.0 as usize);
                Err(OutOfMemory)
            }
        }
    }

    /// The node of a number that is there.
    pub fn node(&self, id: NodeId) -> &Node
        requires { id.0 < length self.now }
        ensures there { slice_get self.now id.0 ≡ Some result.now }
        ensures below { ChildrenBelow id.0 result.now }
    {
        &self.list[id.0 as usize]
    }

    /// How tightly the expression of a node binds: 18 for a primary expression down to 0 for a comma.
    pub fn level(&self, id: NodeId) -> u32
        requires { id.0 < length self.now }
        ensures { (t : Expr) (used : List ℕ) → Shows self.now t id used → result ≡ level t }
    {
        self.facts[id.0 as usize].level
    }

    /// The height of the tree of a node, which grows by one with each part that is no left part.
    pub fn height(&self, id: NodeId) -> u64
        requires { id.0 < length self.now }
        ensures expr { (t : Expr) (used : List ℕ) → Shows self.now t id used → result ≡ height t }
        ensures stmt { (t : Stmt) (used : List ℕ) → StmtShows self.now t id used → result ≡ stmt_height t }
        ensures body { (t : Elements) → IsBody self.now t id → result ≡ program_height t }
    {
        self.facts[id.0 as usize].height
    }

    /// Whether the expression of a node may be assigned to (section 8.7).
    pub fn is_target(&self, id: NodeId) -> bool
        requires { id.0 < length self.now }
        ensures { (t : Expr) (used : List ℕ) → Shows self.now t id used → result ≡ is_target t }
    {
        self.facts[id.0 as usize].is_target
    }

    /// Whether the first token of a node's expression is `{` or `function` (section 12.4).
    pub fn starts_with_brace(&self, id: NodeId) -> bool
        requires { id.0 < length self.now }
        ensures { (t : Expr) (used : List ℕ) → Shows self.now t id used → result ≡ starts_with_brace t }
    {
        self.facts[id.0 as usize].starts_with_brace
    }
}

/// A script's nodes, and the number of its Program.
#[derive(Drop)]
pub struct Program {
    pub nodes: Nodes,
    pub body: NodeId,
}
