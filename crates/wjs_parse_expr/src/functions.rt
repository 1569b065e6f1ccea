//! Functions that are read already, by the place where each begins.
ghost use Rattle.std.specs.Prelude.{◌≡◌, ℕ, None, Some, OnOk, OnErr, if◌then◌else◌, ◌==◌};

use std::alloc::Global;
use std::collections::HashMap;
use wjs_base::OutOfMemory;
use wjs_tree::NodeId;

/// From the place of a `function` token to its finished node and the place after it. Function bodies are read innermost
/// first, so that expressions never read statements.
#[derive(Drop)]
pub struct Functions {
    entries: HashMap<usize, (NodeId, usize)>,
}

impl Functions {
    ghost use Rattle.wjs_parse_expr.specs.Table.{entry_at};

    /// No functions.
    pub fn new(alloc: Global) -> Functions
        ensures { (p : ℕ) → entry_at result p ≡ None }
    {
        Functions {
            entries: HashMap::new(alloc),
        }
    }

    /// Adds the function at a place that has none yet; after a refusal the functions are as they were.
    pub fn add(&mut self, place: usize, node: NodeId, next: usize) -> Result<(), OutOfMemory>
        requires { entry_at self.old place ≡ None }
        ensures ok { OnOk result ((p : ℕ) → entry_at self.new p ≡ (if place == p then Some (node, next) else entry_at self.old p)) }
        ensures err { OnErr result (self.new.entries.entries ≡ self.old.entries.entries) }
    {
        self.entries.insert(place, (node, next))?;
        Ok(())
    }

    /// The node of the function that begins at the place, and the place after it; None exactly where no finished function
    /// begins there.
    pub fn at(&self, place: usize) -> Option<(NodeId, usize)>
        ensures { result ≡ entry_at self.now place }
    {
        self.entries.get(&place).copied()
    }
}
