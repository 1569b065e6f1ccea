//! What readers of statements hand to each other.

ghost use Rattle.std.specs.Prelude.{◌≡◌, ◌++◌, ◌∷◌, [], OnOk, OnErr};

use wjs_base::OutOfMemory;
use wjs_tree::{Declarator, End, NodeId, Sequence};

/// A statement, the place after it, and whether an `else` there would belong to an `if` in it.
#[derive(Clone, Copy)]
pub struct Piece {
    pub node: NodeId,
    pub next: usize,
    pub is_open: bool,
}

/// A node, and the place after its tokens.
#[derive(Clone, Copy)]
pub struct Spot {
    pub node: NodeId,
    pub next: usize,
}

/// The end of a statement, and the place after it.
#[derive(Clone, Copy)]
pub struct Ended {
    pub end: End,
    pub next: usize,
}

/// An expression with the end of its statement, and the place after it.
#[derive(Clone, Copy)]
pub struct Valued {
    pub node: NodeId,
    pub end: End,
    pub next: usize,
}

/// An expression or nothing, and the place after it.
#[derive(Clone, Copy)]
pub struct Maybe {
    pub node: Option<NodeId>,
    pub next: usize,
}

/// What a statement ends in before its end.
#[derive(Clone, Copy)]
pub enum Stop {
    /// Nothing continues it.
    Complete,
    /// The name of a variable without initialiser.
    InName,
    /// An expression, whose last token may be `++` or `--`.
    InExpr(bool),
}

/// A variable, the place after it, and what it ends in.
#[derive(Clone, Copy)]
pub struct Declared {
    pub declarator: Declarator,
    pub next: usize,
    pub stop: Stop,
}

/// Variables, the place after them, and what they end in.
#[derive(Drop)]
pub struct ListedVariables {
    pub list: Sequence<Declarator>,
    pub next: usize,
    pub stop: Stop,
}

/// Puts an element last; after a refusal the list is as it was.
pub fn push_last<T: Drop>(list: &mut Vec<T>, item: T) -> Result<(), OutOfMemory>
    ensures ok { OnOk result (list.new.items ≡ list.old.items ++ item ∷ []) }
    ensures err { OnErr result (list.new.items ≡ list.old.items) }
{
    list.push(item)?;
    Ok(())
}
