//! What readers hand to each other.

ghost use Rattle.std.specs.Prelude.{◌≡◌, ◌++◌, ◌∷◌, [], OnOk, OnErr};

use wjs_base::OutOfMemory;
use wjs_tree::{NodeId, Property, Sequence};

/// A node, the place after its tokens, and whether it may be assigned to.
#[derive(Clone, Copy)]
pub struct Part {
    pub node: NodeId,
    pub next: usize,
    pub is_target: bool,
}

/// What a chain of names, indices and calls begins with or is, and whether it is `new` without arguments.
#[derive(Clone, Copy)]
pub struct Head {
    pub part: Part,
    pub is_bare: bool,
}

/// Arguments, and the place of the closing parenthesis.
#[derive(Drop)]
pub struct Listed {
    pub list: Sequence<NodeId>,
    pub next: usize,
}

/// Items, whether one more comma stands behind a last expression, and the place of the closing bracket.
#[derive(Drop)]
pub struct ListedItems {
    pub list: Sequence<Option<NodeId>>,
    pub tail: bool,
    pub next: usize,
}

/// Properties, whether one more comma stands behind the last, and the place of the closing brace.
#[derive(Drop)]
pub struct ListedProperties {
    pub list: Sequence<Property>,
    pub comma: bool,
    pub next: usize,
}

/// Puts an element last; after a refusal the list is as it was.
pub fn push_last<T: Drop>(list: &mut Vec<T>, item: T) -> Result<(), OutOfMemory>
    ensures ok { OnOk result (list.new.items ≡ list.old.items ++ item ∷ []) }
    ensures err { OnErr result (list.new.items ≡ list.old.items) }
{
    list.push(item)?;
    Ok(())
}
