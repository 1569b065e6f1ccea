//! What a body declares.
use wjs_base::TextId;
use wjs_tree::{NodeId, Sequence};

/// What a body declares (ECMA-262, 3rd edition, section 10.1.3): its formals in order, of which a script has none; the nodes of
/// its functions in order; the names of its `var`s, each once, in order of first occurrence; and the others, which are those of
/// these names that are neither `arguments`, nor a formal's, nor a function's.
#[derive(Drop)]
pub struct Declarations {
    pub formals: Sequence<TextId>,
    pub functions: Sequence<NodeId>,
    pub variables: Sequence<TextId>,
    pub others: Sequence<TextId>,
}
