//! Tokens and trees of a script.
#![tactic(auto)]

mod facts;
mod keys;
mod laws;
mod node;
mod nodes;
mod operators;
mod sequence;
mod signs;
mod tokens;

pub use keys::Key;
pub use laws::forms_are_known;
pub use node::{Clause, Declarator, End, ForInit, Handler, Node, Property, PropertyKey, Spelt};
pub use nodes::{Nodes, Program};
pub use operators::{AssignOperator, BinaryOperator, PrefixOperator, UpdateOperator};
pub use sequence::Sequence;
pub use signs::Sign;
pub use tokens::{Tok, Token};
pub use wjs_base::NodeId;
