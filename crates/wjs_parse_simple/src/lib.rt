//! Reads statements without statements in them from tokens, and what other statements begin with.
#![tactic(auto)]

mod ends;
mod kind;
mod parts;
mod simple_statements;
mod values;
mod variables;

pub use ends::{end_at, is_closed};
pub use kind::{Kind, kind_at};
pub use parts::{Declared, Ended, ListedVariables, Maybe, Piece, Spot, Stop, Valued, push_last};
pub use simple_statements::{
    break_statement, continue_statement, empty_statement, expression_statement, return_statement,
    throw_statement, variable_statement,
};
pub use values::{expression_up_to, optional_expression, parenthesized_expression};
pub use variables::{variable_declarations, word_at};
