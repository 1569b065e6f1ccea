//! Reads expressions from tokens.
#![tactic(auto)]

mod adds;
mod expr;
mod found;
mod functions;
mod look;
mod member;
mod parts;
mod primary;

pub use expr::{assignment_expression, comma_expression, expression};
pub use found::{Found, ParseFault};
pub use functions::Functions;
pub use look::{has_key, has_sign, token_at};
pub use parts::Part;
