//! What bodies declare, and the scopes of calls: variable instantiation (ECMA-262, 3rd edition, sections 10.1.3, 10.1.6 and 10.1.8).
#![tactic(auto)]

mod arguments;
mod declarations;
mod entering;
mod scopes;

pub use declarations::{declare_program, program_body};
pub use entering::enter_scope;
