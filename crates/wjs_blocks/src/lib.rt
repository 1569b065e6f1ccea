//! Expression statements, conditions, `return`, `throw`, `switch`, `try` (ECMA-262, 3rd edition, sections 12.4, 12.5, 12.9, 12.11, 12.13
//! and 12.14) and `in` ("Worlds: Controlling the Scope of Side Effects", ECOOP 2011, section 2).
#![tactic(auto)]

mod clauses;
mod enters;
mod simple;
mod switches;
mod tries;
mod within;

pub use clauses::{Case, case_from, clauses_at, default_of, statement_at, statements_before};
pub use simple::{expr_value, if_test, return_value, throw_value};
pub use switches::{case_value, clause_statement, switch_value};
pub use tries::{handler_at, try_block, try_finally, try_handler};
pub use within::within_world;
