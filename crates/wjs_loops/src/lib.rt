//! Loops, `for`-`in` among them, labels and variables (ECMA-262, 3rd edition, sections 12.2, 12.6 and 12.12).
#![tactic(auto)]

mod above;
mod assigns;
mod bodies;
mod for_ins;
mod fors;
mod iterations;
mod jumps;
mod labels;
mod rounds;
mod variables;
mod visits;
mod whiles;
mod within;

pub use bodies::{AfterBody, after_body};
pub use for_ins::{Taker, visit_body, visit_target, visits_object};
pub use fors::{
    for_again, for_body, for_declared, for_from, for_started, for_test, for_updated, for_variables,
};
pub use iterations::stmt_iteration;
pub use jumps::label_body;
pub use labels::same_label;
pub use variables::{variable_value, variables_from};
pub use visits::{hold_visits, next_present};
pub use whiles::{do_body, do_test, while_again, while_body, while_test};
