//! What follows the parts of expressions and statements that are evaluated by recursion, once they came to their values: reads, stores,
//! operations, calls of native functions, and the frames that hold what is there where one stops. Nothing here evaluates a node inside.
//!
//! Each function is given a frame that says where it runs: its tree, its scope, its `this` and its world.
#![tactic(auto)]

mod arguments;
mod bodies;
mod callees;
mod choices;
mod functions;
mod holding;
mod members;
mod names;
mod natives;
mod news;
mod operands;
mod operations;
mod prefixes;
mod references;
mod room;
mod sequences;
mod stores;
mod targets;
mod updates;
mod variables;
mod visits;

pub use arguments::{argument, base_of, push};
pub use bodies::body_ended;
pub use callees::{callee_object, callee_of};
pub use choices::picked;
pub use functions::function;
pub use holding::{argument_waits, call_stops, function_stops, wait_compound};
pub use members::{member_by_name, member_by_value};
pub use names::read;
pub use natives::native_called;
pub use news::{prototype_of, result_of_new};
pub use operands::{Query, reference_told, target_point, value_point, value_told};
pub use operations::operation;
pub use prefixes::{after_operand, point_of};
pub use references::reference_value;
pub use room::{ROOM, may_enter};
pub use sequences::given;
pub use stores::{compound_stored, stored};
pub use targets::{referred_by_name, referred_by_value};
pub use updates::target_updated;
pub use variables::{variable_at, variable_stored};
pub use visits::{store_name, target_waits, visits_wait};
