//! The native functions of Object, Function, Error, World and Array (ECMA-262, 3rd edition, sections 15.2 to 15.4 and
//! 15.11; ECOOP 2011, section 2).
#![tactic(auto)]

mod applies;
mod arrays;
mod classes;
mod errors;
mod functions;
mod items;
mod objects;
mod runs;
mod sources;
mod turns;
mod worlds;

pub use applies::apply_element;
pub use turns::{begin_core, resume_core};
