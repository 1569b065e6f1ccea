//! Expressions, statements and calls, evaluated by recursion: a frame is made only where one stops.
//!
//! Each function is given a frame that says where it runs: its tree, its scope, its `this` and its world. What is not evaluated here is
//! left to a frame, most of it at its entry, before its step; the nodes around it wait for it in frames of their own.
#![tactic(auto)]

mod arrays;
mod bodies;
mod calls;
mod choices;
mod do_loops;
mod do_rounds;
mod entries;
mod expressions;
mod for_ins;
mod labels;
mod loops;
mod members;
mod news;
mod objects;
mod operands;
mod prefixes;
mod rounds;
mod sequences;
mod statements;
mod stores;
mod switches;
mod targets;
mod tries;
mod variables;
mod within;

pub use do_rounds::{DoParts, after_do_body, do_parts_of};
pub use entries::{after_body_element, after_body_value, body};
pub use rounds::{LoopParts, after_loop_body, is_followed, parts_of};
pub use sequences::run_elements;
