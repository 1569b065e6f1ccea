//! The store of worlds of which only what was touched is kept.
#![tactic(auto)]

mod bounds;
mod calls;
mod check;
mod marks;
mod numbers;
mod overlay;
mod uncounted;

pub use overlay::Overlay;
