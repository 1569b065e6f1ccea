//! Scripts that are loaded: bytes as programs of a run.
#![tactic(auto)]

mod laws;
mod script;
mod stopping;
mod tokens;
mod units;

pub use laws::one_answer;
pub use tokens::{LoadFault, Refusal};
pub use units::{library, load};
