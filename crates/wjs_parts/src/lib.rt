//! Runs of the parts of a play: what there is before the first one, and the entry of a part in a world of its own. Each holds over
//! any store, and what is left to do is promised under all that may stand outside.
#![tactic(auto)]

mod enters;
mod starts;

pub use enters::enter;
pub use starts::start_parts;
