//! Turns of an activity: walks of a run up to a number of steps, over any store, and those of a try, behind which it rests, has
//! ended its activity or is dropped.
#![tactic(auto)]

mod turns;
mod walks;

pub use turns::take_turn;
pub use walks::walk;
