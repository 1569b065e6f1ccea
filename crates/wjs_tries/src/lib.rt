//! Tries: attempts to run a part of a play to its end, each in a world of its own under a first world that all share. A try begins,
//! rests between its turns, and then it is committed, or ends its activity with nothing of it kept, or is dropped, since what it has
//! read doesn't stand there any more.
#![tactic(auto)]

mod common;
mod ending;
mod keeping;
mod opening;
mod outcome;
mod resuming;
mod turns;

pub use common::{Common, Rested};
pub use ending::finish;
pub use keeping::{next_owner, none_apart};
pub use opening::open;
pub use outcome::{Outcome, Shown};
pub use resuming::{rest, resume};
pub use turns::Came;
