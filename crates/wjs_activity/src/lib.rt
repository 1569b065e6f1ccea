//! Activities: several scripts that run by turns, each in a world of its own under one first world, and each committed at its end
//! ("Worlds: Controlling the Scope of Side Effects", ECOOP 2011).
//!
//! What a play prints and leaves is what its parts print and leave when they are run alone, one after another, in the order of their
//! ends; and it is the play that `wjs_alone` defines by its turns. [`play`](crate::whole::play) says so.
#![tactic(auto)]

mod activities;
mod ends;
mod lines;
mod rounds;
mod whole;

pub use ends::{Ended, Ends, PlayTurn};
pub use whole::{PlayEnd, play};
pub use wjs_tries::{Outcome, Shown};
