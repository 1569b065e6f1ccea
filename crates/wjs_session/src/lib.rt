//! Sessions: scripts that run by turns, each in a child of one first world, as if each ran alone.
//!
//! A session is a world of a shared store, with an inner store for the worlds below it. It is itself a store of worlds, whose
//! first world has no parent: a script that runs in it cannot tell that it isn't alone. What others change in the shared store
//! reaches it only in slots that it has not touched, and its own view of those stays as it was while it runs. A session whose
//! check passes is settled into the first world of the shared store.
#![tactic(auto)]

mod calls;
mod carry;
mod others;
mod resting;
mod session;
mod settling;
mod told;

pub use others::{
    abandons_leave_others, begins_leave_others, ends_leave_others, numbers_by_owner,
    resting_is_sound, resting_stands_still, returns_compose, turns_leave_others,
    writes_leave_others,
};
pub use resting::{Resting, rest_changes_nothing};
pub use session::Session;
