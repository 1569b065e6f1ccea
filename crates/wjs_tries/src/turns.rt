//! What a turn of a try comes to.

use crate::common::Rested;
use crate::outcome::Outcome;

/// What a turn came to.
#[derive(Drop)]
pub enum Came {
    /// The try rests, with steps left.
    Rests(Rested),
    /// The activity has ended for good, and prints this.
    Ends(Outcome, Vec<u8>),
    /// What the try has read doesn't stand there any more, so nothing of it is kept.
    Drops,
}
