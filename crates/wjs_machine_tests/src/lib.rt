//! What a caller of the machine can rely on, over any store: short functions whose contracts follow from those of the calls that
//! they make. A store may tell its actions, and a run may rest while others make texts.
#![tactic(auto)]

mod owners;
mod runs;
mod turns;
mod walks;

pub use owners::{is_of_owner, world_of_object};
pub use runs::{run_program, run_unheard};
pub use turns::{turn, turn_heard, two_turns};
pub use walks::{enter_below, run_part, walk_on};
