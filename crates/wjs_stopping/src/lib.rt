//! Evaluations that end, or stop and leave frames: where a part stops, the frames of the parts around it wait for it, and what they
//! have still to do is put on the stack at once.
#![tactic(auto)]

mod ends;
mod finish;
mod laws;
mod list;
mod stops;

pub use ends::Broken;
pub use finish::{finish_end, finish_value};
pub use laws::{
    due_stops, entry_is_paid, form_is_line, form_is_nested, frames_do_what_stopped,
    frames_take_no_more_turns, given_stops, line_ends, part_goes_on, part_waits, stopped_are_kept,
    stops_follow,
};
pub use list::{Waits, put_on};
pub use stops::{Stops, settle, stop, stop_holding, waits, waits_holding};
