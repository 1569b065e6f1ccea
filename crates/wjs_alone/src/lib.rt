//! Plays of several scripts, as definitions: what a part does alone, what ends in serial order owe, and a play by its schedule.
//!
//! `specs/` is what a reader must believe: `Alone` and `Opening`, then `Serial`, and for a play by its turns `Marks`, over the table
//! of a session's marks (`Along` of `wjs_session`), and `Playing`; `Named` says that marks are by content what they are by number.
//! The laws are the contracts of functions that do nothing.
#![tactic(auto)]

mod laws;

pub use laws::{
    checks_by_content, ended_take_no_turn, marks_by_content, one_ending, order_decides,
    own_objects_are_left_out, own_views_by_content, some_are_serial,
};
