//! The machine of worlds, each a full copy, and the trait of every store of worlds.
//!
//! A world sees the slots of its parent until it has read or written them itself. A commit checks that what was read
//! still stands in the parent, and then writes there what was written. The rules follow "Worlds: Controlling the Scope
//! of Side Effects" (Warth, Ohshima, Kaehler, Kay; ECOOP 2011).
#![tactic(auto)]

mod action;
mod equal;
mod laws;
mod store;

pub use action::{Action, Answer};
pub use equal::same_content;
pub use laws::{
    commits_move_contents, commits_move_marks, looks_keep_contents, own_view_holds,
    reached_states_stay_reached, refused_commit_changes_nothing, sprouts_copy_contents,
    write_reaches_by_path, writes_set_contents,
};
pub use store::{Counts, Verdict, WorldStore};
