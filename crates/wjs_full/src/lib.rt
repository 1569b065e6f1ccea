//! Full copies, lists of actions on a store of worlds, and histories.
#![tactic(auto)]

mod full;
mod history;
mod maps;
mod rows;
mod run;
mod shown;
mod table;

pub use full::FullStore;
pub use history::serial_history;
pub use run::{act, run_actions};
