//! Logs of runs: the log of a store is spelled, and bytes that are to be one are read and judged.
#![tactic(auto)]

mod judging;
mod laws;
mod telling;

pub use judging::judge_log;
pub use laws::{logs_tell, one_verdict};
pub use telling::spell_store;
