//! What the program does for its words and the bytes of its source: it reads a script, runs it in a world, and writes what it
//! prints, or the log of its actions, on one sink, and a line on another where it is refused or a fault comes; or it reads several
//! scripts, and runs them by turns; or it reads a log, and audits it.
#![tactic(auto)]

mod auditing;
mod laws;
mod logging;
mod performing;
mod playing;
mod report;
mod running;
mod status;
mod work;

pub use laws::{completeness, one_due};
pub use performing::{perform, perform_in};
pub use report::{Report, Stop};
pub use status::Status;
pub use work::command;
