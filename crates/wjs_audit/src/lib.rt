//! Logs of actions on worlds with their answers: how they are spelled and read, and whether they are the full-copy machine's.
#![tactic(auto)]

mod auditing;
mod cuts;
mod deed;
mod fault;
mod hex;
mod knowing;
mod known;
mod laws;
mod line;
mod log;
mod logged;
mod needed;
mod numbers;
mod parts;
mod reading;
mod same;
mod spelling;

pub use auditing::{audit, audit_in};
pub use deed::{Deed, Entry};
pub use fault::AuditFault;
pub use knowing::knows_log;
pub use laws::{one_judgement, one_reading};
pub use log::Log;
pub use logged::Logged;
pub use reading::read_log;
pub use spelling::spell_log;
