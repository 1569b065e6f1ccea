//! Reading and writing with causes: a source or a sink counts its faults, so a caller can prove that
//! it reports one only where there was one.
#![tactic(auto)]

mod loops;
mod memory;
mod silent;
mod standard;
mod traits;
mod writing;

pub use loops::{ReadFault, Stopped, read_all, write_all_of};
pub use memory::{MemSink, MemSource};
pub use silent::Unheard;
pub use standard::{StdSink, StdSource};
pub use traits::{Failed, Sink, Source};
pub use writing::{PIECE, write_pieces};

#[cfg(test)]
mod tests;
