//! Configurations of a run: frames that say what is left to do, in terms of the meaning.
#![tactic(auto)]

mod config;
mod frame;
mod halt;
mod held;
mod laws;
mod loaded;
mod nodes;
mod operand;
mod point;
mod stack;

pub use config::{Config, State};
pub use frame::{Activation, Completion, Frame, Frames, Held, Items, Phase, Reference};
pub use halt::{Ending, Halt};
pub use laws::{
    ends_go_down, kept_apart_stays, may_be_kept_apart, sound_keeps_apart, start_is_the_run,
};
pub use loaded::LoadedProgram;
pub use operand::Operand;
pub use point::{CallPoint, Conversion, ExprPoint, Fix, Hint, Point, Purpose, Start, StmtPoint};
pub use wjs_meaning::{LIBRARY, Trouble};
