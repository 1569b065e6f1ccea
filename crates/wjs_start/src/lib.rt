//! What there is before the first step: the native functions, the first objects and the slots of the first world.
#![tactic(auto)]

mod blueprints;
mod builtins;
mod heap;
mod known;
mod making;
mod names;
mod natives;
mod objects;
mod properties;
mod runs;
mod script;
mod slots;

pub use blueprints::FIRST_WORLD;
pub use builtins::GLOBAL_OBJECT;
pub use heap::first_heap;
pub use runs::{program_frame, start};
pub use script::script_names;
