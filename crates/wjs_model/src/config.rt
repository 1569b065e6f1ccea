//! Configurations.

use crate::frame::Frames;
use crate::loaded::LoadedProgram;
use wjs_base::{ObjId, Value, WorldId};
use wjs_heap::Heap;
use wjs_store::WorldStore;

/// Whether a configuration goes on.
#[derive(Clone, Copy)]
pub enum State {
    Running,
    Done,
    Threw(Value),
    StepsSpent,
}

/// A run at a moment.
#[derive(Drop)]
pub struct Config<S: WorldStore> {
    pub heap: Heap<S>,
    pub units: Vec<LoadedProgram>,
    pub frames: Frames,
    pub global: ObjId,
    /// The first world of the run.
    pub world: WorldId,
    /// Who makes its objects and worlds.
    pub owner: u32,
    /// Owners whose objects are kept apart: the run never names one. No step reads it.
    pub apart: Vec<u32>,
    /// Output that has not gone to the sink.
    pub pending: Vec<u8>,
    /// How many steps are left.
    pub left: u64,
    pub state: State,
}
