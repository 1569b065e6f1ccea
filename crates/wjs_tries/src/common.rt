//! What activities share, and what one has to itself between its turns.

use wjs_arena::{Arena, Owned};
use wjs_model::{Frames, LoadedProgram};
use wjs_overlay::Overlay;
use wjs_session::Resting;
use wjs_texts::Texts;

/// What all activities of a play share: the texts, the objects that what was committed left, the programs and the worlds, and for each
/// of them the owner of its try that rests: what that has made no other may name.
#[derive(Drop)]
pub struct Common {
    pub texts: Texts,
    pub arena: Arena,
    pub units: Vec<LoadedProgram>,
    pub shared: Overlay,
    pub apart: Vec<u32>,
}

/// A try between its turns, with the objects that it has made, but for what it shares with others. It has steps left.
#[derive(Drop)]
pub struct Rested {
    pub resting: Resting,
    pub objects: Owned,
    pub frames: Frames,
    pub pending: Vec<u8>,
    pub left: u64,
    pub owner: u32,
}
