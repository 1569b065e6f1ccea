//! Loaded programs: with the places of their names, and with what their bodies declare.
ghost use Rattle.std.specs.Prelude.{◌≡◌, ◌+◌, length};
ghost use Rattle.wjs_model.specs.Bodies.{AreMeant, AreMeant-prop};

use wjs_scope::{BodyTable, Places};
use wjs_tree::Program;

/// A program with the places of its names, and with what each of its bodies declares. Its own body is the last of its nodes.
#[derive(Drop)]
pub struct LoadedProgram {
    pub program: Program,
    pub places: Places,
    pub bodies: BodyTable,
    ghost body_is_last: { length program.nodes ≡ program.body.0 + 1 },
    ghost bodies_are_meant: { AreMeant program.nodes bodies } by { AreMeant-prop program.nodes bodies },
}
