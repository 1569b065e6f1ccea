//! What the nodes of a loaded program are, where their names are found, and what its bodies declare.
ghost use Rattle.std.specs.Prelude.{◌≡◌, ◌<◌, length, map, All, IfOk, MatchOption};
ghost use Rattle.wjs_base.specs.Text.{Table, Has, IsTable};
ghost use Rattle.wjs_by_content.specs.Tables.{text_in};
ghost use Rattle.wjs_scope.specs.Bodies.{elements_at};
ghost use Rattle.wjs_scope.specs.Declarations.{functions_among};
ghost use Rattle.wjs_scope.specs.Places.{placed_names};
ghost use Rattle.wjs_meaning.specs.Declarations.{declared_by};
ghost use Rattle.wjs_meaning.specs.Reading.{numbers};
ghost use Rattle.wjs_meaning.specs.Trees.{name_place};
ghost use Rattle.wjs_model.specs.Bodies.{others_by};
ghost use Rattle.wjs_model.specs.Texts.{KnowsUnit, PlacesUnit};
ghost use Rattle.wjs_model.specs.Units.{node_of, place_in, place_or_global, unit_in};

use crate::loaded::LoadedProgram;
use wjs_base::OutOfMemory;
use wjs_scope::{Declared, Place};
use wjs_tree::{Node, NodeId};

impl LoadedProgram {
    /// The node of a number; none where there is none, which the meaning takes for an empty statement.
    pub fn node(&self, id: NodeId) -> Option<&Node>
        ensures { MatchOption result (node_of self.now id ≡ Node.Empty) (λ node. node_of self.now id ≡ node.now) }
    {
        if id.0 <= self.program.body.0 {
            Some(self.program.nodes.node(id))
        } else {
            None
        }
    }

    /// The place of the name of this number among a node's own: a Name's, or those that its `var` declares. Where the node has
    /// no name of this number, it is any place.
    #[inline(always)]
    pub fn place(&self, node: NodeId, at: usize) -> Place
        ensures { at < length (placed_names (node_of self.now node)) → (t : Table) → name_place (unit_in t self.now) node.0 at ≡ place_in result }
    {
        place_or_global(self.places.get(node, at))
    }

    /// What the body at a node declares; nothing where the node is no body's. It was found at loading, and takes no
    /// memory.
    pub fn declared(&self, body: NodeId) -> Result<Declared, OutOfMemory>
        ensures formals { IfOk result (λ d. (t : Table) → map (text_in t) d.formals ≡ (declared_by (unit_in t self.now) body.0).formals) }
        ensures functions { IfOk result (λ d. (t : Table) → numbers d.functions ≡ (declared_by (unit_in t self.now) body.0).functions) }
        ensures numbered { IfOk result (λ d. d.functions ≡ functions_among self.now.program.nodes (elements_at self.now.program.nodes body.0)) }
        ensures variables { IfOk result (λ d. (t : Table) → IsTable t → KnowsUnit t self.now
            → map (text_in t) d.variables ≡ (declared_by (unit_in t self.now) body.0).vars) }
        ensures others { IfOk result (λ d. (t : Table) → IsTable t → KnowsUnit t self.now → PlacesUnit t self.now
            → map (text_in t) d.others ≡ others_by (unit_in t self.now) (declared_by (unit_in t self.now) body.0)) }
        ensures formals_found { IfOk result (λ d. (t : Table) → KnowsUnit t self.now → All (Has t) d.formals) }
        ensures variables_found { IfOk result (λ d. (t : Table) → KnowsUnit t self.now → All (Has t) d.variables) }
        ensures others_found { IfOk result (λ d. (t : Table) → KnowsUnit t self.now → PlacesUnit t self.now → All (Has t) d.others) }
    {
        let declared = self.bodies.get(body)?;
        Ok(declared)
    }
}

#[inline(always)]
fn place_or_global(place: Option<Place>) -> Place
    ensures { result ≡ place_or_global place }
{
    match place {
        Some(place) => place,
        None => Place::Global,
    }
}
