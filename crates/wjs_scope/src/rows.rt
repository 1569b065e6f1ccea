//! The places of the names of each node.
ghost use Rattle.std.specs.Prelude.{◌≡◌, ℕ, ◌≤◌, [], ◌∷◌, length, Some, IfOk, OnOk};
ghost use Rattle.wjs_base.specs.declared.ids.NodeId.{NodeId};
ghost use Rattle.wjs_scope.specs.Levels.{IsNest};
ghost use Rattle.wjs_scope.specs.Visits.{mark_of};
ghost use Rattle.wjs_scope.specs.Places.{placed_names, declarator_names, init_declares, AddsPlaces, KeepsPlaces};

use crate::levels::{Level, resolve};
use crate::place::Place;
use crate::table::Places;
use std::alloc::Global;
use wjs_base::{OutOfMemory, TextId};
use wjs_tree::{Declarator, ForInit, Node, NodeId, Nodes};

/// The places of the names of each marked node.
pub fn rows(
    alloc: Global,
    nodes: &Nodes,
    marks: &[Option<u64>],
    levels: &[Level],
) -> Result<Places, OutOfMemory>
    requires within { length marks.now ≤ length nodes.now }
    requires nests { (i : NodeId) (at : ℕ) → mark_of marks.now i ≡ Some at → IsNest levels.now at }
    ensures { IfOk result (λ rows. KeepsPlaces nodes.now marks.now levels.now rows) }
{
    let mut starts = Vec::new(alloc);
    let mut list = Vec::new(alloc);
    for (number, mark) in marks.iter().enumerate() {
        starts.push(list.len())?;
        if let Some(at) = mark {
            let node = nodes.node(NodeId(number as u64));
            add_places(levels, *at, node, &mut list)?;
        }
    }
    Ok(Places { starts, list })
}

fn add_places(
    levels: &[Level],
    at: u64,
    node: &Node,
    list: &mut Vec<Place>,
) -> Result<(), OutOfMemory>
    requires { IsNest levels.now at }
    ensures { OnOk result (AddsPlaces levels.now at (placed_names node.now) list.old.items list.new.items) }
{
    match node {
        Node::Name(name) => add_place(levels, at, *name, list),
        Node::Var(declarators, _) => add_declared(levels, at, declarators.as_slice(), list),
        Node::For(init, _, _, _) => add_init(levels, at, init, list),
        Node::ForVarIn(name, _, _) => add_place(levels, at, *name, list),
        _ => Ok(()),
    }
}

fn add_place(
    levels: &[Level],
    at: u64,
    name: TextId,
    list: &mut Vec<Place>,
) -> Result<(), OutOfMemory>
    requires { IsNest levels.now at }
    ensures { OnOk result (AddsPlaces levels.now at (name ∷ []) list.old.items list.new.items) }
{
    let place = resolve(levels, at, name);
    list.push(place)?;
    Ok(())
}

fn add_declared(
    levels: &[Level],
    at: u64,
    declarators: &[Declarator],
    list: &mut Vec<Place>,
) -> Result<(), OutOfMemory>
    requires { IsNest levels.now at }
    ensures { OnOk result (AddsPlaces levels.now at (declarator_names declarators.now) list.old.items list.new.items) }
{
    for declarator in declarators {
        add_place(levels, at, declarator.name, list)?;
    }
    Ok(())
}

fn add_init(
    levels: &[Level],
    at: u64,
    init: &ForInit,
    list: &mut Vec<Place>,
) -> Result<(), OutOfMemory>
    requires { IsNest levels.now at }
    ensures { OnOk result (AddsPlaces levels.now at (init_declares init.now) list.old.items list.new.items) }
{
    match init {
        ForInit::Var(declarators) => add_declared(levels, at, declarators.as_slice(), list),
        _ => Ok(()),
    }
}
