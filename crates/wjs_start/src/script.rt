//! The names that a script declares.
ghost use Rattle.std.specs.Prelude.{◌≡◌, ◌++◌, ◌∷◌, [], All, map, filter_map, IfOk, OnOk};
ghost use Rattle.std.specs.Option.{option_map};
ghost use Rattle.wjs_base.specs.Text.{Table, Has, IsTable};
ghost use Rattle.wjs_by_content.specs.Tables.{text_in};
ghost use Rattle.wjs_meaning.specs.Reading.{node_in, numbers};
ghost use Rattle.wjs_meaning.specs.Trees.{name_of, node_at};
ghost use Rattle.wjs_model.specs.Texts.{KnowsUnit, KnowsNode, HasText};
ghost use Rattle.wjs_model.specs.Units.{unit_in};
ghost use Rattle.wjs_start.specs.Declaring.{declared_by_tree};

use std::alloc::Global;
use wjs_base::{OutOfMemory, TextId};
use wjs_model::LoadedProgram;
use wjs_tree::{Node, NodeId};

/// The names of the functions that a script declares, and then those of its variables.
pub fn script_names(alloc: Global, script: &LoadedProgram) -> Result<Vec<TextId>, OutOfMemory>
    ensures are { IfOk result
        (λ names. (t : Table) → IsTable t → KnowsUnit t script.now → map (text_in t) names.items ≡ declared_by_tree (unit_in t script.now)) }
    ensures found { IfOk result (λ names. (t : Table) → KnowsUnit t script.now → All (Has t) names.items) }
{
    let declared = script.declared(script.program.body)?;
    let mut names = functions_named(alloc, script, declared.functions())?;
    names.extend_from_slice(declared.variables())?;
    Ok(names)
}

/// The names of the functions at these nodes.
fn functions_named(
    alloc: Global,
    script: &LoadedProgram,
    functions: &[NodeId],
) -> Result<Vec<TextId>, OutOfMemory>
    ensures are { IfOk result
        (λ names. (t : Table) → map (text_in t) names.items ≡ filter_map (λ k. name_of (node_at (unit_in t script.now) k)) (numbers functions.now)) }
    ensures found { IfOk result (λ names. (t : Table) → KnowsUnit t script.now → All (Has t) names.items) }
{
    let mut names = Vec::new(alloc);
    for function in functions {
        add_name(&mut names, script, *function)?;
    }
    Ok(names)
}

/// Puts the name of a function last, if it has one.
fn add_name(names: &mut Vec<TextId>, script: &LoadedProgram, id: NodeId) -> Result<(), OutOfMemory>
    ensures are { OnOk result
        ((t : Table) →
        map (text_in t) names.new.items ≡ map (text_in t) names.old.items ++ filter_map (λ k. name_of (node_at (unit_in t script.now) k)) (id.0 ∷ [])) }
    ensures found { OnOk result ((t : Table) → KnowsUnit t script.now → All (Has t) names.old.items → All (Has t) names.new.items) }
{
    let Some(name) = name_at(script, id) else {
        return Ok(());
    };
    names.push(name)?;
    Ok(())
}

fn name_at(script: &LoadedProgram, id: NodeId) -> Option<TextId>
    ensures is { (t : Table) → name_of (node_at (unit_in t script.now) id.0) ≡ option_map (text_in t) result }
    ensures found { (t : Table) → KnowsUnit t script.now → HasText t result }
{
    match script.node(id) {
        Some(node) => own_name(node),
        None => None,
    }
}

/// The name of a function; None where the node is no function, or has no name.
fn own_name(node: &Node) -> Option<TextId>
    ensures is { (t : Table) → name_of (node_in t node.now) ≡ option_map (text_in t) result }
    ensures found { (t : Table) → KnowsNode t node.now → HasText t result }
{
    match node {
        Node::Function(name, _, _) => *name,
        Node::FunctionDecl(name, _, _) => Some(*name),
        _ => None,
    }
}
