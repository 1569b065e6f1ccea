//! The declarations of a body.
ghost use Rattle.std.specs.Prelude.{◌≡◌, ◌<◌, [], ◌++◌, length, slice_get, IfOk, OnOk};
ghost use Rattle.wjs_tree.specs.declared.node.Node.{Node};
ghost use Rattle.wjs_tree.specs.Trees.{Elements};
ghost use Rattle.wjs_tree.specs.Shows.{Has};
ghost use Rattle.wjs_scope.specs.Declarations.{is_declaration, formals_of, elements_of, functions_among, variables, with_names};
ghost use Rattle.wjs_scope.specs.Scopes.{declared_name, none_of, some_name, function_names, function_scope};
ghost use Rattle.wjs_tree.specs.Forms.{AreElements};
ghost use Rattle.wjs_tree.specs.There.{ElementsThere, ElementThere};
ghost use Rattle.wjs_scope.specs.Answers.{BodyThere, ElementAdds};
ghost use Rattle.wjs_scope.specs.Bodies.{others_in};

use crate::declarations::Declarations;
use crate::names::NameSet;
use crate::walk::statement;
use std::alloc::Global;
use wjs_base::{OutOfMemory, TextId};
use wjs_tree::{Node, NodeId, Nodes, Sequence};

/// What the body of a script or a function declares, with the number of the text `arguments`, where it has one.
pub(crate) fn declared(
    alloc: Global,
    arguments: Option<TextId>,
    nodes: &Nodes,
    body: NodeId,
) -> Result<Declarations, OutOfMemory>
    requires { BodyThere nodes.now body }
    ensures formals { IfOk result (λ d. (node : Node) → Has nodes.now body node → d.formals ≡ formals_of node) }
    ensures functions { IfOk result (λ d. (node : Node) → Has nodes.now body node → d.functions ≡ functions_among nodes.now (elements_of node)) }
    ensures vars { IfOk result (λ d. (node : Node) (t : Elements) → Has nodes.now body node
        → AreElements nodes.now t (elements_of node) → d.variables ≡ variables t) }
    ensures others { IfOk result (λ d. (node : Node) → Has nodes.now body node → d.others ≡ others_in nodes.now arguments node d.variables) }
{
    match nodes.node(body) {
        Node::Program(elements) => of_body(alloc, arguments, nodes, &[], elements.as_slice()),
        Node::Function(_, formals, elements) => of_body(
            alloc,
            arguments,
            nodes,
            formals.as_slice(),
            elements.as_slice(),
        ),
        Node::FunctionDecl(_, formals, elements) => of_body(
            alloc,
            arguments,
            nodes,
            formals.as_slice(),
            elements.as_slice(),
        ),
        _ => unreachable!(),
    }
}

fn of_body(
    alloc: Global,
    arguments: Option<TextId>,
    nodes: &Nodes,
    formals: &[TextId],
    elements: &[NodeId],
) -> Result<Declarations, OutOfMemory>
    requires { ElementsThere nodes.now 200 elements.now }
    ensures formals { IfOk result (λ d. d.formals ≡ formals.now) }
    ensures functions { IfOk result (λ d. d.functions ≡ functions_among nodes.now elements.now) }
    ensures vars { IfOk result (λ d. (t : Elements) → AreElements nodes.now t elements.now → d.variables ≡ variables t) }
    ensures others { IfOk result (λ d. d.others ≡ none_of (some_name arguments ++ (formals.now ++ function_names nodes.now elements.now)) d.variables) }
{
    let functions = functions_of(alloc, nodes, elements)?;
    let vars = variables_of(alloc, nodes, elements)?;
    let others = others_of(alloc, arguments, formals, nodes, elements, vars.as_slice())?;
    let formals = Vec::from_slice(alloc, formals)?;
    Ok(Declarations {
        formals: Sequence::from_vec(formals),
        functions,
        variables: vars,
        others,
    })
}

/// Those of the variables that are neither `arguments`, nor a formal, nor the name of a function among the elements.
fn others_of(
    alloc: Global,
    arguments: Option<TextId>,
    formals: &[TextId],
    nodes: &Nodes,
    elements: &[NodeId],
    vars: &[TextId],
) -> Result<Sequence<TextId>, OutOfMemory>
    requires { ElementsThere nodes.now 200 elements.now }
    ensures { IfOk result (λ others. others ≡ none_of (some_name arguments ++ (formals.now ++ function_names nodes.now elements.now)) vars.now) }
{
    match vars {
        [] => Ok(Sequence::from_vec(Vec::new(alloc))),
        _ => {
            let taken = first_names(alloc, arguments, formals, nodes, elements)?;
            taken.absent(alloc, vars)
        }
    }
}

fn functions_of(
    alloc: Global,
    nodes: &Nodes,
    elements: &[NodeId],
) -> Result<Sequence<NodeId>, OutOfMemory>
    requires { ElementsThere nodes.now 200 elements.now }
    ensures { IfOk result (λ list. list ≡ functions_among nodes.now elements.now) }
{
    let mut functions = Vec::new(alloc);
    for element in elements {
        if is_function(nodes, *element) {
            functions.push(*element)?;
        }
    }
    Ok(Sequence::from_vec(functions))
}

fn is_function(nodes: &Nodes, id: NodeId) -> bool
    requires { id.0 < length nodes.now }
    ensures { result ≡ is_declaration (slice_get nodes.now id.0) }
{
    match nodes.node(id) {
        Node::FunctionDecl(_, _, _) => true,
        _ => false,
    }
}

fn variables_of(
    alloc: Global,
    nodes: &Nodes,
    elements: &[NodeId],
) -> Result<Sequence<TextId>, OutOfMemory>
    requires { ElementsThere nodes.now 200 elements.now }
    ensures { IfOk result (λ list. (t : Elements) → AreElements nodes.now t elements.now → list ≡ variables t) }
{
    let mut vars = NameSet::new(alloc);
    for element in elements {
        element_names(nodes, *element, &mut vars)?;
    }
    vars.to_sequence(alloc)
}

fn element_names(nodes: &Nodes, id: NodeId, vars: &mut NameSet) -> Result<(), OutOfMemory>
    requires { ElementThere nodes.now 200 id }
    ensures { OnOk result (ElementAdds nodes.now id vars.old vars.new) }
{
    match nodes.node(id) {
        Node::FunctionDecl(_, _, _) => Ok(()),
        _ => statement(nodes, id, 200, vars),
    }
}

/// The names of the scope of a function: `arguments`, its formals, its functions and its variables.
pub fn body_names(
    alloc: Global,
    arguments: Option<TextId>,
    formals: &[TextId],
    nodes: &Nodes,
    elements: &[NodeId],
) -> Result<NameSet, OutOfMemory>
    requires { ElementsThere nodes.now 200 elements.now }
    ensures { IfOk result (λ names. (t : Elements) → AreElements nodes.now t elements.now
        → names ≡ function_scope arguments formals.now (function_names nodes.now elements.now) (variables t)) }
{
    let vars = variables_of(alloc, nodes, elements)?;
    let mut names = first_names(alloc, arguments, formals, nodes, elements)?;
    names.add_all(vars.as_slice())?;
    Ok(names)
}

/// The names of the scope of a function but for its variables.
fn first_names(
    alloc: Global,
    arguments: Option<TextId>,
    formals: &[TextId],
    nodes: &Nodes,
    elements: &[NodeId],
) -> Result<NameSet, OutOfMemory>
    requires { ElementsThere nodes.now 200 elements.now }
    ensures { IfOk result (λ names. names ≡ function_scope arguments formals.now (function_names nodes.now elements.now) []) }
{
    let mut names = NameSet::new(alloc);
    names.add_option(arguments)?;
    names.add_all(formals)?;
    add_functions(nodes, elements, &mut names)?;
    Ok(names)
}

fn add_functions(nodes: &Nodes, elements: &[NodeId], names: &mut NameSet) -> Result<(), OutOfMemory>
    requires { ElementsThere nodes.now 200 elements.now }
    ensures { OnOk result (names.new ≡ with_names names.old (function_names nodes.now elements.now)) }
{
    for element in elements {
        add_function(nodes, *element, names)?;
    }
    Ok(())
}

fn add_function(nodes: &Nodes, id: NodeId, names: &mut NameSet) -> Result<(), OutOfMemory>
    requires { id.0 < length nodes.now }
    ensures { OnOk result (names.new ≡ with_names names.old (declared_name (slice_get nodes.now id.0))) }
{
    match nodes.node(id) {
        Node::FunctionDecl(name, _, _) => names.add(*name),
        _ => Ok(()),
    }
}
