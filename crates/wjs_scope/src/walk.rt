//! The names that statements declare.
ghost use Rattle.std.specs.Prelude.{◌≡◌, suc, OnOk, option_map};
ghost use Rattle.wjs_tree.specs.declared.node.Node.TheVariants as forms;
ghost use Rattle.wjs_tree.specs.There.{StmtThere, OptionThere, StmtsThere, ClausesThere, FormThere, IsNoIf};
ghost use Rattle.wjs_scope.specs.Answers.{StmtAdds, OptionAdds, StmtsAdds, ClausesAdd, FormAdds, VariablesAdd, InitAdds};

use crate::names::NameSet;
use wjs_base::OutOfMemory;
use wjs_tree::{Clause, Declarator, ForInit, Handler, Node, NodeId, Nodes};

#[cycle(walk)]
fn statements(
    nodes: &Nodes,
    list: &[NodeId],
    room: u32,
    vars: &mut NameSet,
) -> Result<(), OutOfMemory>
    requires { StmtsThere nodes.now room list.now }
    ensures { OnOk result (StmtsAdds nodes.now list.now vars.old vars.new) }
{
    for id in list {
        statement(nodes, *id, room, vars)?;
    }
    Ok(())
}

/// Adds the names that a statement of at most this height declares.
#[cycle(walk)]
pub fn statement(
    nodes: &Nodes,
    id: NodeId,
    room: u32,
    vars: &mut NameSet,
) -> Result<(), OutOfMemory>
    requires { StmtThere nodes.now room id }
    ensures { OnOk result (StmtAdds nodes.now id vars.old vars.new) }
{
    let mut at = id;
    // What stands behind `else` is no higher, so that a chain of them goes by a loop.
    loop {
        match nodes.node(at) {
            Node::If(_, first, other) => {
                statement(nodes, *first, room - 1, vars)?;
                match other {
                    Some(second) => at = *second,
                    None => return Ok(()),
                }
            }
            _ => return form(nodes, at, room - 1, vars),
        }
    }
}

/// The same of a statement that is no `if`, the statements in it no higher than `room`.
#[cycle(walk)]
fn form(nodes: &Nodes, id: NodeId, room: u32, vars: &mut NameSet) -> Result<(), OutOfMemory>
    requires there { StmtThere nodes.now (suc room) id }
    requires no_if { IsNoIf nodes.now id }
    ensures { OnOk result (StmtAdds nodes.now id vars.old vars.new) }
{
    match nodes.node(id) {
        Node::Block(body) => statements(nodes, body.as_slice(), room, vars),
        Node::Var(list, _) => declarators(list.as_slice(), vars),
        Node::DoWhile(body, _, _) => statement(nodes, *body, room, vars),
        Node::While(_, body) => statement(nodes, *body, room, vars),
        Node::For(init, _, _, body) => {
            initial(init, vars)?;
            statement(nodes, *body, room, vars)
        }
        Node::ForIn(_, _, body) => statement(nodes, *body, room, vars),
        Node::ForVarIn(name, _, body) => {
            vars.add(*name)?;
            statement(nodes, *body, room, vars)
        }
        Node::Label(_, body) => statement(nodes, *body, room, vars),
        Node::Switch(_, list) => clauses(nodes, list.as_slice(), room, vars),
        Node::Try(body, handler, last) => tried(nodes, *body, *handler, *last, room, vars),
        Node::Within(_, body) => statement(nodes, *body, room, vars),
        _ => Ok(()),
    }
}

fn initial(init: &ForInit, vars: &mut NameSet) -> Result<(), OutOfMemory>
    ensures { OnOk result (InitAdds init.now vars.old vars.new) }
{
    match init {
        ForInit::Var(list) => declarators(list.as_slice(), vars),
        _ => Ok(()),
    }
}

fn declarators(list: &[Declarator], vars: &mut NameSet) -> Result<(), OutOfMemory>
    ensures { OnOk result (VariablesAdd list.now vars.old vars.new) }
{
    for declarator in list {
        vars.add(declarator.name)?;
    }
    Ok(())
}

#[cycle(walk)]
fn clauses(nodes: &Nodes, list: &[Clause], room: u32, vars: &mut NameSet) -> Result<(), OutOfMemory>
    requires { ClausesThere nodes.now room list.now }
    ensures { OnOk result (ClausesAdd nodes.now list.now vars.old vars.new) }
{
    for clause in list {
        statements(nodes, clause.body.as_slice(), room, vars)?;
    }
    Ok(())
}

#[cycle(walk)]
fn tried(
    nodes: &Nodes,
    body: NodeId,
    handler: Option<Handler>,
    last: Option<NodeId>,
    room: u32,
    vars: &mut NameSet,
) -> Result<(), OutOfMemory>
    requires { FormThere nodes.now room (forms.Try body handler last) }
    ensures { OnOk result (FormAdds nodes.now (forms.Try body handler last) vars.old vars.new) }
{
    statement(nodes, body, room, vars)?;
    optional(nodes, block_of(handler), room, vars)?;
    optional(nodes, last, room, vars)
}

fn block_of(handler: Option<Handler>) -> Option<NodeId>
    ensures { result ≡ option_map (λ h. h.block) handler }
{
    match handler {
        Some(h) => Some(h.block),
        None => None,
    }
}

#[cycle(walk)]
fn optional(
    nodes: &Nodes,
    id: Option<NodeId>,
    room: u32,
    vars: &mut NameSet,
) -> Result<(), OutOfMemory>
    requires { OptionThere nodes.now room id }
    ensures { OnOk result (OptionAdds nodes.now id vars.old vars.new) }
{
    match id {
        Some(a) => statement(nodes, a, room, vars),
        None => Ok(()),
    }
}
