//! The jumps of a body, each function in it apart.
ghost use Rattle.std.specs.Prelude.{◌≡◌, suc, not, is_some, count_by, option_map};
ghost use Rattle.wjs_tree.specs.declared.node.Node.TheVariants as forms;
ghost use Rattle.wjs_tree.specs.Trees.{Stmt};
ghost use Rattle.wjs_tree.specs.Jumps.{outermost, is_loop};
ghost use Rattle.wjs_labels.specs.Around.{around_of};
ghost use Rattle.wjs_tree.specs.Forms.{IsPart};
ghost use Rattle.wjs_tree.specs.There.{StmtThere, OptionThere, StmtsThere, ClausesThere, ElementThere, ElementsThere, FormThere, IsNoIf};
ghost use Rattle.wjs_labels.specs.Answers.{StmtAnswer, OptionAnswer, StmtsAnswer, LabelAnswer, SwitchAnswer, ElementAnswer, ElementsAnswer, FormAnswer};

use crate::around::{Around, Labels, can_break, can_continue, has_label};
use wjs_base::TextId;
use wjs_tree::{Clause, Handler, Node, NodeId, Nodes};

/// Whether each jump of a body has where to go, no label stands in one of the same name, and no `switch` has two
/// defaults (ECMA-262, 3rd edition, sections 12.7 to 12.9, 12.11 and 12.12).
///
/// The elements are those of a function or, with `function` false, of a program. A function among them has a body of
/// its own, which is tested by itself. Takes no memory, and recurses as deep as the body is high.
pub fn jumps_are_right(nodes: &Nodes, elements: &[NodeId], function: bool) -> bool
    requires { ElementsThere nodes.now 200 elements.now }
    ensures { ElementsAnswer nodes.now (outermost function) elements.now result }
{
    let labels = Labels::Outermost;
    let around = Around {
        function,
        in_loop: false,
        in_switch: false,
        labels: &labels,
    };
    for element in elements {
        if !element_is_right(nodes, around, *element) {
            return false;
        }
    }
    true
}

/// The same of one element; a function has no jump of this body.
fn element_is_right(nodes: &Nodes, around: Around, id: NodeId) -> bool
    requires { ElementThere nodes.now 200 id }
    ensures { ElementAnswer nodes.now (around_of around.entry) id result }
{
    match nodes.node(id) {
        Node::FunctionDecl(_, _, _) => true,
        _ => statement_is_right(nodes, around, id, 200),
    }
}

#[cycle(jumps)]
fn statements_are_right(nodes: &Nodes, around: Around, list: &[NodeId], room: u32) -> bool
    requires { StmtsThere nodes.now room list.now }
    ensures { StmtsAnswer nodes.now (around_of around.entry) list.now result }
{
    for id in list {
        if !statement_is_right(nodes, around, *id, room) {
            return false;
        }
    }
    true
}

#[cycle(jumps)]
fn statement_is_right(nodes: &Nodes, around: Around, id: NodeId, room: u32) -> bool
    requires { StmtThere nodes.now room id }
    ensures { StmtAnswer nodes.now (around_of around.entry) id result }
{
    let mut at = id;
    // What stands behind `else` is no higher, so that a chain of them goes by a loop.
    loop {
        match nodes.node(at) {
            Node::If(_, first, other) => {
                if !statement_is_right(nodes, around, *first, room - 1) {
                    return false;
                }
                match other {
                    Some(second) => at = *second,
                    None => return true,
                }
            }
            _ => return form_is_right(nodes, around, at, room - 1),
        }
    }
}

/// The jumps of a statement that is no `if`, the statements in it no higher than `room`.
#[cycle(jumps)]
fn form_is_right(nodes: &Nodes, around: Around, id: NodeId, room: u32) -> bool
    requires there { StmtThere nodes.now (suc room) id }
    requires no_if { IsNoIf nodes.now id }
    ensures { StmtAnswer nodes.now (around_of around.entry) id result }
{
    let in_loop = Around {
        in_loop: true,
        ..around
    };
    match nodes.node(id) {
        Node::Block(body) => statements_are_right(nodes, around, body.as_slice(), room),
        Node::Continue(label, _) => can_continue(around, *label),
        Node::Break(label, _) => can_break(around, *label),
        Node::Return(_, _) => around.function,
        Node::Label(name, body) => labelled_is_right(nodes, around, *name, *body, room),
        Node::Switch(_, clauses) => switch_is_right(nodes, around, clauses.as_slice(), room),
        Node::Try(body, handler, last) => try_is_right(nodes, around, *body, *handler, *last, room),
        Node::Within(_, body) => statement_is_right(nodes, around, *body, room),
        form => match form.loop_body() {
            Some(body) => statement_is_right(nodes, in_loop, body, room),
            None => true,
        },
    }
}

#[cycle(jumps)]
fn labelled_is_right(nodes: &Nodes, around: Around, name: TextId, body: NodeId, room: u32) -> bool
    requires { StmtThere nodes.now room body }
    ensures { LabelAnswer nodes.now (around_of around.entry) name body result }
{
    if has_label(around.labels, name) {
        return false;
    }
    let labels = Labels::Within {
        name,
        is_loop: is_loop(nodes, body),
        outer: around.labels,
    };
    let inner = Around {
        labels: &labels,
        ..around
    };
    statement_is_right(nodes, inner, body, room)
}

/// Whether the statement is a loop, through further labels.
fn is_loop(nodes: &Nodes, id: NodeId) -> bool
    requires { (t : Stmt) × IsPart nodes.now t id }
    ensures { (t : Stmt) → IsPart nodes.now t id → result ≡ is_loop t }
{
    match nodes.node(id) {
        Node::Label(_, body) => is_loop(nodes, *body),
        form => form.loop_body().is_some(),
    }
}

#[cycle(jumps)]
fn switch_is_right(nodes: &Nodes, around: Around, clauses: &[Clause], room: u32) -> bool
    requires { ClausesThere nodes.now room clauses.now }
    ensures { SwitchAnswer nodes.now (around_of around.entry) clauses.now result }
{
    if default_count(clauses) > 1 {
        return false;
    }
    let inner = Around {
        in_switch: true,
        ..around
    };
    for clause in clauses {
        if !statements_are_right(nodes, inner, clause.body.as_slice(), room) {
            return false;
        }
    }
    true
}

/// How many of the clauses are `default`.
fn default_count(clauses: &[Clause]) -> usize
    ensures { result ≡ count_by (λ clause. not (is_some clause.test)) clauses.now }
{
    clauses
        .iter()
        .filter(|clause| clause.test.is_none())
        .count()
}

#[cycle(jumps)]
fn try_is_right(
    nodes: &Nodes,
    around: Around,
    body: NodeId,
    handler: Option<Handler>,
    last: Option<NodeId>,
    room: u32,
) -> bool
    requires { FormThere nodes.now room (forms.Try body handler last) }
    ensures { FormAnswer nodes.now (around_of around.entry) (forms.Try body handler last) result }
{
    if !statement_is_right(nodes, around, body, room) {
        return false;
    }
    if !optional_is_right(nodes, around, block_of(handler), room) {
        return false;
    }
    optional_is_right(nodes, around, last, room)
}

fn block_of(handler: Option<Handler>) -> Option<NodeId>
    ensures { result ≡ option_map (λ h. h.block) handler }
{
    match handler {
        Some(h) => Some(h.block),
        None => None,
    }
}

#[cycle(jumps)]
fn optional_is_right(nodes: &Nodes, around: Around, id: Option<NodeId>, room: u32) -> bool
    requires { OptionThere nodes.now room id }
    ensures { OptionAnswer nodes.now (around_of around.entry) id result }
{
    match id {
        Some(a) => statement_is_right(nodes, around, a, room),
        None => true,
    }
}
