//! Elements of programs and functions: statements, and functions with names (ECMA-262, 3rd edition, sections 13 and 14).
ghost use Rattle.std.specs.Prelude.{◌≡◌, ◌<◌, length, IfOk};
ghost use Rattle.wjs_tree.specs.Ends.{HasKey};
ghost use Rattle.wjs_tree.specs.Shows.{Keeps};
ghost use Rattle.wjs_tree.specs.declared.keys.Key.TheVariants as keys;
ghost use Rattle.wjs_parse_expr.specs.Table.{Holds, MayBegin};
ghost use Rattle.wjs_parse_stmt.specs.Answers.{ListEnds};
ghost use Rattle.wjs_parse.specs.Answers.{ElementsAnswers, ElementAnswers, DeclaredAnswers, DeclaredBelow, FoundEnds};
ghost use Rattle.wjs_parse.specs.Made.{ElementsOwn, ElementOwn};

use std::alloc::Global;
use wjs_base::OutOfMemory;
use wjs_parse_expr::{Found, Functions, has_key};
use wjs_parse_simple::{is_closed, push_last};
use wjs_parse_stmt::{Listed, statement};
use wjs_tree::{Key, Node, NodeId, Nodes, Sequence, Tok};

/// The elements from the place up to a token that closes them, of at most the height `room`: no others are read there.
/// None exactly where none are. No node stands at two places of them, and each is new or one of a function that was read
/// before within their tokens.
pub fn source_elements(
    alloc: Global,
    toks: &[Tok],
    at: usize,
    room: u64,
    functions: &Functions,
    nodes: &mut Nodes,
) -> Result<Option<Listed>, OutOfMemory>
    requires held { Holds toks.now functions.now at room nodes.old }
    requires may_begin { MayBegin toks.now at }
    ensures keeps { Keeps nodes.old nodes.new }
    ensures ends { ListEnds toks.now at nodes.new result }
    ensures answer { ElementsAnswers toks.now room at nodes.new result }
    ensures own { ElementsOwn functions.now nodes.old nodes.new at result }
{
    let mut list: Vec<NodeId> = Vec::new(alloc);
    let mut place = at;
    while !is_closed(toks, place) {
        let Some(item) = source_element(alloc, toks, place, room, functions, nodes)? else {
            return Ok(None);
        };
        push_last(&mut list, item.node)?;
        place = item.next;
    }
    Ok(Some(Listed {
        list: Sequence::from_vec(list),
        next: place,
    }))
}

/// An element.
fn source_element(
    alloc: Global,
    toks: &[Tok],
    at: usize,
    room: u64,
    functions: &Functions,
    nodes: &mut Nodes,
) -> Result<Option<Found>, OutOfMemory>
    requires held { Holds toks.now functions.now at room nodes.old }
    requires may_begin { MayBegin toks.now at }
    ensures keeps { Keeps nodes.old nodes.new }
    ensures ends { FoundEnds toks.now at nodes.new result }
    ensures answer { ElementAnswers toks.now room at nodes.new result }
    ensures own { ElementOwn functions.now nodes.old nodes.new at result }
{
    if has_key(toks, at, Key::Function) {
        return function_declaration(alloc, toks, at, room, functions, nodes);
    }
    let Some(found) = statement(alloc, toks, at, room, functions, nodes)? else {
        return Ok(None);
    };
    Ok(Some(Found {
        node: found.node,
        next: found.next,
    }))
}

/// The function that is read already at the place, as an element.
fn function_declaration(
    alloc: Global,
    toks: &[Tok],
    at: usize,
    room: u64,
    functions: &Functions,
    nodes: &mut Nodes,
) -> Result<Option<Found>, OutOfMemory>
    requires held { Holds toks.now functions.now at room nodes.old }
    requires may_begin { MayBegin toks.now at }
    requires key { HasKey toks.now at keys.Function }
    ensures keeps { Keeps nodes.old nodes.new }
    ensures ends { FoundEnds toks.now at nodes.new result }
    ensures answer { ElementAnswers toks.now room at nodes.new result }
    ensures own { ElementOwn functions.now nodes.old nodes.new at result }
{
    let Some((function, next)) = functions.at(at) else {
        return Ok(None);
    };
    if nodes.height(function) > room {
        return Ok(None);
    }
    let Some(made) = declaration_of(alloc, nodes, function)? else {
        return Ok(None);
    };
    let node = nodes.add(made)?;
    Ok(Some(Found { node, next }))
}

/// The element with the name, the formals and the body of a function; none exactly where it has no name.
fn declaration_of(
    alloc: Global,
    nodes: &Nodes,
    function: NodeId,
) -> Result<Option<Node>, OutOfMemory>
    requires there { function.0 < length nodes.now }
    ensures below { DeclaredBelow (length nodes.now) result }
    ensures answer { DeclaredAnswers nodes.now function result }
{
    match nodes.node(function) {
        Node::Function(Some(name), formals, body) => Ok(Some(Node::FunctionDecl(
            *name,
            copied(alloc, formals)?,
            copied(alloc, body)?,
        ))),
        _ => Ok(None),
    }
}

fn copied<T: Copy + Drop>(alloc: Global, list: &Sequence<T>) -> Result<Sequence<T>, OutOfMemory>
    ensures { IfOk result (λ copy. copy ≡ list.now) }
{
    let items = Vec::from_slice(alloc, list.as_slice())?;
    Ok(Sequence::from_vec(items))
}
