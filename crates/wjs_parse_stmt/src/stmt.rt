//! Statements (ECMA-262, 3rd edition, section 12).
ghost use Rattle.std.specs.Prelude.{◌≡◌, ◌+◌, ◌-◌, ◌<◌, ◌≤◌, length, IsTrue, is_some};
ghost use Rattle.wjs_tree.specs.Ends.{HasKey};
ghost use Rattle.wjs_tree.specs.declared.keys.Key.TheVariants as keys;
ghost use Rattle.wjs_tree.specs.Shows.{Keeps};
ghost use Rattle.wjs_parse_expr.specs.Table.{Holds};
ghost use Rattle.wjs_parse_simple.specs.declared.kind.Kind.TheVariants as kinds;
ghost use Rattle.wjs_parse_simple.specs.Answers.{KindIs, StmtAnswers, PieceEnds};
ghost use Rattle.wjs_parse_simple.specs.Made.{StmtOwn};

use crate::branch::{if_statement, switch_statement, try_statement};
use crate::iteration::{do_while_statement, for_statement, while_statement};
use crate::lists::block;
use std::alloc::Global;
use wjs_base::{OutOfMemory, TextId};
use wjs_parse_expr::{Functions, has_key};
use wjs_parse_simple::{
    Kind, Piece, break_statement, continue_statement, empty_statement, expression_statement,
    expression_up_to, kind_at, return_statement, throw_statement, variable_statement,
};
use wjs_tree::{Key, Node, Nodes, Sign, Tok};

/// The statement from the place of at most the height `room`: any other that is read there could be longer. None exactly
/// where none is read there, but such that could be longer. No node stands at two places of it, and each is new or one of
/// a function that was read before within its tokens.
#[cycle(statement)]
pub fn statement(
    alloc: Global,
    toks: &[Tok],
    at: usize,
    room: u64,
    functions: &Functions,
    nodes: &mut Nodes,
) -> Result<Option<Piece>, OutOfMemory>
    requires held { Holds toks.now functions.now at room nodes.old }
    ensures keeps { Keeps nodes.old nodes.new }
    ensures ends { PieceEnds toks.now at nodes.new result }
    ensures answer { StmtAnswers toks.now room at nodes.new result }
    ensures own { StmtOwn functions.now nodes.old nodes.new at result }
{
    if room == 0 {
        return Ok(None);
    }
    if has_key(toks, at, Key::If) {
        return if_statement(alloc, toks, at, room, functions, nodes);
    }
    statement_by_kind(alloc, toks, at, room, functions, nodes)
}

/// The statement from the place, by its kind, where it is no `if`.
#[cycle(statement)]
#[inline(always)]
pub fn statement_by_kind(
    alloc: Global,
    toks: &[Tok],
    at: usize,
    room: u64,
    functions: &Functions,
    nodes: &mut Nodes,
) -> Result<Option<Piece>, OutOfMemory>
    requires held { Holds toks.now functions.now at room nodes.old }
    requires below { 0 < room }
    requires no_if { HasKey toks.now at keys.If → ⊥ }
    ensures keeps { Keeps nodes.old nodes.new }
    ensures ends { PieceEnds toks.now at nodes.new result }
    ensures answer { StmtAnswers toks.now room at nodes.new result }
    ensures own { StmtOwn functions.now nodes.old nodes.new at result }
{
    match kind_at(toks, at) {
        Kind::Block => block_statement(alloc, toks, at, room, functions, nodes),
        Kind::Variables => variable_statement(alloc, toks, at, room, functions, nodes),
        Kind::Empty => empty_statement(toks, at, room, nodes),
        Kind::If => Ok(None),
        Kind::Do => do_while_statement(alloc, toks, at, room, functions, nodes),
        Kind::While => while_statement(alloc, toks, at, room, functions, nodes),
        Kind::For => for_statement(alloc, toks, at, room, functions, nodes),
        Kind::Continue => continue_statement(toks, at, room, nodes),
        Kind::Break => break_statement(toks, at, room, nodes),
        Kind::Return => return_statement(alloc, toks, at, room, functions, nodes),
        Kind::Throw => throw_statement(alloc, toks, at, room, functions, nodes),
        Kind::Label(text) => labelled_statement(alloc, toks, at, text, room, functions, nodes),
        Kind::Switch => switch_statement(alloc, toks, at, room, functions, nodes),
        Kind::Try => try_statement(alloc, toks, at, room, functions, nodes),
        Kind::Within => within_statement(alloc, toks, at, room, functions, nodes),
        Kind::Nothing => Ok(None),
        Kind::Plain => expression_statement(alloc, toks, at, room, functions, nodes),
    }
}

/// A statement in braces.
#[cycle(statement)]
#[inline(never)]
fn block_statement(
    alloc: Global,
    toks: &[Tok],
    at: usize,
    room: u64,
    functions: &Functions,
    nodes: &mut Nodes,
) -> Result<Option<Piece>, OutOfMemory>
    requires held { Holds toks.now functions.now at room nodes.old }
    requires below { 0 < room }
    requires kind { KindIs toks.now at kinds.Block }
    ensures keeps { Keeps nodes.old nodes.new }
    ensures ends { PieceEnds toks.now at nodes.new result }
    ensures answer { StmtAnswers toks.now room at nodes.new result }
    ensures own { StmtOwn functions.now nodes.old nodes.new at result }
{
    let Some(found) = block(alloc, toks, at, room, functions, nodes)? else {
        return Ok(None);
    };
    Ok(Some(Piece {
        node: found.node,
        next: found.next,
        is_open: false,
    }))
}

/// A statement behind a label.
#[cycle(statement)]
#[inline(never)]
fn labelled_statement(
    alloc: Global,
    toks: &[Tok],
    at: usize,
    text: TextId,
    room: u64,
    functions: &Functions,
    nodes: &mut Nodes,
) -> Result<Option<Piece>, OutOfMemory>
    requires held { Holds toks.now functions.now at room nodes.old }
    requires below { 0 < room }
    requires kind { KindIs toks.now at (kinds.Label text) }
    ensures keeps { Keeps nodes.old nodes.new }
    ensures ends { PieceEnds toks.now at nodes.new result }
    ensures answer { StmtAnswers toks.now room at nodes.new result }
    ensures own { StmtOwn functions.now nodes.old nodes.new at result }
{
    let Some(body) = statement(alloc, toks, at + 2, room - 1, functions, nodes)? else {
        return Ok(None);
    };
    let node = nodes.add(Node::Label(text, body.node))?;
    Ok(Some(Piece {
        node,
        next: body.next,
        is_open: body.is_open,
    }))
}

/// `in`, an expression, and the block that runs in its world.
#[cycle(statement)]
#[inline(never)]
fn within_statement(
    alloc: Global,
    toks: &[Tok],
    at: usize,
    room: u64,
    functions: &Functions,
    nodes: &mut Nodes,
) -> Result<Option<Piece>, OutOfMemory>
    requires held { Holds toks.now functions.now at room nodes.old }
    requires below { 0 < room }
    requires kind { KindIs toks.now at kinds.Within }
    ensures keeps { Keeps nodes.old nodes.new }
    ensures ends { PieceEnds toks.now at nodes.new result }
    ensures answer { StmtAnswers toks.now room at nodes.new result }
    ensures own { StmtOwn functions.now nodes.old nodes.new at result }
{
    let Some(world) = expression_up_to(
        alloc,
        toks,
        at + 1,
        Sign::OpenBrace,
        room - 1,
        functions,
        nodes,
    )?
    else {
        return Ok(None);
    };
    let Some(body) = block(alloc, toks, world.next, room - 1, functions, nodes)? else {
        return Ok(None);
    };
    let node = nodes.add(Node::Within(world.node, body.node))?;
    Ok(Some(Piece {
        node,
        next: body.next,
        is_open: false,
    }))
}
