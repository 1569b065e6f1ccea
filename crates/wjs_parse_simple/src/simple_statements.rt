//! Statements without statements in them (ECMA-262, 3rd edition, sections 12.2 to 12.4, 12.7 to 12.9 and 12.13).
ghost use Rattle.std.specs.Prelude.{◌≡◌, ◌+◌, ◌<◌, ◌≤◌, IsTrue, is_some};
ghost use Rattle.wjs_tree.specs.Shows.{Keeps};
ghost use Rattle.wjs_parse_expr.specs.Table.{Holds};
ghost use Rattle.wjs_parse_simple.specs.declared.kind.Kind.TheVariants as kinds;
ghost use Rattle.wjs_parse_simple.specs.Answers.{KindIs, StmtAnswers, PieceEnds, LabelAnswers, behind_label};
ghost use Rattle.wjs_parse_simple.specs.Made.{StmtOwn, LeafOwn};

use crate::ends::{end_at, is_joined};
use crate::parts::{Piece, Stop};
use crate::values::expression_and_end;
use crate::variables::variable_declarations;
use std::alloc::Global;
use wjs_base::{OutOfMemory, TextId};
use wjs_parse_expr::{Functions, token_at};
use wjs_tree::{Node, Nodes, Tok, Token};

/// `;`.
#[inline(never)]
pub fn empty_statement(
    toks: &[Tok],
    at: usize,
    room: u64,
    nodes: &mut Nodes,
) -> Result<Option<Piece>, OutOfMemory>
    requires below { 0 < room }
    requires kind { KindIs toks.now at kinds.Empty }
    ensures keeps { Keeps nodes.old nodes.new }
    ensures ends { PieceEnds toks.now at nodes.new result }
    ensures answer { StmtAnswers toks.now room at nodes.new result }
    ensures own { LeafOwn nodes.old nodes.new at result }
{
    let node = nodes.add(Node::Empty)?;
    Ok(Some(Piece {
        node,
        next: at + 1,
        is_open: false,
    }))
}

/// Variables and their end.
#[inline(never)]
pub fn variable_statement(
    alloc: Global,
    toks: &[Tok],
    at: usize,
    room: u64,
    functions: &Functions,
    nodes: &mut Nodes,
) -> Result<Option<Piece>, OutOfMemory>
    requires held { Holds toks.now functions.now at room nodes.old }
    requires below { 0 < room }
    requires kind { KindIs toks.now at kinds.Variables }
    ensures keeps { Keeps nodes.old nodes.new }
    ensures ends { PieceEnds toks.now at nodes.new result }
    ensures answer { StmtAnswers toks.now room at nodes.new result }
    ensures own { StmtOwn functions.now nodes.old nodes.new at result }
{
    let Some(found) = variable_declarations(alloc, toks, at + 1, false, room - 1, functions, nodes)?
    else {
        return Ok(None);
    };
    let Some(ended) = end_at(toks, found.next, found.stop) else {
        return Ok(None);
    };
    let node = nodes.add(Node::Var(found.list, ended.end))?;
    Ok(Some(Piece {
        node,
        next: ended.next,
        is_open: false,
    }))
}

/// `continue`, a label on its line or none, and the end.
#[inline(never)]
pub fn continue_statement(
    toks: &[Tok],
    at: usize,
    room: u64,
    nodes: &mut Nodes,
) -> Result<Option<Piece>, OutOfMemory>
    requires below { 0 < room }
    requires kind { KindIs toks.now at kinds.Continue }
    ensures keeps { Keeps nodes.old nodes.new }
    ensures ends { PieceEnds toks.now at nodes.new result }
    ensures answer { StmtAnswers toks.now room at nodes.new result }
    ensures own { LeafOwn nodes.old nodes.new at result }
{
    let label = label_at(toks, at + 1);
    let place = behind_label(label, at + 1);
    let Some(ended) = end_at(toks, place, Stop::Complete) else {
        return Ok(None);
    };
    let node = nodes.add(Node::Continue(label, ended.end))?;
    Ok(Some(Piece {
        node,
        next: ended.next,
        is_open: false,
    }))
}

/// `break`, a label on its line or none, and the end.
#[inline(never)]
pub fn break_statement(
    toks: &[Tok],
    at: usize,
    room: u64,
    nodes: &mut Nodes,
) -> Result<Option<Piece>, OutOfMemory>
    requires below { 0 < room }
    requires kind { KindIs toks.now at kinds.Break }
    ensures keeps { Keeps nodes.old nodes.new }
    ensures ends { PieceEnds toks.now at nodes.new result }
    ensures answer { StmtAnswers toks.now room at nodes.new result }
    ensures own { LeafOwn nodes.old nodes.new at result }
{
    let label = label_at(toks, at + 1);
    let place = behind_label(label, at + 1);
    let Some(ended) = end_at(toks, place, Stop::Complete) else {
        return Ok(None);
    };
    let node = nodes.add(Node::Break(label, ended.end))?;
    Ok(Some(Piece {
        node,
        next: ended.next,
        is_open: false,
    }))
}

/// The label at the place, where one stands on the line of the key before it.
fn label_at(toks: &[Tok], at: usize) -> Option<TextId>
    ensures { LabelAnswers toks.now at result }
{
    match token_at(toks, at) {
        Some(Token::Word(text)) => {
            if is_joined(toks, at) {
                Some(text)
            } else {
                None
            }
        }
        Some(Token::Key(_)) => None,
        Some(Token::Sign(_)) => None,
        Some(Token::Number(_)) => None,
        Some(Token::Text(_)) => None,
        None => None,
    }
}

/// The place behind a label, or behind none.
fn behind_label(label: Option<TextId>, at: usize) -> usize
    requires { IsTrue (is_some label) → at + 1 ≤ 18446744073709551615 }
    ensures { result ≡ behind_label label at }
{
    match label {
        Some(_) => at + 1,
        None => at,
    }
}

/// `return`, an expression on its line or none, and the end.
#[inline(never)]
pub fn return_statement(
    alloc: Global,
    toks: &[Tok],
    at: usize,
    room: u64,
    functions: &Functions,
    nodes: &mut Nodes,
) -> Result<Option<Piece>, OutOfMemory>
    requires held { Holds toks.now functions.now at room nodes.old }
    requires below { 0 < room }
    requires kind { KindIs toks.now at kinds.Return }
    ensures keeps { Keeps nodes.old nodes.new }
    ensures ends { PieceEnds toks.now at nodes.new result }
    ensures answer { StmtAnswers toks.now room at nodes.new result }
    ensures own { StmtOwn functions.now nodes.old nodes.new at result }
{
    if let Some(ended) = end_at(toks, at + 1, Stop::Complete) {
        let node = nodes.add(Node::Return(None, ended.end))?;
        return Ok(Some(Piece {
            node,
            next: ended.next,
            is_open: false,
        }));
    }
    if !is_joined(toks, at + 1) {
        return Ok(None);
    }
    let Some(value) = expression_and_end(alloc, toks, at + 1, room - 1, functions, nodes)? else {
        return Ok(None);
    };
    let node = nodes.add(Node::Return(Some(value.node), value.end))?;
    Ok(Some(Piece {
        node,
        next: value.next,
        is_open: false,
    }))
}

/// `throw`, an expression on its line, and the end.
#[inline(never)]
pub fn throw_statement(
    alloc: Global,
    toks: &[Tok],
    at: usize,
    room: u64,
    functions: &Functions,
    nodes: &mut Nodes,
) -> Result<Option<Piece>, OutOfMemory>
    requires held { Holds toks.now functions.now at room nodes.old }
    requires below { 0 < room }
    requires kind { KindIs toks.now at kinds.Throw }
    ensures keeps { Keeps nodes.old nodes.new }
    ensures ends { PieceEnds toks.now at nodes.new result }
    ensures answer { StmtAnswers toks.now room at nodes.new result }
    ensures own { StmtOwn functions.now nodes.old nodes.new at result }
{
    if !is_joined(toks, at + 1) {
        return Ok(None);
    }
    let Some(value) = expression_and_end(alloc, toks, at + 1, room - 1, functions, nodes)? else {
        return Ok(None);
    };
    let node = nodes.add(Node::Throw(value.node, value.end))?;
    Ok(Some(Piece {
        node,
        next: value.next,
        is_open: false,
    }))
}

/// An expression and its end.
#[inline(never)]
pub fn expression_statement(
    alloc: Global,
    toks: &[Tok],
    at: usize,
    room: u64,
    functions: &Functions,
    nodes: &mut Nodes,
) -> Result<Option<Piece>, OutOfMemory>
    requires held { Holds toks.now functions.now at room nodes.old }
    requires below { 0 < room }
    requires kind { KindIs toks.now at kinds.Plain }
    ensures keeps { Keeps nodes.old nodes.new }
    ensures ends { PieceEnds toks.now at nodes.new result }
    ensures answer { StmtAnswers toks.now room at nodes.new result }
    ensures own { StmtOwn functions.now nodes.old nodes.new at result }
{
    let Some(value) = expression_and_end(alloc, toks, at, room - 1, functions, nodes)? else {
        return Ok(None);
    };
    let node = nodes.add(Node::Expr(value.node, value.end))?;
    Ok(Some(Piece {
        node,
        next: value.next,
        is_open: false,
    }))
}
