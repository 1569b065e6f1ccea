//! `if`, `switch` and `try` (ECMA-262, 3rd edition, sections 12.5, 12.11 and 12.14).
ghost use Rattle.std.specs.Prelude.{◌≡◌, ◌+◌, ◌<◌};
ghost use Rattle.wjs_tree.specs.Shows.{Keeps};
ghost use Rattle.wjs_parse_expr.specs.Table.{Holds};
ghost use Rattle.wjs_parse_simple.specs.declared.kind.Kind.TheVariants as kinds;
ghost use Rattle.std.specs.Prelude.{◌-◌};
ghost use Rattle.wjs_tree.specs.Ends.{HasKey};
ghost use Rattle.wjs_tree.specs.declared.keys.Key.TheVariants as keys;
ghost use Rattle.wjs_parse_simple.specs.Answers.{KindIs, StmtAnswers, PieceEnds, MaybeAnswers, MaybeEnds, EndsBy};
ghost use Rattle.wjs_parse_stmt.specs.Answers.{FindsBlock};
ghost use Rattle.wjs_parse_stmt.specs.Branches.{BranchAnswers, BranchEnds, HandlerAnswers, HandlerEnds, ArmAnswers, ArmEnds, ClausesAnswers, ClausesEnds};
ghost use Rattle.wjs_parse_simple.specs.Made.{StmtOwn, MaybeOwn};
ghost use Rattle.wjs_parse_stmt.specs.Readings.{ClauseHead};
ghost use Rattle.wjs_parse_stmt.specs.Made.{BranchOwn, ClausesOwn, ArmOwn, HandlerOwn, BehindBlock};

use crate::chain::chain_ifs;
use crate::lists::{block, statements};
use crate::parts::{Arm, Branch, Handled, ListedClauses};
use crate::stmt::{statement, statement_by_kind};
use std::alloc::Global;
use wjs_base::OutOfMemory;
use wjs_parse_expr::{Functions, has_key, has_sign};
use wjs_parse_simple::{
    Maybe, Piece, Spot, expression_up_to, parenthesized_expression, push_last, word_at,
};
use wjs_tree::{Clause, Handler, Key, Node, Nodes, Sequence, Sign, Tok};

/// `if`, with all that stands behind its `else`s.
#[cycle(statement)]
#[inline(never)]
pub fn if_statement(
    alloc: Global,
    toks: &[Tok],
    at: usize,
    room: u64,
    functions: &Functions,
    nodes: &mut Nodes,
) -> Result<Option<Piece>, OutOfMemory>
    requires held { Holds toks.now functions.now at room nodes.old }
    requires below { 0 < room }
    requires key { HasKey toks.now at keys.If }
    ensures keeps { Keeps nodes.old nodes.new }
    ensures ends { PieceEnds toks.now at nodes.new result }
    ensures answer { StmtAnswers toks.now room at nodes.new result }
    ensures own { StmtOwn functions.now nodes.old nodes.new at result }
{
    let mut heads: Vec<Branch> = Vec::new(alloc);
    let mut place = at;
    while has_key(toks, place, Key::If) {
        let Some(head) = branch(alloc, toks, place, room - 1, functions, nodes)? else {
            return Ok(None);
        };
        if !has_key(toks, head.next, Key::Else) {
            let last = nodes.add(Node::If(head.test, head.body, None))?;
            let node = chain_ifs(heads, last, nodes)?;
            return Ok(Some(Piece {
                node,
                next: head.next,
                is_open: true,
            }));
        }
        if head.is_open {
            return Ok(None);
        }
        push_last(&mut heads, head)?;
        place = head.next + 1;
    }
    let Some(last) = statement_by_kind(alloc, toks, place, room, functions, nodes)? else {
        return Ok(None);
    };
    let node = chain_ifs(heads, last.node, nodes)?;
    Ok(Some(Piece {
        node,
        next: last.next,
        is_open: last.is_open,
    }))
}

/// The test and the statement of an `if`.
#[cycle(statement)]
fn branch(
    alloc: Global,
    toks: &[Tok],
    at: usize,
    room: u64,
    functions: &Functions,
    nodes: &mut Nodes,
) -> Result<Option<Branch>, OutOfMemory>
    requires held { Holds toks.now functions.now at room nodes.old }
    requires key { HasKey toks.now at keys.If }
    ensures keeps { Keeps nodes.old nodes.new }
    ensures ends { BranchEnds toks.now at nodes.new result }
    ensures answer { BranchAnswers toks.now room at nodes.new result }
    ensures own { BranchOwn functions.now nodes.old nodes.new at result }
{
    let Some(test) = parenthesized_expression(alloc, toks, at + 1, room, functions, nodes)? else {
        return Ok(None);
    };
    let Some(body) = statement(alloc, toks, test.next, room, functions, nodes)? else {
        return Ok(None);
    };
    Ok(Some(Branch {
        test: test.node,
        body: body.node,
        next: body.next,
        is_open: body.is_open,
    }))
}

/// `switch`.
#[cycle(statement)]
#[inline(never)]
pub fn switch_statement(
    alloc: Global,
    toks: &[Tok],
    at: usize,
    room: u64,
    functions: &Functions,
    nodes: &mut Nodes,
) -> Result<Option<Piece>, OutOfMemory>
    requires held { Holds toks.now functions.now at room nodes.old }
    requires below { 0 < room }
    requires kind { KindIs toks.now at kinds.Switch }
    ensures keeps { Keeps nodes.old nodes.new }
    ensures ends { PieceEnds toks.now at nodes.new result }
    ensures answer { StmtAnswers toks.now room at nodes.new result }
    ensures own { StmtOwn functions.now nodes.old nodes.new at result }
{
    let Some(test) = parenthesized_expression(alloc, toks, at + 1, room - 1, functions, nodes)?
    else {
        return Ok(None);
    };
    if !has_sign(toks, test.next, Sign::OpenBrace) {
        return Ok(None);
    }
    let Some(found) = case_clauses(alloc, toks, test.next + 1, room - 1, functions, nodes)? else {
        return Ok(None);
    };
    let next = found.next + 1;
    let node = nodes.add(Node::Switch(test.node, found.list))?;
    Ok(Some(Piece {
        node,
        next,
        is_open: false,
    }))
}

/// Clauses up to the closing brace.
#[cycle(statement)]
fn case_clauses(
    alloc: Global,
    toks: &[Tok],
    at: usize,
    room: u64,
    functions: &Functions,
    nodes: &mut Nodes,
) -> Result<Option<ListedClauses>, OutOfMemory>
    requires held { Holds toks.now functions.now at room nodes.old }
    ensures keeps { Keeps nodes.old nodes.new }
    ensures ends { ClausesEnds toks.now at nodes.new result }
    ensures answer { ClausesAnswers toks.now room at nodes.new result }
    ensures own { ClausesOwn functions.now nodes.old nodes.new at result }
{
    let mut list: Vec<Clause> = Vec::new(alloc);
    let mut place = at;
    while !has_sign(toks, place, Sign::CloseBrace) {
        let Some(item) = case_clause(alloc, toks, place, room, functions, nodes)? else {
            return Ok(None);
        };
        place = item.next;
        push_last(&mut list, item.clause)?;
    }
    Ok(Some(ListedClauses {
        list: Sequence::from_vec(list),
        next: place,
    }))
}

/// One clause.
#[cycle(statement)]
fn case_clause(
    alloc: Global,
    toks: &[Tok],
    at: usize,
    room: u64,
    functions: &Functions,
    nodes: &mut Nodes,
) -> Result<Option<Arm>, OutOfMemory>
    requires held { Holds toks.now functions.now at room nodes.old }
    ensures keeps { Keeps nodes.old nodes.new }
    ensures ends { ArmEnds toks.now at nodes.new result }
    ensures answer { ArmAnswers toks.now room at nodes.new result }
    ensures own { ArmOwn functions.now nodes.old nodes.new at result }
{
    let Some(head) = case_head(alloc, toks, at, room, functions, nodes)? else {
        return Ok(None);
    };
    let Some(body) = statements(alloc, toks, head.next, room, functions, nodes)? else {
        return Ok(None);
    };
    let next = body.next;
    Ok(Some(Arm {
        clause: Clause {
            test: head.node,
            body: body.list,
        },
        next,
    }))
}

/// `case` with its expression, or `default`, and the colon.
#[inline(never)]
fn case_head(
    alloc: Global,
    toks: &[Tok],
    at: usize,
    room: u64,
    functions: &Functions,
    nodes: &mut Nodes,
) -> Result<Option<Maybe>, OutOfMemory>
    requires held { Holds toks.now functions.now at room nodes.old }
    ensures keeps { Keeps nodes.old nodes.new }
    ensures ends { MaybeEnds toks.now at nodes.new result }
    ensures answer { MaybeAnswers (ClauseHead toks.now room at) nodes.new result }
    ensures own { MaybeOwn functions.now nodes.old nodes.new at result }
{
    if has_key(toks, at, Key::Default) {
        if !has_sign(toks, at + 1, Sign::Colon) {
            return Ok(None);
        }
        return Ok(Some(Maybe {
            node: None,
            next: at + 2,
        }));
    }
    if !has_key(toks, at, Key::Case) {
        return Ok(None);
    }
    let Some(value) = expression_up_to(alloc, toks, at + 1, Sign::Colon, room, functions, nodes)?
    else {
        return Ok(None);
    };
    Ok(Some(Maybe {
        node: Some(value.node),
        next: value.next + 1,
    }))
}

/// `try`, with `catch`, `finally` or both.
#[cycle(statement)]
#[inline(never)]
pub fn try_statement(
    alloc: Global,
    toks: &[Tok],
    at: usize,
    room: u64,
    functions: &Functions,
    nodes: &mut Nodes,
) -> Result<Option<Piece>, OutOfMemory>
    requires held { Holds toks.now functions.now at room nodes.old }
    requires below { 0 < room }
    requires kind { KindIs toks.now at kinds.Try }
    ensures keeps { Keeps nodes.old nodes.new }
    ensures ends { PieceEnds toks.now at nodes.new result }
    ensures answer { StmtAnswers toks.now room at nodes.new result }
    ensures own { StmtOwn functions.now nodes.old nodes.new at result }
{
    let Some(body) = block(alloc, toks, at + 1, room - 1, functions, nodes)? else {
        return Ok(None);
    };
    if has_key(toks, body.next, Key::Catch) {
        return try_with_catch(alloc, toks, at, body, room, functions, nodes);
    }
    if !has_key(toks, body.next, Key::Finally) {
        return Ok(None);
    }
    let Some(last) = block(alloc, toks, body.next + 1, room - 1, functions, nodes)? else {
        return Ok(None);
    };
    let node = nodes.add(Node::Try(body.node, None, Some(last.node)))?;
    Ok(Some(Piece {
        node,
        next: last.next,
        is_open: false,
    }))
}

/// `try` whose block is read, with `catch` and perhaps `finally`.
#[cycle(statement)]
#[inline(never)]
fn try_with_catch(
    alloc: Global,
    toks: &[Tok],
    at: usize,
    body: Spot,
    room: u64,
    functions: &Functions,
    nodes: &mut Nodes,
) -> Result<Option<Piece>, OutOfMemory>
    requires held { Holds toks.now functions.now at room nodes.old }
    requires below { 0 < room }
    requires kind { KindIs toks.now at kinds.Try }
    requires found { FindsBlock toks.now (room - 1) (at + 1) nodes.old body }
    requires there { EndsBy toks.now at nodes.old body.node body.next }
    requires key { HasKey toks.now body.next keys.Catch }
    ensures keeps { Keeps nodes.old nodes.new }
    ensures ends { PieceEnds toks.now at nodes.new result }
    ensures answer { StmtAnswers toks.now room at nodes.new result }
    ensures own { BehindBlock toks.now functions.now at room nodes.old (at + 1) body.node body.next nodes.new result }
{
    let Some(found) = catch_clause(alloc, toks, body.next, room - 1, functions, nodes)? else {
        return Ok(None);
    };
    if !has_key(toks, found.next, Key::Finally) {
        let node = nodes.add(Node::Try(body.node, Some(found.handler), None))?;
        return Ok(Some(Piece {
            node,
            next: found.next,
            is_open: false,
        }));
    }
    let Some(last) = block(alloc, toks, found.next + 1, room - 1, functions, nodes)? else {
        return Ok(None);
    };
    let node = nodes.add(Node::Try(body.node, Some(found.handler), Some(last.node)))?;
    Ok(Some(Piece {
        node,
        next: last.next,
        is_open: false,
    }))
}

/// `catch` with its name and block.
#[cycle(statement)]
fn catch_clause(
    alloc: Global,
    toks: &[Tok],
    at: usize,
    room: u64,
    functions: &Functions,
    nodes: &mut Nodes,
) -> Result<Option<Handled>, OutOfMemory>
    requires held { Holds toks.now functions.now at room nodes.old }
    requires key { HasKey toks.now at keys.Catch }
    ensures keeps { Keeps nodes.old nodes.new }
    ensures ends { HandlerEnds toks.now at nodes.new result }
    ensures answer { HandlerAnswers toks.now room at nodes.new result }
    ensures own { HandlerOwn functions.now nodes.old nodes.new at result }
{
    if !has_sign(toks, at + 1, Sign::OpenParen) {
        return Ok(None);
    }
    let Some(name) = word_at(toks, at + 2) else {
        return Ok(None);
    };
    if !has_sign(toks, at + 3, Sign::CloseParen) {
        return Ok(None);
    }
    let Some(found) = block(alloc, toks, at + 4, room, functions, nodes)? else {
        return Ok(None);
    };
    Ok(Some(Handled {
        handler: Handler {
            name,
            block: found.node,
        },
        next: found.next,
    }))
}
