//! Expressions as parts of statements.
ghost use Rattle.std.specs.Prelude.{◌≡◌, false};
ghost use Rattle.wjs_tree.specs.Shows.{Keeps};
ghost use Rattle.wjs_parse_expr.specs.Reach.{sign_reach};
ghost use Rattle.wjs_parse_expr.specs.Table.{Holds, MayBegin};
ghost use Rattle.wjs_parse_expr.proofs.Beginnings.{can_begin};
ghost use Rattle.wjs_tree.specs.declared.tokens.Token.TheVariants as tokens;
ghost use Rattle.wjs_parse_simple.specs.Readings.{UpTo, TestForm, MaybeForm};
ghost use Rattle.wjs_parse_simple.specs.Answers.{ExprAnswers, MaybeAnswers, ValueAnswers, SpotEnds, MaybeEnds, ValuedEnds};
ghost use Rattle.wjs_parse_simple.specs.Made.{ExprOwn, MaybeOwn, ValueOwn};

use crate::ends::{end_at, ends_in_update};
use crate::parts::{Maybe, Spot, Stop, Valued};
use std::alloc::Global;
use wjs_base::OutOfMemory;
use wjs_parse_expr::{Functions, comma_expression, has_sign};
use wjs_tree::{Nodes, Sign, Tok};

/// The expression from the place up to a sign that continues none, and the place of the sign.
#[inline(never)]
pub fn expression_up_to(
    alloc: Global,
    toks: &[Tok],
    at: usize,
    sign: Sign,
    room: u64,
    functions: &Functions,
    nodes: &mut Nodes,
) -> Result<Option<Spot>, OutOfMemory>
    requires held { Holds toks.now functions.now at room nodes.old }
    requires may_begin { MayBegin toks.now at }
    requires ends { sign_reach sign ≡ 0 }
    ensures keeps { Keeps nodes.old nodes.new }
    ensures ends { SpotEnds toks.now at nodes.new result }
    ensures answer { ExprAnswers (UpTo toks.now sign room at) nodes.new result }
    ensures own { ExprOwn functions.now nodes.old nodes.new at result }
{
    let Some(value) = comma_expression(alloc, toks, at, false, room, functions, nodes)? else {
        return Ok(None);
    };
    if !has_sign(toks, value.next, sign) {
        return Ok(None);
    }
    Ok(Some(Spot {
        node: value.node,
        next: value.next,
    }))
}

/// An expression in parentheses.
#[inline(never)]
pub fn parenthesized_expression(
    alloc: Global,
    toks: &[Tok],
    at: usize,
    room: u64,
    functions: &Functions,
    nodes: &mut Nodes,
) -> Result<Option<Spot>, OutOfMemory>
    requires held { Holds toks.now functions.now at room nodes.old }
    ensures keeps { Keeps nodes.old nodes.new }
    ensures ends { SpotEnds toks.now at nodes.new result }
    ensures answer { ExprAnswers (TestForm toks.now room at) nodes.new result }
    ensures own { ExprOwn functions.now nodes.old nodes.new at result }
{
    if !has_sign(toks, at, Sign::OpenParen) {
        return Ok(None);
    }
    let Some(value) = expression_up_to(
        alloc,
        toks,
        at + 1,
        Sign::CloseParen,
        room,
        functions,
        nodes,
    )?
    else {
        return Ok(None);
    };
    Ok(Some(Spot {
        node: value.node,
        next: value.next + 1,
    }))
}

/// An expression or nothing up to a sign that neither continues an expression nor begins one, and the place of the sign.
#[inline(never)]
pub fn optional_expression(
    alloc: Global,
    toks: &[Tok],
    at: usize,
    sign: Sign,
    room: u64,
    functions: &Functions,
    nodes: &mut Nodes,
) -> Result<Option<Maybe>, OutOfMemory>
    requires held { Holds toks.now functions.now at room nodes.old }
    requires may_begin { MayBegin toks.now at }
    requires ends { sign_reach sign ≡ 0 }
    requires begins { can_begin (tokens.Sign sign) ≡ false }
    ensures keeps { Keeps nodes.old nodes.new }
    ensures ends { MaybeEnds toks.now at nodes.new result }
    ensures answer { MaybeAnswers (MaybeForm toks.now sign room at) nodes.new result }
    ensures own { MaybeOwn functions.now nodes.old nodes.new at result }
{
    if has_sign(toks, at, sign) {
        return Ok(Some(Maybe {
            node: None,
            next: at,
        }));
    }
    let Some(value) = expression_up_to(alloc, toks, at, sign, room, functions, nodes)? else {
        return Ok(None);
    };
    Ok(Some(Maybe {
        node: Some(value.node),
        next: value.next,
    }))
}

/// An expression and the end of its statement.
#[inline(never)]
pub fn expression_and_end(
    alloc: Global,
    toks: &[Tok],
    at: usize,
    room: u64,
    functions: &Functions,
    nodes: &mut Nodes,
) -> Result<Option<Valued>, OutOfMemory>
    requires held { Holds toks.now functions.now at room nodes.old }
    requires may_begin { MayBegin toks.now at }
    ensures keeps { Keeps nodes.old nodes.new }
    ensures ends { ValuedEnds toks.now at nodes.new result }
    ensures answer { ValueAnswers toks.now room at nodes.new result }
    ensures own { ValueOwn functions.now nodes.old nodes.new at result }
{
    let Some(value) = comma_expression(alloc, toks, at, false, room, functions, nodes)? else {
        return Ok(None);
    };
    let stop = Stop::InExpr(ends_in_update(toks, value.next));
    let Some(ended) = end_at(toks, value.next, stop) else {
        return Ok(None);
    };
    Ok(Some(Valued {
        node: value.node,
        end: ended.end,
        next: ended.next,
    }))
}
