//! Loops (ECMA-262, 3rd edition, section 12.6).
ghost use Rattle.std.specs.Prelude.{◌≡◌, ◌+◌, ◌<◌};
ghost use Rattle.wjs_tree.specs.Shows.{Keeps};
ghost use Rattle.wjs_parse_expr.specs.Table.{Holds};
ghost use Rattle.wjs_parse_simple.specs.declared.kind.Kind.TheVariants as kinds;
ghost use Rattle.std.specs.Prelude.{◌-◌};
ghost use Rattle.wjs_tree.specs.Ends.{HasSign, HasKey};
ghost use Rattle.wjs_tree.specs.declared.signs.Sign.TheVariants as signs;
ghost use Rattle.wjs_tree.specs.declared.keys.Key.TheVariants as keys;
ghost use Rattle.wjs_parse_simple.specs.Answers.{KindIs, StmtAnswers, PieceEnds, EndsBy};
ghost use Rattle.wjs_parse_stmt.specs.Branches.{FindsFirst, RestAnswers, RestEnds};
ghost use Rattle.wjs_parse_simple.specs.Made.{StmtOwn};
ghost use Rattle.wjs_parse_stmt.specs.Made.{RestOwn, BehindExpr};

use crate::parts::Rest;
use crate::stmt::statement;
use std::alloc::Global;
use wjs_base::OutOfMemory;
use wjs_parse_expr::{Functions, Part, comma_expression, has_key, has_sign};
use wjs_parse_simple::{
    Piece, Stop, end_at, expression_up_to, optional_expression, parenthesized_expression,
    variable_declarations, word_at,
};
use wjs_tree::{ForInit, Key, Node, Nodes, Sign, Tok};

/// `while`.
#[cycle(statement)]
#[inline(never)]
pub fn while_statement(
    alloc: Global,
    toks: &[Tok],
    at: usize,
    room: u64,
    functions: &Functions,
    nodes: &mut Nodes,
) -> Result<Option<Piece>, OutOfMemory>
    requires held { Holds toks.now functions.now at room nodes.old }
    requires below { 0 < room }
    requires kind { KindIs toks.now at kinds.While }
    ensures keeps { Keeps nodes.old nodes.new }
    ensures ends { PieceEnds toks.now at nodes.new result }
    ensures answer { StmtAnswers toks.now room at nodes.new result }
    ensures own { StmtOwn functions.now nodes.old nodes.new at result }
{
    let Some(test) = parenthesized_expression(alloc, toks, at + 1, room - 1, functions, nodes)?
    else {
        return Ok(None);
    };
    let Some(body) = statement(alloc, toks, test.next, room - 1, functions, nodes)? else {
        return Ok(None);
    };
    let node = nodes.add(Node::While(test.node, body.node))?;
    Ok(Some(Piece {
        node,
        next: body.next,
        is_open: body.is_open,
    }))
}

/// `do` with its statement, `while` with its test, and the end.
#[cycle(statement)]
#[inline(never)]
pub fn do_while_statement(
    alloc: Global,
    toks: &[Tok],
    at: usize,
    room: u64,
    functions: &Functions,
    nodes: &mut Nodes,
) -> Result<Option<Piece>, OutOfMemory>
    requires held { Holds toks.now functions.now at room nodes.old }
    requires below { 0 < room }
    requires kind { KindIs toks.now at kinds.Do }
    ensures keeps { Keeps nodes.old nodes.new }
    ensures ends { PieceEnds toks.now at nodes.new result }
    ensures answer { StmtAnswers toks.now room at nodes.new result }
    ensures own { StmtOwn functions.now nodes.old nodes.new at result }
{
    let Some(body) = statement(alloc, toks, at + 1, room - 1, functions, nodes)? else {
        return Ok(None);
    };
    if !has_key(toks, body.next, Key::While) {
        return Ok(None);
    }
    let Some(test) = parenthesized_expression(
        alloc,
        toks,
        body.next + 1,
        room - 1,
        functions,
        nodes,
    )?
    else {
        return Ok(None);
    };
    let Some(ended) = end_at(toks, test.next, Stop::Complete) else {
        return Ok(None);
    };
    let node = nodes.add(Node::DoWhile(body.node, test.node, ended.end))?;
    Ok(Some(Piece {
        node,
        next: ended.next,
        is_open: false,
    }))
}

/// `for`, by its header.
#[cycle(statement)]
#[inline(never)]
pub fn for_statement(
    alloc: Global,
    toks: &[Tok],
    at: usize,
    room: u64,
    functions: &Functions,
    nodes: &mut Nodes,
) -> Result<Option<Piece>, OutOfMemory>
    requires held { Holds toks.now functions.now at room nodes.old }
    requires below { 0 < room }
    requires kind { KindIs toks.now at kinds.For }
    ensures keeps { Keeps nodes.old nodes.new }
    ensures ends { PieceEnds toks.now at nodes.new result }
    ensures answer { StmtAnswers toks.now room at nodes.new result }
    ensures own { StmtOwn functions.now nodes.old nodes.new at result }
{
    if !has_sign(toks, at + 1, Sign::OpenParen) {
        return Ok(None);
    }
    if !has_key(toks, at + 2, Key::Var) {
        return for_without_var(alloc, toks, at, room, functions, nodes);
    }
    if has_key(toks, at + 4, Key::In) {
        return for_var_in(alloc, toks, at, room, functions, nodes);
    }
    for_with_variables(alloc, toks, at, room, functions, nodes)
}

/// `for` over the names of an object, each in a variable.
#[cycle(statement)]
#[inline(never)]
fn for_var_in(
    alloc: Global,
    toks: &[Tok],
    at: usize,
    room: u64,
    functions: &Functions,
    nodes: &mut Nodes,
) -> Result<Option<Piece>, OutOfMemory>
    requires held { Holds toks.now functions.now at room nodes.old }
    requires below { 0 < room }
    requires kind { KindIs toks.now at kinds.For }
    requires opens { HasSign toks.now (at + 1) signs.OpenParen }
    requires var { HasKey toks.now (at + 2) keys.Var }
    requires inside { HasKey toks.now (at + 4) keys.In }
    ensures keeps { Keeps nodes.old nodes.new }
    ensures ends { PieceEnds toks.now at nodes.new result }
    ensures answer { StmtAnswers toks.now room at nodes.new result }
    ensures own { StmtOwn functions.now nodes.old nodes.new at result }
{
    let Some(name) = word_at(toks, at + 3) else {
        return Ok(None);
    };
    let Some(object) = expression_up_to(
        alloc,
        toks,
        at + 5,
        Sign::CloseParen,
        room - 1,
        functions,
        nodes,
    )?
    else {
        return Ok(None);
    };
    let Some(body) = statement(alloc, toks, object.next + 1, room - 1, functions, nodes)? else {
        return Ok(None);
    };
    let node = nodes.add(Node::ForVarIn(name, object.node, body.node))?;
    Ok(Some(Piece {
        node,
        next: body.next,
        is_open: body.is_open,
    }))
}

/// `for` whose header begins with variables.
#[cycle(statement)]
#[inline(never)]
fn for_with_variables(
    alloc: Global,
    toks: &[Tok],
    at: usize,
    room: u64,
    functions: &Functions,
    nodes: &mut Nodes,
) -> Result<Option<Piece>, OutOfMemory>
    requires held { Holds toks.now functions.now at room nodes.old }
    requires below { 0 < room }
    requires kind { KindIs toks.now at kinds.For }
    requires opens { HasSign toks.now (at + 1) signs.OpenParen }
    requires var { HasKey toks.now (at + 2) keys.Var }
    requires outside { HasKey toks.now (at + 4) keys.In → ⊥ }
    ensures keeps { Keeps nodes.old nodes.new }
    ensures ends { PieceEnds toks.now at nodes.new result }
    ensures answer { StmtAnswers toks.now room at nodes.new result }
    ensures own { StmtOwn functions.now nodes.old nodes.new at result }
{
    let Some(first) = variable_declarations(alloc, toks, at + 3, true, room - 1, functions, nodes)?
    else {
        return Ok(None);
    };
    let Some(rest) = for_rest(alloc, toks, first.next, room - 1, functions, nodes)? else {
        return Ok(None);
    };
    let node = nodes.add(Node::For(ForInit::Var(first.list), rest.test, rest.update, rest.node))?;
    Ok(Some(Piece {
        node,
        next: rest.next,
        is_open: rest.is_open,
    }))
}

/// `for` whose header begins with an expression or nothing.
#[cycle(statement)]
#[inline(always)]
fn for_without_var(
    alloc: Global,
    toks: &[Tok],
    at: usize,
    room: u64,
    functions: &Functions,
    nodes: &mut Nodes,
) -> Result<Option<Piece>, OutOfMemory>
    requires held { Holds toks.now functions.now at room nodes.old }
    requires below { 0 < room }
    requires kind { KindIs toks.now at kinds.For }
    requires opens { HasSign toks.now (at + 1) signs.OpenParen }
    requires no_var { HasKey toks.now (at + 2) keys.Var → ⊥ }
    ensures keeps { Keeps nodes.old nodes.new }
    ensures ends { PieceEnds toks.now at nodes.new result }
    ensures answer { StmtAnswers toks.now room at nodes.new result }
    ensures own { StmtOwn functions.now nodes.old nodes.new at result }
{
    if has_sign(toks, at + 2, Sign::Semicolon) {
        return for_without_first(alloc, toks, at, room, functions, nodes);
    }
    let Some(first) = comma_expression(alloc, toks, at + 2, true, room - 1, functions, nodes)?
    else {
        return Ok(None);
    };
    if !has_key(toks, first.next, Key::In) {
        return for_with_expression(alloc, toks, at, first, room, functions, nodes);
    }
    for_in(alloc, toks, at, first, room, functions, nodes)
}

/// `for` whose header begins with `;`.
#[cycle(statement)]
#[inline(never)]
fn for_without_first(
    alloc: Global,
    toks: &[Tok],
    at: usize,
    room: u64,
    functions: &Functions,
    nodes: &mut Nodes,
) -> Result<Option<Piece>, OutOfMemory>
    requires held { Holds toks.now functions.now at room nodes.old }
    requires below { 0 < room }
    requires kind { KindIs toks.now at kinds.For }
    requires opens { HasSign toks.now (at + 1) signs.OpenParen }
    requires semicolon { HasSign toks.now (at + 2) signs.Semicolon }
    ensures keeps { Keeps nodes.old nodes.new }
    ensures ends { PieceEnds toks.now at nodes.new result }
    ensures answer { StmtAnswers toks.now room at nodes.new result }
    ensures own { StmtOwn functions.now nodes.old nodes.new at result }
{
    let Some(rest) = for_rest(alloc, toks, at + 2, room - 1, functions, nodes)? else {
        return Ok(None);
    };
    let node = nodes.add(Node::For(ForInit::Nothing, rest.test, rest.update, rest.node))?;
    Ok(Some(Piece {
        node,
        next: rest.next,
        is_open: rest.is_open,
    }))
}

/// `for` whose header begins with the expression.
#[cycle(statement)]
#[inline(never)]
fn for_with_expression(
    alloc: Global,
    toks: &[Tok],
    at: usize,
    first: Part,
    room: u64,
    functions: &Functions,
    nodes: &mut Nodes,
) -> Result<Option<Piece>, OutOfMemory>
    requires held { Holds toks.now functions.now at room nodes.old }
    requires below { 0 < room }
    requires kind { KindIs toks.now at kinds.For }
    requires opens { HasSign toks.now (at + 1) signs.OpenParen }
    requires found { FindsFirst toks.now (room - 1) (at + 2) nodes.old first }
    requires there { EndsBy toks.now (at + 2) nodes.old first.node first.next }
    requires no_var { HasKey toks.now (at + 2) keys.Var → ⊥ }
    requires outside { HasKey toks.now first.next keys.In → ⊥ }
    requires no_semicolon { HasSign toks.now (at + 2) signs.Semicolon → ⊥ }
    ensures keeps { Keeps nodes.old nodes.new }
    ensures ends { PieceEnds toks.now at nodes.new result }
    ensures answer { StmtAnswers toks.now room at nodes.new result }
    ensures own { BehindExpr toks.now functions.now at room nodes.old (at + 2) first.node first.next nodes.new result }
{
    let Some(rest) = for_rest(alloc, toks, first.next, room - 1, functions, nodes)? else {
        return Ok(None);
    };
    let node = nodes.add(Node::For(ForInit::Expr(first.node), rest.test, rest.update, rest.node))?;
    Ok(Some(Piece {
        node,
        next: rest.next,
        is_open: rest.is_open,
    }))
}

/// `for` over the names of an object, each put to the target.
#[cycle(statement)]
#[inline(never)]
fn for_in(
    alloc: Global,
    toks: &[Tok],
    at: usize,
    first: Part,
    room: u64,
    functions: &Functions,
    nodes: &mut Nodes,
) -> Result<Option<Piece>, OutOfMemory>
    requires held { Holds toks.now functions.now at room nodes.old }
    requires below { 0 < room }
    requires kind { KindIs toks.now at kinds.For }
    requires opens { HasSign toks.now (at + 1) signs.OpenParen }
    requires found { FindsFirst toks.now (room - 1) (at + 2) nodes.old first }
    requires there { EndsBy toks.now (at + 2) nodes.old first.node first.next }
    requires no_var { HasKey toks.now (at + 2) keys.Var → ⊥ }
    requires inside { HasKey toks.now first.next keys.In }
    ensures keeps { Keeps nodes.old nodes.new }
    ensures ends { PieceEnds toks.now at nodes.new result }
    ensures answer { StmtAnswers toks.now room at nodes.new result }
    ensures own { BehindExpr toks.now functions.now at room nodes.old (at + 2) first.node first.next nodes.new result }
{
    if !first.is_target {
        return Ok(None);
    }
    let Some(object) = expression_up_to(
        alloc,
        toks,
        first.next + 1,
        Sign::CloseParen,
        room - 1,
        functions,
        nodes,
    )?
    else {
        return Ok(None);
    };
    let Some(body) = statement(alloc, toks, object.next + 1, room - 1, functions, nodes)? else {
        return Ok(None);
    };
    let node = nodes.add(Node::ForIn(first.node, object.node, body.node))?;
    Ok(Some(Piece {
        node,
        next: body.next,
        is_open: body.is_open,
    }))
}

/// What stands behind the first part of the header of a `for`: both other parts and the statement.
#[cycle(statement)]
#[inline(always)]
fn for_rest(
    alloc: Global,
    toks: &[Tok],
    at: usize,
    room: u64,
    functions: &Functions,
    nodes: &mut Nodes,
) -> Result<Option<Rest>, OutOfMemory>
    requires held { Holds toks.now functions.now at room nodes.old }
    ensures keeps { Keeps nodes.old nodes.new }
    ensures ends { RestEnds toks.now at nodes.new result }
    ensures answer { RestAnswers toks.now room at nodes.new result }
    ensures own { RestOwn functions.now nodes.old nodes.new at result }
{
    if !has_sign(toks, at, Sign::Semicolon) {
        return Ok(None);
    }
    let Some(test) = optional_expression(
        alloc,
        toks,
        at + 1,
        Sign::Semicolon,
        room,
        functions,
        nodes,
    )?
    else {
        return Ok(None);
    };
    let Some(update) = optional_expression(
        alloc,
        toks,
        test.next + 1,
        Sign::CloseParen,
        room,
        functions,
        nodes,
    )?
    else {
        return Ok(None);
    };
    let Some(body) = statement(alloc, toks, update.next + 1, room, functions, nodes)? else {
        return Ok(None);
    };
    Ok(Some(Rest {
        test: test.node,
        update: update.node,
        node: body.node,
        next: body.next,
        is_open: body.is_open,
    }))
}
