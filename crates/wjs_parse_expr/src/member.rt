//! Chains of names, indices and calls, and what `new` makes (ECMA-262, 3rd edition, section 11.2).
ghost use Rattle.std.specs.Prelude.{◌≡◌, ◌≤◌, ◌<◌, ◌+◌, ◌-◌, Bool, false, Some, length, if◌then◌else◌};
ghost use Rattle.wjs_tree.specs.Ends.{HasSign, HasKey};
ghost use Rattle.wjs_tree.specs.Shows.{Keeps};
ghost use Rattle.wjs_tree.specs.declared.signs.Sign.TheVariants as signs;
ghost use Rattle.wjs_tree.specs.declared.keys.Key.TheVariants as keys;
ghost use Rattle.wjs_parse_expr.specs.Steps.{SuffixStep};
ghost use Rattle.wjs_parse_expr.specs.Answers.{Steps, ListAnswers, HeadAnswers, ChainAnswers, Given, TargetAnswers, PartEnds, HeadEnds, ListEnds, from};
ghost use Rattle.wjs_parse_expr.specs.Table.{Holds, MayBegin};
ghost use Rattle.wjs_parse_expr.specs.declared.functions.Functions.{Functions};

use crate::adds::{add_at, add_call, add_new_bare, add_new_with};
use crate::expr::{assignment_expression, comma_expression};
use crate::functions::Functions;
use crate::look::{has_key, has_sign, spelt_at, token_at};
use crate::parts::{Head, Listed, Part, push_last};
use crate::primary::primary_expression;
use std::alloc::Global;
use wjs_base::OutOfMemory;
use wjs_tree::{Key, Node, NodeId, Nodes, Sequence, Sign, Tok, Token};

/// The longest target.
#[cycle(expression)]
#[inline(never)]
pub fn target(
    alloc: Global,
    toks: &[Tok],
    at: usize,
    no_in: bool,
    room: u64,
    functions: &Functions,
    nodes: &mut Nodes,
) -> Result<Option<Part>, OutOfMemory>
    requires held { Holds toks.now functions.now at room nodes.old }
    requires may_begin { MayBegin toks.now at }
    ensures keeps { Keeps nodes.old nodes.new }
    ensures ends { PartEnds toks.now at nodes.new result }
    ensures answer { TargetAnswers (from toks.now functions.now nodes.old at) toks.now no_in room at nodes.new result }
{
    let Some(head) = chain_head(alloc, toks, at, no_in, room, functions, nodes)? else {
        return Ok(None);
    };
    if head.is_bare {
        return Ok(None);
    }
    let mut left = head.part;
    let mut last = if_target(left, None);
    while let Some(longer) = chain_suffix(alloc, toks, left, true, room, functions, nodes)? {
        left = longer;
        last = if_target(left, last);
    }
    Ok(last)
}

fn if_target(part: Part, last: Option<Part>) -> Option<Part>
    ensures { result ≡ (if part.is_target then Some part else last) }
{
    if part.is_target { Some(part) } else { last }
}

/// Names behind dots, indices, and arguments where calls are meant, from the left to the right.
#[cycle(expression)]
#[inline(always)]
pub fn member_chain(
    alloc: Global,
    toks: &[Tok],
    at: usize,
    calls: bool,
    no_in: bool,
    room: u64,
    functions: &Functions,
    nodes: &mut Nodes,
) -> Result<Option<Head>, OutOfMemory>
    requires held { Holds toks.now functions.now at room nodes.old }
    requires may_begin { MayBegin toks.now at }
    ensures keeps { Keeps nodes.old nodes.new }
    ensures ends { HeadEnds toks.now at nodes.new result }
    ensures answer { ChainAnswers (from toks.now functions.now nodes.old at) toks.now calls no_in room at nodes.new result }
{
    let Some(head) = chain_head(alloc, toks, at, no_in, room, functions, nodes)? else {
        return Ok(None);
    };
    if head.is_bare {
        return Ok(Some(head));
    }
    let mut left = head.part;
    while let Some(longer) = chain_suffix(alloc, toks, left, calls, room, functions, nodes)? {
        left = longer;
    }
    Ok(Some(Head {
        part: left,
        is_bare: false,
    }))
}

/// `new` with what it makes, or a primary expression.
#[cycle(expression)]
#[inline(always)]
fn chain_head(
    alloc: Global,
    toks: &[Tok],
    at: usize,
    no_in: bool,
    room: u64,
    functions: &Functions,
    nodes: &mut Nodes,
) -> Result<Option<Head>, OutOfMemory>
    requires held { Holds toks.now functions.now at room nodes.old }
    requires may_begin { MayBegin toks.now at }
    ensures keeps { Keeps nodes.old nodes.new }
    ensures ends { HeadEnds toks.now at nodes.new result }
    ensures answer { HeadAnswers (from toks.now functions.now nodes.old at) toks.now no_in room at nodes.new result }
{
    if has_key(toks, at, Key::New) {
        return new_expression(alloc, toks, at, no_in, room, functions, nodes);
    }
    let Some(part) = primary_expression(alloc, toks, at, no_in, room, functions, nodes)? else {
        return Ok(None);
    };
    Ok(Some(Head {
        part,
        is_bare: false,
    }))
}

/// `new` with what it makes, and with arguments where they follow.
#[cycle(expression)]
#[inline(never)]
fn new_expression(
    alloc: Global,
    toks: &[Tok],
    at: usize,
    no_in: bool,
    room: u64,
    functions: &Functions,
    nodes: &mut Nodes,
) -> Result<Option<Head>, OutOfMemory>
    requires held { Holds toks.now functions.now at room nodes.old }
    requires key { HasKey toks.now at keys.New }
    ensures keeps { Keeps nodes.old nodes.new }
    ensures ends { HeadEnds toks.now at nodes.new result }
    ensures answer { HeadAnswers (from toks.now functions.now nodes.old at) toks.now no_in room at nodes.new result }
{
    if room == 0 {
        return Ok(None);
    }
    let Some(callee) = new_callee(alloc, toks, at + 1, no_in, room - 1, functions, nodes)? else {
        return Ok(None);
    };
    let Some(items) = new_arguments(alloc, toks, callee, room, functions, nodes)? else {
        let node = add_new_bare(nodes, callee.part.node)?;
        let part = Part {
            node,
            next: callee.part.next,
            is_target: false,
        };
        return Ok(Some(Head {
            part,
            is_bare: true,
        }));
    };
    let next = items.next + 1;
    let node = add_new_with(nodes, callee.part.node, items.list)?;
    let part = Part {
        node,
        next,
        is_target: false,
    };
    Ok(Some(Head {
        part,
        is_bare: false,
    }))
}

/// Names behind dots and indices, without calls, from the left to the right.
#[cycle(expression)]
#[inline(never)]
fn new_callee(
    alloc: Global,
    toks: &[Tok],
    at: usize,
    no_in: bool,
    room: u64,
    functions: &Functions,
    nodes: &mut Nodes,
) -> Result<Option<Head>, OutOfMemory>
    requires held { Holds toks.now functions.now at room nodes.old }
    requires may_begin { MayBegin toks.now at }
    ensures keeps { Keeps nodes.old nodes.new }
    ensures ends { HeadEnds toks.now at nodes.new result }
    ensures answer { ChainAnswers (from toks.now functions.now nodes.old at) toks.now false no_in room at nodes.new result }
{
    member_chain(alloc, toks, at, false, no_in, room, functions, nodes)
}

/// The arguments for what `new` makes, where they follow.
#[cycle(expression)]
fn new_arguments(
    alloc: Global,
    toks: &[Tok],
    callee: Head,
    room: u64,
    functions: &Functions,
    nodes: &mut Nodes,
) -> Result<Option<Listed>, OutOfMemory>
    requires below { 0 < room }
    requires held { Holds toks.now functions.now callee.part.next room nodes.old }
    ensures keeps { Keeps nodes.old nodes.new }
    ensures ends { ListEnds toks.now callee.part.next nodes.new result }
    ensures answer { Given (from toks.now functions.now nodes.old (callee.part.next + 1)) toks.now callee room nodes.new result }
{
    if callee.is_bare {
        return Ok(None);
    }
    if !has_sign(toks, callee.part.next, Sign::OpenParen) {
        return Ok(None);
    }
    arguments(alloc, toks, callee.part.next + 1, room, functions, nodes)
}

/// The base with what follows it: a name behind a dot, an index or arguments.
#[cycle(expression)]
#[inline(always)]
fn chain_suffix(
    alloc: Global,
    toks: &[Tok],
    left: Part,
    calls: bool,
    room: u64,
    functions: &Functions,
    nodes: &mut Nodes,
) -> Result<Option<Part>, OutOfMemory>
    requires held { Holds toks.now functions.now left.next room nodes.old }
    requires there { left.node.0 < length nodes.old }
    ensures keeps { Keeps nodes.old nodes.new }
    ensures ends { PartEnds toks.now left.next nodes.new result }
    ensures answer { Steps functions.now (SuffixStep toks.now calls room) (λ tree place. ⊥) nodes.old nodes.new left result }
{
    if room == 0 {
        return Ok(None);
    }
    match token_at(toks, left.next) {
        Some(Token::Sign(Sign::Dot)) => dot_access(toks, left, calls, room, nodes),
        Some(Token::Sign(Sign::OpenBracket)) => index_access(
            alloc, toks, left, calls, room, functions, nodes,
        ),
        Some(Token::Sign(Sign::OpenParen)) => call_expression(
            alloc, toks, left, calls, room, functions, nodes,
        ),
        _ => Ok(None),
    }
}

/// The base with a dot and a name.
#[inline(never)]
fn dot_access(
    toks: &[Tok],
    left: Part,
    calls: bool,
    room: u64,
    nodes: &mut Nodes,
) -> Result<Option<Part>, OutOfMemory>
    requires there { left.node.0 < length nodes.old }
    requires below { 0 < room }
    requires sign { HasSign toks.now left.next signs.Dot }
    ensures keeps { Keeps nodes.old nodes.new }
    ensures ends { PartEnds toks.now left.next nodes.new result }
    ensures answer { (functions : Functions) → Steps functions (SuffixStep toks.now calls room) (λ tree place. ⊥) nodes.old nodes.new left result }
{
    let Some(name) = spelt_at(toks, left.next + 1) else {
        return Ok(None);
    };
    let node = nodes.add(Node::Dot(left.node, name))?;
    Ok(Some(Part {
        node,
        next: left.next + 2,
        is_target: true,
    }))
}

/// The base with an index in brackets.
#[cycle(expression)]
#[inline(never)]
fn index_access(
    alloc: Global,
    toks: &[Tok],
    left: Part,
    calls: bool,
    room: u64,
    functions: &Functions,
    nodes: &mut Nodes,
) -> Result<Option<Part>, OutOfMemory>
    requires held { Holds toks.now functions.now left.next room nodes.old }
    requires there { left.node.0 < length nodes.old }
    requires below { 0 < room }
    requires sign { HasSign toks.now left.next signs.OpenBracket }
    ensures keeps { Keeps nodes.old nodes.new }
    ensures ends { PartEnds toks.now left.next nodes.new result }
    ensures answer { Steps functions.now (SuffixStep toks.now calls room) (λ tree place. ⊥) nodes.old nodes.new left result }
{
    let Some(place) = comma_expression(
        alloc,
        toks,
        left.next + 1,
        false,
        room - 1,
        functions,
        nodes,
    )?
    else {
        return Ok(None);
    };
    if !has_sign(toks, place.next, Sign::CloseBracket) {
        return Ok(None);
    }
    let node = add_at(nodes, left.node, place.node)?;
    Ok(Some(Part {
        node,
        next: place.next + 1,
        is_target: true,
    }))
}

/// The base with arguments, where calls are meant.
#[cycle(expression)]
#[inline(never)]
fn call_expression(
    alloc: Global,
    toks: &[Tok],
    left: Part,
    calls: bool,
    room: u64,
    functions: &Functions,
    nodes: &mut Nodes,
) -> Result<Option<Part>, OutOfMemory>
    requires held { Holds toks.now functions.now left.next room nodes.old }
    requires there { left.node.0 < length nodes.old }
    requires below { 0 < room }
    requires sign { HasSign toks.now left.next signs.OpenParen }
    ensures keeps { Keeps nodes.old nodes.new }
    ensures ends { PartEnds toks.now left.next nodes.new result }
    ensures answer { Steps functions.now (SuffixStep toks.now calls room) (λ tree place. ⊥) nodes.old nodes.new left result }
{
    if !calls {
        return Ok(None);
    }
    let Some(items) = arguments(alloc, toks, left.next + 1, room, functions, nodes)? else {
        return Ok(None);
    };
    let next = items.next + 1;
    let node = add_call(nodes, left.node, items.list)?;
    Ok(Some(Part {
        node,
        next,
        is_target: false,
    }))
}

/// Arguments up to the closing parenthesis.
#[cycle(expression)]
#[inline(always)]
fn arguments(
    alloc: Global,
    toks: &[Tok],
    at: usize,
    room: u64,
    functions: &Functions,
    nodes: &mut Nodes,
) -> Result<Option<Listed>, OutOfMemory>
    requires below { 0 < room }
    requires held { Holds toks.now functions.now at room nodes.old }
    requires may_begin { MayBegin toks.now at }
    ensures keeps { Keeps nodes.old nodes.new }
    ensures ends { ListEnds toks.now at nodes.new result }
    ensures answer { ListAnswers (from toks.now functions.now nodes.old at) toks.now room at nodes.new result }
{
    let mut list: Vec<NodeId> = Vec::new(alloc);
    if has_sign(toks, at, Sign::CloseParen) {
        return Ok(Some(Listed {
            list: Sequence::from_vec(list),
            next: at,
        }));
    }
    let mut place = at;
    loop {
        let Some(item) = assignment_expression(
            alloc,
            toks,
            place,
            false,
            room - 1,
            functions,
            nodes,
        )?
        else {
            return Ok(None);
        };
        push_last(&mut list, item.node)?;
        if has_sign(toks, item.next, Sign::CloseParen) {
            return Ok(Some(Listed {
                list: Sequence::from_vec(list),
                next: item.next,
            }));
        }
        if !has_sign(toks, item.next, Sign::Comma) {
            return Ok(None);
        }
        place = item.next + 1;
    }
}
