//! Expressions down to unary operators (ECMA-262, 3rd edition, sections 11.4 to 11.14).
ghost use Rattle.std.specs.Prelude.{◌≡◌, ◌≤◌, ◌<◌, ◌+◌, ◌-◌, Bool, false, length, IfOk};
ghost use Rattle.wjs_tree.specs.Ends.{HasSign, HasToken};
ghost use Rattle.wjs_tree.specs.Operators.{prefix_token};
ghost use Rattle.wjs_tree.specs.Shows.{Keeps};
ghost use Rattle.wjs_tree.specs.declared.signs.Sign.TheVariants as signs;
ghost use Rattle.wjs_parse_expr.specs.Readings.{Continues};
ghost use Rattle.wjs_parse_expr.specs.Steps.{BinaryStep, CommaStep, CondStep, AssignStep};
ghost use Rattle.wjs_parse_expr.specs.Answers.{Answers, Steps, IsExpression, OperandAnswers, PartEnds, from};
ghost use Rattle.wjs_parse_expr.specs.Table.{Holds, MayBegin};

use crate::adds::add_postfix;
use crate::found::{Found, ParseFault};
use crate::functions::Functions;
use crate::look::{assign_at, binary_at, has_sign, is_update, prefix_at, update_at};
use crate::member::{member_chain, target};
use crate::parts::Part;
use std::alloc::Global;
use wjs_base::OutOfMemory;
use wjs_tree::{Node, Nodes, PrefixOperator, Sign, Tok};

/// The longest well-formed expression that begins at the place, and no other tree spells its tokens; NotAScript exactly
/// where none begins there. Where `no_in` is true, no operator `in` stands outside brackets in it. Functions are taken
/// from `functions`. The nodes that were there stay. No node stands at two places of the tree, and each node of it is new
/// or belongs to an entry of `functions` within its tokens. No expression begins at a `function` right behind a dot, which
/// is the name of a property.
pub fn expression(
    alloc: Global,
    toks: &[Tok],
    at: usize,
    no_in: bool,
    functions: &Functions,
    nodes: &mut Nodes,
) -> Result<Found, ParseFault>
    requires held { Holds toks.now functions.now at 200 nodes.old }
    requires may_begin { MayBegin toks.now at }
    ensures keeps { Keeps nodes.old nodes.new }
    ensures ends { IfOk result (λ p. (at < p.next) × (p.next ≤ length toks.now) × (p.node.0 < length nodes.new)) }
    ensures answer { IsExpression toks.now functions.now no_in at nodes.old nodes.new result }
{
    match comma_expression(alloc, toks, at, no_in, 200, functions, nodes) {
        Ok(Some(part)) => Ok(Found {
            node: part.node,
            next: part.next,
        }),
        Ok(None) => Err(ParseFault::NotAScript),
        Err(_) => Err(ParseFault::OutOfMemory),
    }
}

/// The longest expression from the place of at most the height `room`: any other is shorter and stands before a token that
/// may continue it. None exactly where none begins there.
#[cycle(expression)]
pub fn comma_expression(
    alloc: Global,
    toks: &[Tok],
    at: usize,
    no_in: bool,
    room: u64,
    functions: &Functions,
    nodes: &mut Nodes,
) -> Result<Option<Part>, OutOfMemory>
    requires held { Holds toks.now functions.now at room nodes.old }
    requires may_begin { MayBegin toks.now at }
    ensures keeps { Keeps nodes.old nodes.new }
    ensures ends { PartEnds toks.now at nodes.new result }
    ensures answer { Answers (from toks.now functions.now nodes.old at) toks.now 0 no_in room at nodes.new result }
{
    let Some(mut left) = assignment_expression(alloc, toks, at, no_in, room, functions, nodes)?
    else {
        return Ok(None);
    };
    while let Some(longer) = after_comma(alloc, toks, left, no_in, room, functions, nodes)? {
        left = longer;
    }
    Ok(Some(left))
}

/// The left operand with a comma and its right operand, where these follow.
#[cycle(expression)]
#[inline(never)]
fn after_comma(
    alloc: Global,
    toks: &[Tok],
    left: Part,
    no_in: bool,
    room: u64,
    functions: &Functions,
    nodes: &mut Nodes,
) -> Result<Option<Part>, OutOfMemory>
    requires held { Holds toks.now functions.now left.next room nodes.old }
    requires there { left.node.0 < length nodes.old }
    ensures keeps { Keeps nodes.old nodes.new }
    ensures ends { PartEnds toks.now left.next nodes.new result }
    ensures answer { Steps functions.now (CommaStep toks.now no_in room) (Continues toks.now 1 no_in) nodes.old nodes.new left result }
{
    if room == 0 || !has_sign(toks, left.next, Sign::Comma) {
        return Ok(None);
    }
    let Some(right) = assignment_expression(
        alloc,
        toks,
        left.next + 1,
        no_in,
        room - 1,
        functions,
        nodes,
    )?
    else {
        return Ok(None);
    };
    let node = nodes.add(Node::Comma(left.node, right.node))?;
    Ok(Some(Part {
        node,
        next: right.next,
        is_target: false,
    }))
}

/// The longest assignment expression from the place of at most the height `room` (section 11.13): any other is shorter and
/// stands before a token that may continue it. None exactly where none begins there.
#[cycle(expression)]
pub fn assignment_expression(
    alloc: Global,
    toks: &[Tok],
    at: usize,
    no_in: bool,
    room: u64,
    functions: &Functions,
    nodes: &mut Nodes,
) -> Result<Option<Part>, OutOfMemory>
    requires held { Holds toks.now functions.now at room nodes.old }
    requires may_begin { MayBegin toks.now at }
    ensures keeps { Keeps nodes.old nodes.new }
    ensures ends { PartEnds toks.now at nodes.new result }
    ensures answer { Answers (from toks.now functions.now nodes.old at) toks.now 1 no_in room at nodes.new result }
{
    let Some(left) = binary_expression(alloc, toks, at, 3, no_in, room, functions, nodes)? else {
        return Ok(None);
    };
    if has_sign(toks, left.next, Sign::Question) {
        let longer = conditional_expression(alloc, toks, left, no_in, room, functions, nodes)?;
        return match longer {
            Some(part) => Ok(Some(part)),
            None => Ok(Some(left)),
        };
    }
    if !left.is_target {
        return Ok(Some(left));
    }
    let longer = assignment_to_target(alloc, toks, left, no_in, room, functions, nodes)?;
    match longer {
        Some(part) => Ok(Some(part)),
        None => Ok(Some(left)),
    }
}

/// The left operand with `?` and both choices, where these follow.
#[cycle(expression)]
#[inline(never)]
fn conditional_expression(
    alloc: Global,
    toks: &[Tok],
    left: Part,
    no_in: bool,
    room: u64,
    functions: &Functions,
    nodes: &mut Nodes,
) -> Result<Option<Part>, OutOfMemory>
    requires held { Holds toks.now functions.now left.next room nodes.old }
    requires there { left.node.0 < length nodes.old }
    requires sign { HasSign toks.now left.next signs.Question }
    ensures keeps { Keeps nodes.old nodes.new }
    ensures ends { PartEnds toks.now left.next nodes.new result }
    ensures answer { Steps functions.now (CondStep toks.now no_in room) (Continues toks.now 1 no_in) nodes.old nodes.new left result }
{
    if room == 0 {
        return Ok(None);
    }
    let Some(yes) = assignment_expression(
        alloc,
        toks,
        left.next + 1,
        false,
        room - 1,
        functions,
        nodes,
    )?
    else {
        return Ok(None);
    };
    if !has_sign(toks, yes.next, Sign::Colon) {
        return Ok(None);
    }
    let Some(no) = assignment_expression(
        alloc,
        toks,
        yes.next + 1,
        no_in,
        room - 1,
        functions,
        nodes,
    )?
    else {
        return Ok(None);
    };
    let node = nodes.add(Node::Cond(left.node, yes.node, no.node))?;
    Ok(Some(Part {
        node,
        next: no.next,
        is_target: false,
    }))
}

/// The target with an assignment sign and the value, where these follow.
#[cycle(expression)]
#[inline(never)]
fn assignment_to_target(
    alloc: Global,
    toks: &[Tok],
    left: Part,
    no_in: bool,
    room: u64,
    functions: &Functions,
    nodes: &mut Nodes,
) -> Result<Option<Part>, OutOfMemory>
    requires held { Holds toks.now functions.now left.next room nodes.old }
    requires there { left.node.0 < length nodes.old }
    ensures keeps { Keeps nodes.old nodes.new }
    ensures ends { PartEnds toks.now left.next nodes.new result }
    ensures answer { Steps functions.now (AssignStep toks.now no_in room) (Continues toks.now 1 no_in) nodes.old nodes.new left result }
{
    let Some(op) = assign_at(toks, left.next) else {
        return Ok(None);
    };
    if room == 0 {
        return Ok(None);
    }
    let Some(value) = assignment_expression(
        alloc,
        toks,
        left.next + 1,
        no_in,
        room - 1,
        functions,
        nodes,
    )?
    else {
        return Ok(None);
    };
    let node = nodes.add(Node::Assign(left.node, op, value.node))?;
    Ok(Some(Part {
        node,
        next: value.next,
        is_target: false,
    }))
}

/// Left operands and operators of the level and of those that bind tighter, from the left to the right. The tightest are taken
/// first, then the others level by level in one loop: a level that has no operator takes no stack.
#[cycle(expression)]
#[inline(always)]
fn binary_expression(
    alloc: Global,
    toks: &[Tok],
    at: usize,
    level: u32,
    no_in: bool,
    room: u64,
    functions: &Functions,
    nodes: &mut Nodes,
) -> Result<Option<Part>, OutOfMemory>
    requires low { 3 ≤ level }
    requires high { level ≤ 13 }
    requires held { Holds toks.now functions.now at room nodes.old }
    requires may_begin { MayBegin toks.now at }
    ensures keeps { Keeps nodes.old nodes.new }
    ensures ends { PartEnds toks.now at nodes.new result }
    ensures answer { Answers (from toks.now functions.now nodes.old at) toks.now level no_in room at nodes.new result }
{
    let Some(mut left) = unary_expression(alloc, toks, at, no_in, room, functions, nodes)? else {
        return Ok(None);
    };
    if level > 12 {
        return Ok(Some(left));
    }
    let mut reached = 12;
    'levels: loop {
        if let Some(longer) = binary_operation(
            alloc, toks, left, reached, no_in, room, functions, nodes,
        )? {
            left = longer;
        } else if reached == level {
            return Ok(Some(left));
        } else {
            reached -= 1;
        }
    }
}

/// The left operand with an operator of the level and its right operand, where these follow.
#[cycle(expression)]
#[inline(never)]
fn binary_operation(
    alloc: Global,
    toks: &[Tok],
    left: Part,
    level: u32,
    no_in: bool,
    room: u64,
    functions: &Functions,
    nodes: &mut Nodes,
) -> Result<Option<Part>, OutOfMemory>
    requires low { 3 ≤ level }
    requires high { level ≤ 12 }
    requires held { Holds toks.now functions.now left.next room nodes.old }
    requires there { left.node.0 < length nodes.old }
    ensures keeps { Keeps nodes.old nodes.new }
    ensures ends { PartEnds toks.now left.next nodes.new result }
    ensures answer { Steps functions.now (BinaryStep toks.now level no_in room) (Continues toks.now (level + 1) no_in) nodes.old nodes.new left result }
{
    let Some(op) = binary_at(toks, left.next, no_in) else {
        return Ok(None);
    };
    if room == 0 || op.level() != level {
        return Ok(None);
    }
    let Some(right) = binary_expression(
        alloc,
        toks,
        left.next + 1,
        level + 1,
        no_in,
        room - 1,
        functions,
        nodes,
    )?
    else {
        return Ok(None);
    };
    let node = nodes.add(Node::Binary(left.node, op, right.node))?;
    Ok(Some(Part {
        node,
        next: right.next,
        is_target: false,
    }))
}

/// An operand behind operators.
#[cycle(expression)]
#[inline(always)]
fn unary_expression(
    alloc: Global,
    toks: &[Tok],
    at: usize,
    no_in: bool,
    room: u64,
    functions: &Functions,
    nodes: &mut Nodes,
) -> Result<Option<Part>, OutOfMemory>
    requires held { Holds toks.now functions.now at room nodes.old }
    requires may_begin { MayBegin toks.now at }
    ensures keeps { Keeps nodes.old nodes.new }
    ensures ends { PartEnds toks.now at nodes.new result }
    ensures answer { Answers (from toks.now functions.now nodes.old at) toks.now 13 no_in room at nodes.new result }
{
    match prefix_at(toks, at) {
        Some(op) => prefix_expression(alloc, toks, at, op, no_in, room, functions, nodes),
        None => postfix_expression(alloc, toks, at, no_in, room, functions, nodes),
    }
}

/// An operator that stands there, with its operand.
#[cycle(expression)]
#[inline(never)]
fn prefix_expression(
    alloc: Global,
    toks: &[Tok],
    at: usize,
    op: PrefixOperator,
    no_in: bool,
    room: u64,
    functions: &Functions,
    nodes: &mut Nodes,
) -> Result<Option<Part>, OutOfMemory>
    requires held { Holds toks.now functions.now at room nodes.old }
    requires operator { HasToken toks.now at (prefix_token op) }
    ensures keeps { Keeps nodes.old nodes.new }
    ensures ends { PartEnds toks.now at nodes.new result }
    ensures answer { Answers (from toks.now functions.now nodes.old at) toks.now 13 no_in room at nodes.new result }
{
    if room == 0 {
        return Ok(None);
    }
    let Some(inner) = prefix_operand(alloc, toks, at + 1, op, no_in, room - 1, functions, nodes)?
    else {
        return Ok(None);
    };
    let node = nodes.add(Node::Prefix(op, inner.node))?;
    Ok(Some(Part {
        node,
        next: inner.next,
        is_target: false,
    }))
}

/// What an operator stands before: a target, where it is `++` or `--`.
#[cycle(expression)]
#[inline(always)]
fn prefix_operand(
    alloc: Global,
    toks: &[Tok],
    at: usize,
    op: PrefixOperator,
    no_in: bool,
    room: u64,
    functions: &Functions,
    nodes: &mut Nodes,
) -> Result<Option<Part>, OutOfMemory>
    requires held { Holds toks.now functions.now at room nodes.old }
    requires may_begin { MayBegin toks.now at }
    ensures keeps { Keeps nodes.old nodes.new }
    ensures ends { PartEnds toks.now at nodes.new result }
    ensures answer { OperandAnswers (from toks.now functions.now nodes.old at) op toks.now no_in room at nodes.new result }
{
    if is_update(op) {
        target(alloc, toks, at, no_in, room, functions, nodes)
    } else {
        unary_expression(alloc, toks, at, no_in, room, functions, nodes)
    }
}

/// A call, and a target with `++` or `--` behind it on its line.
#[cycle(expression)]
#[inline(always)]
fn postfix_expression(
    alloc: Global,
    toks: &[Tok],
    at: usize,
    no_in: bool,
    room: u64,
    functions: &Functions,
    nodes: &mut Nodes,
) -> Result<Option<Part>, OutOfMemory>
    requires held { Holds toks.now functions.now at room nodes.old }
    requires may_begin { MayBegin toks.now at }
    ensures keeps { Keeps nodes.old nodes.new }
    ensures ends { PartEnds toks.now at nodes.new result }
    ensures answer { Answers (from toks.now functions.now nodes.old at) toks.now 14 no_in room at nodes.new result }
{
    let Some(head) = member_chain(alloc, toks, at, true, no_in, room, functions, nodes)? else {
        return Ok(None);
    };
    let left = head.part;
    if !left.is_target {
        return Ok(Some(left));
    }
    let Some(op) = update_at(toks, left.next) else {
        return Ok(Some(left));
    };
    let node = add_postfix(nodes, left.node, op)?;
    Ok(Some(Part {
        node,
        next: left.next + 1,
        is_target: false,
    }))
}
