//! Primary expressions (ECMA-262, 3rd edition, section 11.1, and functions by section 13).
ghost use Rattle.std.specs.Prelude.{◌≡◌, ◌≤◌, ◌<◌, ◌+◌, ◌-◌, Bool, false, Some, length};
ghost use Rattle.wjs_tree.specs.Children.{ChildrenBelow};
ghost use Rattle.wjs_tree.specs.Ends.{HasSign, HasKey};
ghost use Rattle.wjs_tree.specs.Shows.{Keeps};
ghost use Rattle.wjs_tree.specs.declared.signs.Sign.TheVariants as signs;
ghost use Rattle.wjs_tree.specs.declared.keys.Key.TheVariants as keys;
ghost use Rattle.wjs_parse_expr.specs.Answers.{Answers, Adds, FunctionAnswers, ItemsAnswers, PropertiesAnswers, ValueAnswers, PartEnds, ItemsEnds, PropertiesEnds, ValueEnds, FunctionEnds, from};
ghost use Rattle.wjs_parse_expr.specs.Reserved.{kind_of};
ghost use Rattle.wjs_parse_expr.specs.Table.{Holds, MayBegin};

use crate::adds::{add_array, add_object, add_paren};
use crate::expr::{assignment_expression, comma_expression};
use crate::functions::Functions;
use crate::look::{has_sign, property_at, token_at};
use crate::parts::{ListedItems, ListedProperties, Part, push_last};
use std::alloc::Global;
use wjs_base::OutOfMemory;
use wjs_tree::{Key, Node, NodeId, Nodes, Property, PropertyKey, Sequence, Sign, Tok, Token};

/// What a reserved word is as an expression.
#[derive(Clone, Copy)]
enum Reserved {
    This,
    ThisWorld,
    Null,
    Bool(bool),
    /// It begins a function.
    Function,
    /// It is none.
    Other,
}

fn kind_of(key: Key) -> Reserved
    ensures { result ≡ kind_of key }
{
    match key {
        Key::This => Reserved::This,
        Key::ThisWorld => Reserved::ThisWorld,
        Key::Null => Reserved::Null,
        Key::True => Reserved::Bool(true),
        Key::False => Reserved::Bool(false),
        Key::Function => Reserved::Function,
        _ => Reserved::Other,
    }
}

/// A name, a literal, a function, or what stands in brackets.
#[cycle(expression)]
#[inline(always)]
pub fn primary_expression(
    alloc: Global,
    toks: &[Tok],
    at: usize,
    no_in: bool,
    room: u64,
    functions: &Functions,
    nodes: &mut Nodes,
) -> Result<Option<Part>, OutOfMemory>
    requires held { Holds toks.now functions.now at room nodes.old }
    requires may_begin { MayBegin toks.now at }
    ensures keeps { Keeps nodes.old nodes.new }
    ensures ends { PartEnds toks.now at nodes.new result }
    ensures answer { Answers (from toks.now functions.now nodes.old at) toks.now 18 no_in room at nodes.new result }
{
    if room == 0 {
        return Ok(None);
    }
    if has_sign(toks, at, Sign::OpenParen) {
        return parenthesized_expression(alloc, toks, at, no_in, room, functions, nodes);
    }
    if has_sign(toks, at, Sign::OpenBracket) {
        return array_literal(alloc, toks, at, no_in, room, functions, nodes);
    }
    if has_sign(toks, at, Sign::OpenBrace) {
        return object_literal(alloc, toks, at, no_in, room, functions, nodes);
    }
    atom(toks, at, no_in, room, functions, nodes)
}

/// A name, a literal or a function: what is no bracket.
#[inline(never)]
fn atom(
    toks: &[Tok],
    at: usize,
    no_in: bool,
    room: u64,
    functions: &Functions,
    nodes: &mut Nodes,
) -> Result<Option<Part>, OutOfMemory>
    requires held { Holds toks.now functions.now at room nodes.old }
    requires may_begin { MayBegin toks.now at }
    requires below { 0 < room }
    requires no_paren { HasSign toks.now at signs.OpenParen → ⊥ }
    requires no_bracket { HasSign toks.now at signs.OpenBracket → ⊥ }
    requires no_brace { HasSign toks.now at signs.OpenBrace → ⊥ }
    ensures keeps { Keeps nodes.old nodes.new }
    ensures ends { PartEnds toks.now at nodes.new result }
    ensures answer { Answers (from toks.now functions.now nodes.old at) toks.now 18 no_in room at nodes.new result }
{
    match token_at(toks, at) {
        Some(Token::Word(text)) => add_leaf(nodes, Node::Name(text), at + 1, true),
        Some(Token::Number(value)) => add_leaf(nodes, Node::Number(value), at + 1, false),
        Some(Token::Text(text)) => add_leaf(nodes, Node::Text(text), at + 1, false),
        Some(Token::Key(key)) => reserved_word(toks, at, key, no_in, room, functions, nodes),
        Some(Token::Sign(_)) => Ok(None),
        None => Ok(None),
    }
}

fn add_leaf(
    nodes: &mut Nodes,
    node: Node,
    next: usize,
    is_target: bool,
) -> Result<Option<Part>, OutOfMemory>
    requires { ChildrenBelow (length nodes.old) node }
    ensures keeps { Keeps nodes.old nodes.new }
    ensures adds { Adds nodes.old nodes.new node next is_target result }
{
    let node = nodes.add(node)?;
    Ok(Some(Part {
        node,
        next,
        is_target,
    }))
}

/// A reserved word that is an expression, or begins a function.
fn reserved_word(
    toks: &[Tok],
    at: usize,
    key: Key,
    no_in: bool,
    room: u64,
    functions: &Functions,
    nodes: &mut Nodes,
) -> Result<Option<Part>, OutOfMemory>
    requires held { Holds toks.now functions.now at room nodes.old }
    requires may_begin { MayBegin toks.now at }
    requires below { 0 < room }
    requires key { HasKey toks.now at key }
    ensures keeps { Keeps nodes.old nodes.new }
    ensures ends { PartEnds toks.now at nodes.new result }
    ensures answer { Answers (from toks.now functions.now nodes.old at) toks.now 18 no_in room at nodes.new result }
{
    match kind_of(key) {
        Reserved::This => add_leaf(nodes, Node::This, at + 1, false),
        Reserved::ThisWorld => add_leaf(nodes, Node::ThisWorld, at + 1, false),
        Reserved::Null => add_leaf(nodes, Node::Null, at + 1, false),
        Reserved::Bool(b) => add_leaf(nodes, Node::Bool(b), at + 1, false),
        Reserved::Function => Ok(function_expression(toks, at, no_in, room, functions, nodes)),
        Reserved::Other => Ok(None),
    }
}

/// The function that is read already at the place.
fn function_expression(
    toks: &[Tok],
    at: usize,
    no_in: bool,
    room: u64,
    functions: &Functions,
    nodes: &Nodes,
) -> Option<Part>
    requires held { Holds toks.now functions.now at room nodes.now }
    requires may_begin { MayBegin toks.now at }
    requires key { HasKey toks.now at keys.Function }
    ensures ends { FunctionEnds toks.now at nodes.now result }
    ensures answer { FunctionAnswers (from toks.now functions.now nodes.now at) toks.now no_in room at nodes.now result }
{
    let Some((node, next)) = functions.at(at) else {
        return None;
    };
    if nodes.height(node) > room {
        return None;
    }
    Some(Part {
        node,
        next,
        is_target: false,
    })
}

/// An expression in parentheses.
#[cycle(expression)]
#[inline(never)]
fn parenthesized_expression(
    alloc: Global,
    toks: &[Tok],
    at: usize,
    no_in: bool,
    room: u64,
    functions: &Functions,
    nodes: &mut Nodes,
) -> Result<Option<Part>, OutOfMemory>
    requires held { Holds toks.now functions.now at room nodes.old }
    requires below { 0 < room }
    requires sign { HasSign toks.now at signs.OpenParen }
    ensures keeps { Keeps nodes.old nodes.new }
    ensures ends { PartEnds toks.now at nodes.new result }
    ensures answer { Answers (from toks.now functions.now nodes.old at) toks.now 18 no_in room at nodes.new result }
{
    let Some(inner) = comma_expression(alloc, toks, at + 1, false, room - 1, functions, nodes)?
    else {
        return Ok(None);
    };
    if !has_sign(toks, inner.next, Sign::CloseParen) {
        return Ok(None);
    }
    let node = add_paren(nodes, inner.node)?;
    Ok(Some(Part {
        node,
        next: inner.next + 1,
        is_target: inner.is_target,
    }))
}

/// An array literal.
#[cycle(expression)]
#[inline(never)]
fn array_literal(
    alloc: Global,
    toks: &[Tok],
    at: usize,
    no_in: bool,
    room: u64,
    functions: &Functions,
    nodes: &mut Nodes,
) -> Result<Option<Part>, OutOfMemory>
    requires held { Holds toks.now functions.now at room nodes.old }
    requires below { 0 < room }
    requires sign { HasSign toks.now at signs.OpenBracket }
    ensures keeps { Keeps nodes.old nodes.new }
    ensures ends { PartEnds toks.now at nodes.new result }
    ensures answer { Answers (from toks.now functions.now nodes.old at) toks.now 18 no_in room at nodes.new result }
{
    let Some(found) = array_elements(alloc, toks, at + 1, room, functions, nodes)? else {
        return Ok(None);
    };
    let next = found.next + 1;
    let node = add_array(nodes, found.list, found.tail)?;
    Ok(Some(Part {
        node,
        next,
        is_target: false,
    }))
}

/// Items up to the closing bracket.
#[cycle(expression)]
fn array_elements(
    alloc: Global,
    toks: &[Tok],
    at: usize,
    room: u64,
    functions: &Functions,
    nodes: &mut Nodes,
) -> Result<Option<ListedItems>, OutOfMemory>
    requires below { 0 < room }
    requires held { Holds toks.now functions.now at room nodes.old }
    requires may_begin { MayBegin toks.now at }
    ensures keeps { Keeps nodes.old nodes.new }
    ensures ends { ItemsEnds toks.now at nodes.new result }
    ensures answer { ItemsAnswers (from toks.now functions.now nodes.old at) toks.now room at nodes.new result }
{
    let mut list: Vec<Option<NodeId>> = Vec::new(alloc);
    let mut tail = false;
    let mut place = at;
    while !has_sign(toks, place, Sign::CloseBracket) {
        if has_sign(toks, place, Sign::Comma) {
            push_last(&mut list, None)?;
            tail = false;
            place += 1;
        } else {
            let Some(item) = assignment_expression(
                alloc,
                toks,
                place,
                false,
                room - 1,
                functions,
                nodes,
            )?
            else {
                return Ok(None);
            };
            push_last(&mut list, Some(item.node))?;
            if has_sign(toks, item.next, Sign::CloseBracket) {
                return Ok(Some(ListedItems {
                    list: Sequence::from_vec(list),
                    tail: false,
                    next: item.next,
                }));
            }
            if !has_sign(toks, item.next, Sign::Comma) {
                return Ok(None);
            }
            tail = true;
            place = item.next + 1;
        }
    }
    Ok(Some(ListedItems {
        list: Sequence::from_vec(list),
        tail,
        next: place,
    }))
}

/// An object literal.
#[cycle(expression)]
#[inline(never)]
fn object_literal(
    alloc: Global,
    toks: &[Tok],
    at: usize,
    no_in: bool,
    room: u64,
    functions: &Functions,
    nodes: &mut Nodes,
) -> Result<Option<Part>, OutOfMemory>
    requires held { Holds toks.now functions.now at room nodes.old }
    requires below { 0 < room }
    requires sign { HasSign toks.now at signs.OpenBrace }
    ensures keeps { Keeps nodes.old nodes.new }
    ensures ends { PartEnds toks.now at nodes.new result }
    ensures answer { Answers (from toks.now functions.now nodes.old at) toks.now 18 no_in room at nodes.new result }
{
    let Some(found) = properties(alloc, toks, at + 1, room, functions, nodes)? else {
        return Ok(None);
    };
    let next = found.next + 1;
    let node = add_object(nodes, found.list, found.comma)?;
    Ok(Some(Part {
        node,
        next,
        is_target: false,
    }))
}

/// Properties up to the closing brace.
#[cycle(expression)]
fn properties(
    alloc: Global,
    toks: &[Tok],
    at: usize,
    room: u64,
    functions: &Functions,
    nodes: &mut Nodes,
) -> Result<Option<ListedProperties>, OutOfMemory>
    requires below { 0 < room }
    requires held { Holds toks.now functions.now at room nodes.old }
    ensures keeps { Keeps nodes.old nodes.new }
    ensures ends { PropertiesEnds toks.now at nodes.new result }
    ensures answer { PropertiesAnswers (from toks.now functions.now nodes.old at) toks.now room at nodes.new result }
{
    let mut list: Vec<Property> = Vec::new(alloc);
    let mut behind = false;
    let mut place = at;
    while !has_sign(toks, place, Sign::CloseBrace) {
        let Some((key, value)) = property(alloc, toks, place, room, functions, nodes)? else {
            return Ok(None);
        };
        push_last(
            &mut list,
            Property {
                key,
                value: value.node,
            },
        )?;
        if has_sign(toks, value.next, Sign::CloseBrace) {
            return Ok(Some(ListedProperties {
                list: Sequence::from_vec(list),
                comma: false,
                next: value.next,
            }));
        }
        if !has_sign(toks, value.next, Sign::Comma) {
            return Ok(None);
        }
        behind = true;
        place = value.next + 1;
    }
    Ok(Some(ListedProperties {
        list: Sequence::from_vec(list),
        comma: behind,
        next: place,
    }))
}

/// A name, a colon and a value.
#[cycle(expression)]
fn property(
    alloc: Global,
    toks: &[Tok],
    at: usize,
    room: u64,
    functions: &Functions,
    nodes: &mut Nodes,
) -> Result<Option<(PropertyKey, Part)>, OutOfMemory>
    requires below { 0 < room }
    requires held { Holds toks.now functions.now at room nodes.old }
    ensures keeps { Keeps nodes.old nodes.new }
    ensures ends { ValueEnds toks.now at nodes.new result }
    ensures answer { ValueAnswers (from toks.now functions.now nodes.old (at + 2)) toks.now room at nodes.new result }
{
    let Some(key) = property_at(toks, at) else {
        return Ok(None);
    };
    if !has_sign(toks, at + 1, Sign::Colon) {
        return Ok(None);
    }
    let Some(value) = assignment_expression(alloc, toks, at + 2, false, room - 1, functions, nodes)?
    else {
        return Ok(None);
    };
    Ok(Some((key, value)))
}
