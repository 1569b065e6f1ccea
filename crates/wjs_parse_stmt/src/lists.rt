//! Statements one behind another (ECMA-262, 3rd edition, section 12.1).
ghost use Rattle.std.specs.Prelude.{◌≡◌};
ghost use Rattle.wjs_tree.specs.Shows.{Keeps};
ghost use Rattle.wjs_parse_expr.specs.Table.{Holds};
ghost use Rattle.wjs_parse_simple.specs.Answers.{SpotEnds};
ghost use Rattle.wjs_parse_stmt.specs.Answers.{BlockAnswers, StmtsAnswers, ListEnds};
ghost use Rattle.wjs_parse_stmt.specs.Made.{BlockOwn, StmtsOwn};

use crate::parts::Listed;
use crate::stmt::statement;
use std::alloc::Global;
use wjs_base::OutOfMemory;
use wjs_parse_expr::{Functions, has_sign};
use wjs_parse_simple::{Spot, is_closed, push_last};
use wjs_tree::{Node, NodeId, Nodes, Sequence, Sign, Tok};

/// A block.
#[cycle(statement)]
#[inline(always)]
pub fn block(
    alloc: Global,
    toks: &[Tok],
    at: usize,
    room: u64,
    functions: &Functions,
    nodes: &mut Nodes,
) -> Result<Option<Spot>, OutOfMemory>
    requires held { Holds toks.now functions.now at room nodes.old }
    ensures keeps { Keeps nodes.old nodes.new }
    ensures ends { SpotEnds toks.now at nodes.new result }
    ensures answer { BlockAnswers toks.now room at nodes.new result }
    ensures own { BlockOwn functions.now nodes.old nodes.new at result }
{
    if room == 0 {
        return Ok(None);
    }
    if !has_sign(toks, at, Sign::OpenBrace) {
        return Ok(None);
    }
    let Some(found) = statements(alloc, toks, at + 1, room - 1, functions, nodes)? else {
        return Ok(None);
    };
    if !has_sign(toks, found.next, Sign::CloseBrace) {
        return Ok(None);
    }
    let next = found.next + 1;
    let node = nodes.add(Node::Block(found.list))?;
    Ok(Some(Spot { node, next }))
}

/// Statements up to a token that closes them.
#[cycle(statement)]
#[inline(always)]
pub fn statements(
    alloc: Global,
    toks: &[Tok],
    at: usize,
    room: u64,
    functions: &Functions,
    nodes: &mut Nodes,
) -> Result<Option<Listed>, OutOfMemory>
    requires held { Holds toks.now functions.now at room nodes.old }
    ensures keeps { Keeps nodes.old nodes.new }
    ensures ends { ListEnds toks.now at nodes.new result }
    ensures answer { StmtsAnswers toks.now room at nodes.new result }
    ensures own { StmtsOwn functions.now nodes.old nodes.new at result }
{
    let mut list: Vec<NodeId> = Vec::new(alloc);
    let mut place = at;
    while !is_closed(toks, place) {
        let Some(item) = statement(alloc, toks, place, room, functions, nodes)? else {
            return Ok(None);
        };
        push_last(&mut list, item.node)?;
        place = item.next;
    }
    Ok(Some(Listed {
        list: Sequence::from_vec(list),
        next: place,
    }))
}
