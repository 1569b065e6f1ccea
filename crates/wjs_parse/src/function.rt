//! Functions (ECMA-262, 3rd edition, section 13).
ghost use Rattle.std.specs.Prelude.{◌+◌};
ghost use Rattle.wjs_tree.specs.Shows.{Keeps};
ghost use Rattle.wjs_parse_expr.specs.Table.{Holds, MayBegin};
ghost use Rattle.wjs_parse.specs.Answers.{FunctionAnswers, BodyAnswers, FoundEnds, BodyEnds};
ghost use Rattle.wjs_parse.specs.Made.{FunctionOwn, ElementsOwn};

use crate::formals::function_header;
use crate::list::source_elements;
use std::alloc::Global;
use wjs_base::OutOfMemory;
use wjs_labels::jumps_are_right;
use wjs_parse_expr::{Found, Functions, has_sign};
use wjs_parse_stmt::Listed;
use wjs_tree::{Node, Nodes, Sign, Tok};

/// The well-formed function of at most the height 200 that begins at the place: no other is read there. None exactly where
/// none is. The functions behind the place are read already. No node stands at two places of it, and each is new or one of
/// a function within its tokens.
pub fn function_at(
    alloc: Global,
    toks: &[Tok],
    at: usize,
    functions: &Functions,
    nodes: &mut Nodes,
) -> Result<Option<Found>, OutOfMemory>
    requires held { Holds toks.now functions.now (at + 1) 200 nodes.old }
    ensures keeps { Keeps nodes.old nodes.new }
    ensures ends { FoundEnds toks.now at nodes.new result }
    ensures answer { FunctionAnswers toks.now at nodes.new result }
    ensures own { FunctionOwn functions.now nodes.old nodes.new at result }
{
    let Some(head) = function_header(alloc, toks, at)? else {
        return Ok(None);
    };
    let Some(body) = function_body(alloc, toks, head.next, functions, nodes)? else {
        return Ok(None);
    };
    let node = nodes.add(Node::Function(head.name, head.formals, body.list))?;
    Ok(Some(Found {
        node,
        next: body.next,
    }))
}

/// The elements of a function from the place, whose jumps have where to go, and the place after the brace that closes
/// them.
fn function_body(
    alloc: Global,
    toks: &[Tok],
    at: usize,
    functions: &Functions,
    nodes: &mut Nodes,
) -> Result<Option<Listed>, OutOfMemory>
    requires held { Holds toks.now functions.now at 200 nodes.old }
    requires may_begin { MayBegin toks.now at }
    ensures keeps { Keeps nodes.old nodes.new }
    ensures ends { BodyEnds toks.now at nodes.new result }
    ensures answer { BodyAnswers toks.now at nodes.new result }
    ensures own { ElementsOwn functions.now nodes.old nodes.new at result }
{
    let Some(found) = source_elements(alloc, toks, at, 199, functions, nodes)? else {
        return Ok(None);
    };
    if !has_sign(toks, found.next, Sign::CloseBrace) {
        return Ok(None);
    }
    if !jumps_are_right(nodes, found.list.as_slice(), true) {
        return Ok(None);
    }
    Ok(Some(Listed {
        list: found.list,
        next: found.next + 1,
    }))
}
