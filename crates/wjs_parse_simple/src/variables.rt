//! Variables and their initialisers (ECMA-262, 3rd edition, section 12.2).
ghost use Rattle.std.specs.Prelude.{Bool};
ghost use Rattle.wjs_tree.specs.Shows.{Keeps};
ghost use Rattle.wjs_parse_expr.specs.Table.{Holds};
ghost use Rattle.wjs_parse_simple.specs.Lists.{VariablesAnswers, VariablesEnds, VariableAnswers, VariableEnds, WordAt};
ghost use Rattle.wjs_parse_simple.specs.Made.{VariablesOwn, VariableOwn};

use crate::ends::ends_in_update;
use crate::parts::{Declared, ListedVariables, Stop, push_last};
use std::alloc::Global;
use wjs_base::{OutOfMemory, TextId};
use wjs_parse_expr::{Functions, assignment_expression, has_sign, token_at};
use wjs_tree::{Declarator, Nodes, Sequence, Sign, Tok, Token};

/// The variables from the place, with their initialisers. Where `no_in` is true, no operator `in` stands outside brackets
/// in them.
#[inline(never)]
pub fn variable_declarations(
    alloc: Global,
    toks: &[Tok],
    at: usize,
    no_in: bool,
    room: u64,
    functions: &Functions,
    nodes: &mut Nodes,
) -> Result<Option<ListedVariables>, OutOfMemory>
    requires held { Holds toks.now functions.now at room nodes.old }
    ensures keeps { Keeps nodes.old nodes.new }
    ensures ends { VariablesEnds toks.now at nodes.new result }
    ensures answer { VariablesAnswers toks.now no_in room at nodes.new result }
    ensures own { VariablesOwn functions.now nodes.old nodes.new at result }
{
    let mut list: Vec<Declarator> = Vec::new(alloc);
    let Some(mut last) = variable_declaration(alloc, toks, at, no_in, room, functions, nodes)?
    else {
        return Ok(None);
    };
    while has_sign(toks, last.next, Sign::Comma) {
        push_last(&mut list, last.declarator)?;
        let Some(more) = variable_declaration(
            alloc,
            toks,
            last.next + 1,
            no_in,
            room,
            functions,
            nodes,
        )?
        else {
            return Ok(None);
        };
        last = more;
    }
    push_last(&mut list, last.declarator)?;
    Ok(Some(ListedVariables {
        list: Sequence::from_vec(list),
        next: last.next,
        stop: last.stop,
    }))
}

/// A variable from the place, with its initialiser or without.
fn variable_declaration(
    alloc: Global,
    toks: &[Tok],
    at: usize,
    no_in: bool,
    room: u64,
    functions: &Functions,
    nodes: &mut Nodes,
) -> Result<Option<Declared>, OutOfMemory>
    requires held { Holds toks.now functions.now at room nodes.old }
    ensures keeps { Keeps nodes.old nodes.new }
    ensures ends { VariableEnds toks.now at nodes.new result }
    ensures answer { VariableAnswers toks.now no_in room at nodes.new result }
    ensures own { VariableOwn functions.now nodes.old nodes.new at result }
{
    let Some(name) = word_at(toks, at) else {
        return Ok(None);
    };
    if !has_sign(toks, at + 1, Sign::Assign) {
        return Ok(Some(Declared {
            declarator: Declarator { name, value: None },
            next: at + 1,
            stop: Stop::InName,
        }));
    }
    let Some(value) = assignment_expression(alloc, toks, at + 2, no_in, room, functions, nodes)?
    else {
        return Ok(None);
    };
    Ok(Some(Declared {
        declarator: Declarator {
            name,
            value: Some(value.node),
        },
        next: value.next,
        stop: Stop::InExpr(ends_in_update(toks, value.next)),
    }))
}

/// The name at the place.
pub fn word_at(toks: &[Tok], at: usize) -> Option<TextId>
    ensures { WordAt toks.now at result }
{
    match token_at(toks, at) {
        Some(Token::Word(text)) => Some(text),
        Some(Token::Key(_)) => None,
        Some(Token::Sign(_)) => None,
        Some(Token::Number(_)) => None,
        Some(Token::Text(_)) => None,
        None => None,
    }
}
