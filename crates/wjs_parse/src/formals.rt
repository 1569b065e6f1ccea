//! What stands before the body of a function (ECMA-262, 3rd edition, section 13).
ghost use Rattle.std.specs.Prelude.{◌≤◌, length};
ghost use Rattle.wjs_parse.specs.Answers.{WordAnswers, NameAnswers, FormalsAnswers, FormalsEnds, HeaderAnswers, HeaderEnds};

use std::alloc::Global;
use wjs_base::{OutOfMemory, TextId};
use wjs_parse_expr::{has_key, has_sign, token_at};
use wjs_parse_simple::push_last;
use wjs_tree::{Key, Sequence, Sign, Tok, Token};

/// Formals, and the place after them.
#[derive(Drop)]
pub struct ListedFormals {
    pub list: Sequence<TextId>,
    pub next: usize,
}

/// The name and the formals of a function, and the place after the brace that opens its body.
#[derive(Drop)]
pub struct Head {
    pub name: Option<TextId>,
    pub formals: Sequence<TextId>,
    pub next: usize,
}

/// `function`, a name or none, formals in parentheses, and `{`: no others are read there. None exactly where none are.
pub fn function_header(alloc: Global, toks: &[Tok], at: usize) -> Result<Option<Head>, OutOfMemory>
    ensures ends { HeaderEnds toks.now at result }
    ensures answer { HeaderAnswers toks.now at result }
{
    if !has_key(toks, at, Key::Function) {
        return Ok(None);
    }
    let (name, place) = name_at(toks, at + 1);
    if !has_sign(toks, place, Sign::OpenParen) {
        return Ok(None);
    }
    let Some(found) = formal_parameters(alloc, toks, place + 1)? else {
        return Ok(None);
    };
    if !has_sign(toks, found.next, Sign::CloseParen) {
        return Ok(None);
    }
    if !has_sign(toks, found.next + 1, Sign::OpenBrace) {
        return Ok(None);
    }
    Ok(Some(Head {
        name,
        formals: found.list,
        next: found.next + 2,
    }))
}

/// The name at the place or none, and the place after it: no other stands there before an opening parenthesis.
fn name_at(toks: &[Tok], at: usize) -> (Option<TextId>, usize)
    requires { at ≤ length toks.now }
    ensures ends { at ≤ result.1 }
    ensures answer { NameAnswers toks.now at result.0 result.1 }
{
    match word_at(toks, at) {
        Some(text) => (Some(text), at + 1),
        None => (None, at),
    }
}

/// The formals from the place: no others are read there before a closing parenthesis, and where there are none no formals
/// are.
fn formal_parameters(
    alloc: Global,
    toks: &[Tok],
    at: usize,
) -> Result<Option<ListedFormals>, OutOfMemory>
    ensures ends { FormalsEnds toks.now at result }
    ensures answer { FormalsAnswers toks.now at result }
{
    let mut list: Vec<TextId> = Vec::new(alloc);
    let Some(first) = word_at(toks, at) else {
        return Ok(Some(ListedFormals {
            list: Sequence::from_vec(list),
            next: at,
        }));
    };
    push_last(&mut list, first)?;
    let mut place = at + 1;
    while has_sign(toks, place, Sign::Comma) {
        let Some(more) = word_at(toks, place + 1) else {
            return Ok(None);
        };
        push_last(&mut list, more)?;
        place += 2;
    }
    Ok(Some(ListedFormals {
        list: Sequence::from_vec(list),
        next: place,
    }))
}

/// The name at the place.
fn word_at(toks: &[Tok], at: usize) -> Option<TextId>
    ensures { WordAnswers toks.now at result }
{
    match token_at(toks, at) {
        Some(Token::Word(text)) => Some(text),
        Some(Token::Key(_)) => None,
        Some(Token::Sign(_)) => None,
        Some(Token::Number(_)) => None,
        Some(Token::Text(_)) => None,
        None => None,
    }
}
