//! Where statements end, and where an end may be inserted (ECMA-262, 3rd edition, section 7.9).
ghost use Rattle.std.specs.Prelude.{◌≡◌, ◌↔◌, ◌<◌, IsTrue, slice_get, is_some, ◌||◌};
ghost use Rattle.wjs_tree.specs.Operators.{binary_of, assign_of};
ghost use Rattle.wjs_tree.specs.Ends.{token_at, HasSign, CanInsert, Offends, is_joined, is_operator, is_suffix, continues_name, continues};
ghost use Rattle.wjs_tree.specs.declared.signs.Sign.TheVariants as signs;
ghost use Rattle.wjs_parse_simple.specs.Readings.{ending_of, update_before, EndAnswers, is_update_token, is_closer};

use crate::parts::{Ended, Stop};
use wjs_parse_expr::{has_sign, token_at};
use wjs_tree::{AssignOperator, BinaryOperator, End, Key, Sign, Tok, Token};

/// The end of a statement at the place; None exactly where none stands there and none may be inserted.
pub fn end_at(toks: &[Tok], at: usize, stop: Stop) -> Option<Ended>
    ensures { EndAnswers toks.now at (ending_of stop) result }
{
    if has_sign(toks, at, Sign::Semicolon) {
        Some(Ended {
            end: End::Written,
            next: at + 1,
        })
    } else if can_insert(toks, at, stop) {
        Some(Ended {
            end: End::Inserted,
            next: at,
        })
    } else {
        None
    }
}

/// Whether an end may be inserted before the place, where no `;` stands.
fn can_insert(toks: &[Tok], at: usize, stop: Stop) -> bool
    requires { HasSign toks.now at signs.Semicolon → ⊥ }
    ensures { IsTrue result ↔ CanInsert toks.now (ending_of stop) at }
{
    let Some(token) = token_at(toks, at) else {
        return true;
    };
    if has_sign(toks, at, Sign::CloseBrace) {
        return true;
    }
    if is_joined(toks, at) {
        return false;
    }
    !continues(stop, token)
}

/// Whether no line ends before the token.
pub fn is_joined(toks: &[Tok], at: usize) -> bool
    ensures { result ≡ is_joined (slice_get toks.now at) }
{
    if at < toks.len() {
        !toks[at].after_line
    } else {
        true
    }
}

/// Whether the token continues a statement that ends so.
fn continues(stop: Stop, token: Token) -> bool
    ensures { result ≡ continues (ending_of stop) token }
{
    match stop {
        Stop::Complete => false,
        Stop::InName => continues_name(token),
        Stop::InExpr(update) => is_operator(token) || (is_suffix(token) && !update),
    }
}

fn continues_name(token: Token) -> bool
    ensures { result ≡ continues_name token }
{
    match token {
        Token::Sign(sign) => match sign {
            Sign::Assign => true,
            Sign::Comma => true,
            _ => false,
        },
        Token::Key(_) => false,
        Token::Word(_) => false,
        Token::Number(_) => false,
        Token::Text(_) => false,
    }
}

/// Whether the token continues any expression.
fn is_operator(token: Token) -> bool
    ensures { result ≡ is_operator token }
{
    match token {
        Token::Sign(sign) => match sign {
            Sign::Question => true,
            Sign::Comma => true,
            _ => spells_operator(token),
        },
        Token::Key(_) => spells_operator(token),
        Token::Word(_) => false,
        Token::Number(_) => false,
        Token::Text(_) => false,
    }
}

fn spells_operator(token: Token) -> bool
    ensures { result ≡ (is_some (binary_of token) || is_some (assign_of token)) }
{
    BinaryOperator::of(token).is_some() || AssignOperator::of(token).is_some()
}

/// Whether the token continues an expression that doesn't end in `++` or `--`.
fn is_suffix(token: Token) -> bool
    ensures { result ≡ is_suffix token }
{
    match token {
        Token::Sign(sign) => match sign {
            Sign::OpenParen => true,
            Sign::OpenBracket => true,
            Sign::Dot => true,
            _ => false,
        },
        Token::Key(_) => false,
        Token::Word(_) => false,
        Token::Number(_) => false,
        Token::Text(_) => false,
    }
}

/// Whether the token before the place is `++` or `--`.
pub fn ends_in_update(toks: &[Tok], at: usize) -> bool
    requires { 0 < at }
    ensures { result ≡ update_before toks.now at }
{
    is_update(token_at(toks, at - 1))
}

fn is_update(token: Option<Token>) -> bool
    ensures { result ≡ is_update_token token }
{
    match token {
        Some(Token::Sign(sign)) => match sign {
            Sign::Increment => true,
            Sign::Decrement => true,
            _ => false,
        },
        Some(Token::Key(_)) => false,
        Some(Token::Word(_)) => false,
        Some(Token::Number(_)) => false,
        Some(Token::Text(_)) => false,
        None => false,
    }
}

/// Whether no statement begins at the place since a list of statements is closed there.
pub fn is_closed(toks: &[Tok], at: usize) -> bool
    ensures { result ≡ is_closer (token_at toks.now at) }
{
    match token_at(toks, at) {
        Some(Token::Sign(sign)) => match sign {
            Sign::CloseBrace => true,
            _ => false,
        },
        Some(Token::Key(key)) => match key {
            Key::Case => true,
            Key::Default => true,
            _ => false,
        },
        Some(Token::Word(_)) => false,
        Some(Token::Number(_)) => false,
        Some(Token::Text(_)) => false,
        None => true,
    }
}
