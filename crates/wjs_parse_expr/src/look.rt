//! What a token is, where it stands.
ghost use Rattle.std.specs.Prelude.{◌≡◌, ◌↔◌, IsTrue, true, slice_get};
ghost use Rattle.wjs_tree.specs.Ends.{token_at, HasSign, HasKey, is_joined};
ghost use Rattle.wjs_tree.specs.Operators.{is_update};
ghost use Rattle.wjs_parse_expr.specs.Answers.{BinaryAt, AssignAt, UpdateAt, PrefixAt, SpeltAt, PropertyAt};

use wjs_tree::{
    AssignOperator, BinaryOperator, Key, PrefixOperator, PropertyKey, Sign, Spelt, Tok, Token,
    UpdateOperator,
};

pub fn token_at(toks: &[Tok], at: usize) -> Option<Token>
    ensures { result ≡ token_at toks.now at }
{
    if at < toks.len() {
        Some(toks[at].token)
    } else {
        None
    }
}

pub fn has_sign(toks: &[Tok], at: usize, sign: Sign) -> bool
    ensures { IsTrue result ↔ HasSign toks.now at sign }
{
    match token_at(toks, at) {
        Some(Token::Sign(s)) => s == sign,
        _ => false,
    }
}

pub fn has_key(toks: &[Tok], at: usize, key: Key) -> bool
    ensures { IsTrue result ↔ HasKey toks.now at key }
{
    match token_at(toks, at) {
        Some(Token::Key(k)) => k == key,
        _ => false,
    }
}

/// Whether no line ends before the token.
fn is_joined(toks: &[Tok], at: usize) -> bool
    ensures { result ≡ is_joined (slice_get toks.now at) }
{
    if at < toks.len() {
        !toks[at].after_line
    } else {
        true
    }
}

/// The operator between two operands at the place.
pub fn binary_at(toks: &[Tok], at: usize, no_in: bool) -> Option<BinaryOperator>
    ensures { BinaryAt toks.now no_in at result }
{
    let op = BinaryOperator::of(token_at(toks, at)?)?;
    if no_in && op == BinaryOperator::In {
        return None;
    }
    Some(op)
}

/// The assignment sign at the place.
pub fn assign_at(toks: &[Tok], at: usize) -> Option<AssignOperator>
    ensures { AssignAt toks.now at result }
{
    AssignOperator::of(token_at(toks, at)?)
}

/// The operator behind a target at the place, on its line.
pub fn update_at(toks: &[Tok], at: usize) -> Option<UpdateOperator>
    ensures { UpdateAt toks.now at result }
{
    let op = UpdateOperator::of(token_at(toks, at)?)?;
    if !is_joined(toks, at) {
        return None;
    }
    Some(op)
}

/// The operator before an operand at the place.
pub fn prefix_at(toks: &[Tok], at: usize) -> Option<PrefixOperator>
    ensures { PrefixAt toks.now at result }
{
    PrefixOperator::of(token_at(toks, at)?)
}

/// The name behind a dot at the place.
pub fn spelt_at(toks: &[Tok], at: usize) -> Option<Spelt>
    ensures { SpeltAt toks.now at result }
{
    match token_at(toks, at) {
        Some(Token::Word(x)) => Some(Spelt::Word(x)),
        Some(Token::Key(k)) => Some(Spelt::Key(k)),
        _ => None,
    }
}

/// The name of a property at the place.
pub fn property_at(toks: &[Tok], at: usize) -> Option<PropertyKey>
    ensures { PropertyAt toks.now at result }
{
    match token_at(toks, at) {
        Some(Token::Word(x)) => Some(PropertyKey::Spelt(Spelt::Word(x))),
        Some(Token::Key(k)) => Some(PropertyKey::Spelt(Spelt::Key(k))),
        Some(Token::Text(x)) => Some(PropertyKey::Text(x)),
        Some(Token::Number(n)) => Some(PropertyKey::Number(n)),
        _ => None,
    }
}

/// Whether the operator stands before targets only.
pub fn is_update(op: PrefixOperator) -> bool
    ensures { result ≡ is_update op }
{
    match op {
        PrefixOperator::Increment | PrefixOperator::Decrement => true,
        _ => false,
    }
}
