//! Which statement begins at a place.
ghost use Rattle.std.specs.Prelude.{◌≡◌, ◌+◌};
ghost use Rattle.wjs_tree.specs.Ends.{token_at};
ghost use Rattle.wjs_parse_simple.specs.Kinds.{kind_of, key_kind, sign_kind, word_kind, colon_kind};

use wjs_base::TextId;
use wjs_parse_expr::token_at;
use wjs_tree::{Key, Sign, Tok, Token};

/// A kind of statement, by its first tokens.
#[derive(Clone, Copy)]
pub enum Kind {
    Block,
    Variables,
    Empty,
    If,
    Do,
    While,
    For,
    Continue,
    Break,
    Return,
    Throw,
    Label(TextId),
    Switch,
    Try,
    Within,
    /// No statement begins so.
    Nothing,
    /// An expression, if it is a statement at all.
    Plain,
}

/// The kind of the statement that may begin at the place.
pub fn kind_at(toks: &[Tok], at: usize) -> Kind
    ensures { result ≡ kind_of (token_at toks.now at) (token_at toks.now (at + 1)) }
{
    match token_at(toks, at) {
        Some(Token::Key(key)) => key_kind(key),
        Some(Token::Sign(sign)) => sign_kind(sign),
        Some(Token::Word(text)) => word_kind(text, token_at(toks, at + 1)),
        Some(Token::Number(_)) => Kind::Plain,
        Some(Token::Text(_)) => Kind::Plain,
        None => Kind::Plain,
    }
}

fn key_kind(key: Key) -> Kind
    ensures { result ≡ key_kind key }
{
    match key {
        Key::Var => Kind::Variables,
        Key::If => Kind::If,
        Key::Do => Kind::Do,
        Key::While => Kind::While,
        Key::For => Kind::For,
        Key::Continue => Kind::Continue,
        Key::Break => Kind::Break,
        Key::Return => Kind::Return,
        Key::Throw => Kind::Throw,
        Key::Switch => Kind::Switch,
        Key::Try => Kind::Try,
        Key::In => Kind::Within,
        Key::Function => Kind::Nothing,
        _ => Kind::Plain,
    }
}

fn sign_kind(sign: Sign) -> Kind
    ensures { result ≡ sign_kind sign }
{
    match sign {
        Sign::OpenBrace => Kind::Block,
        Sign::Semicolon => Kind::Empty,
        _ => Kind::Plain,
    }
}

/// A name before a colon is a label.
fn word_kind(text: TextId, next: Option<Token>) -> Kind
    ensures { result ≡ word_kind text next }
{
    match next {
        Some(Token::Sign(sign)) => colon_kind(text, sign),
        Some(Token::Key(_)) => Kind::Plain,
        Some(Token::Word(_)) => Kind::Plain,
        Some(Token::Number(_)) => Kind::Plain,
        Some(Token::Text(_)) => Kind::Plain,
        None => Kind::Plain,
    }
}

fn colon_kind(text: TextId, sign: Sign) -> Kind
    ensures { result ≡ colon_kind text sign }
{
    match sign {
        Sign::Colon => Kind::Label(text),
        _ => Kind::Plain,
    }
}
