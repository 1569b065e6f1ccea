//! The classes of tokens.
ghost use Rattle.std.specs.Prelude.{◌≡◌};
ghost use Rattle.wjs_forms.specs.Classes.{sign_class, key_class, class_of, is_name};

use wjs_forms::Class;
use wjs_tree::{Key, Sign, Token};

fn sign_class(sign: Sign) -> Class
    ensures { result ≡ sign_class sign }
{
    match sign {
        Sign::OpenBrace => Class::OpenBrace,
        Sign::CloseBrace => Class::CloseBrace,
        Sign::OpenParen => Class::OpenParen,
        Sign::CloseParen => Class::CloseParen,
        Sign::OpenBracket => Class::OpenBracket,
        Sign::CloseBracket => Class::CloseBracket,
        Sign::Dot => Class::Dot,
        Sign::Semicolon => Class::Semicolon,
        Sign::Comma => Class::Comma,
        Sign::Question => Class::Question,
        Sign::Colon => Class::Colon,
        Sign::Increment | Sign::Decrement => Class::Update,
        Sign::Plus | Sign::Minus => Class::Sum,
        Sign::Not | Sign::BitNot => Class::SignBefore,
        Sign::Assign => Class::Assign,
        Sign::PlusAssign
        | Sign::MinusAssign
        | Sign::MultiplyAssign
        | Sign::DivideAssign
        | Sign::RemainderAssign
        | Sign::ShiftLeftAssign
        | Sign::ShiftRightAssign
        | Sign::ShiftRightUnsignedAssign
        | Sign::BitAndAssign
        | Sign::BitOrAssign
        | Sign::BitXorAssign => Class::AssignWith,
        _ => Class::Operator,
    }
}

fn key_class(key: Key) -> Class
    ensures { result ≡ key_class key }
{
    match key {
        Key::This | Key::ThisWorld | Key::Null | Key::True | Key::False => Class::Constant,
        Key::Delete | Key::Void | Key::Typeof => Class::KeyBefore,
        Key::Instanceof => Class::Instanceof,
        Key::In => Class::In,
        Key::Function => Class::Function,
        Key::New => Class::New,
        Key::Var => Class::Var,
        Key::If => Class::If,
        Key::Do => Class::Do,
        Key::While => Class::While,
        Key::For => Class::For,
        Key::Continue => Class::Continue,
        Key::Break => Class::Break,
        Key::Return => Class::Return,
        Key::Throw => Class::Throw,
        Key::Switch => Class::Switch,
        Key::Try => Class::Try,
        Key::Case => Class::Case,
        Key::Default => Class::Default,
        Key::Catch => Class::Catch,
        Key::Finally => Class::Finally,
        Key::Else => Class::Else,
        _ => Class::Reserved,
    }
}

/// The class of a token.
pub(crate) fn class_of(token: Token) -> Class
    ensures { result ≡ class_of token }
{
    match token {
        Token::Word(_) => Class::Word,
        Token::Number(_) => Class::Literal,
        Token::Text(_) => Class::Literal,
        Token::Sign(sign) => sign_class(sign),
        Token::Key(key) => key_class(key),
    }
}

/// Whether a token of the class may be the name behind a dot (5th edition, section 11.2.1).
pub(crate) fn is_name(class: Class) -> bool
    ensures { result ≡ is_name class }
{
    match class {
        Class::Literal
        | Class::OpenParen
        | Class::CloseParen
        | Class::OpenBracket
        | Class::CloseBracket
        | Class::OpenBrace
        | Class::CloseBrace
        | Class::Dot
        | Class::Semicolon
        | Class::Comma
        | Class::Question
        | Class::Colon
        | Class::Update
        | Class::Sum
        | Class::SignBefore
        | Class::Operator
        | Class::Assign
        | Class::AssignWith
        | Class::End => false,
        _ => true,
    }
}
