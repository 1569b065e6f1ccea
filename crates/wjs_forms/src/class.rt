//! Tokens by what they may do.

/// What a token, or the end of the tokens, may do in a program. Whether a token may be the name of a property is
/// told by its class.
#[derive(Clone, Copy, PartialEq, Eq)]
pub enum Class {
    /// An identifier.
    Word,
    /// A numeric or string literal.
    Literal,
    /// `this`, `thisWorld`, `null`, `true`, `false`.
    Constant,
    OpenParen,
    CloseParen,
    OpenBracket,
    CloseBracket,
    OpenBrace,
    CloseBrace,
    Dot,
    Semicolon,
    Comma,
    Question,
    Colon,
    /// `++` or `--`.
    Update,
    /// `+` or `-`: before an operand, and between two.
    Sum,
    /// `!` or `~`.
    SignBefore,
    /// `delete`, `void`, `typeof`.
    KeyBefore,
    /// A sign between two operands, and nothing else.
    Operator,
    Instanceof,
    In,
    /// `=`.
    Assign,
    /// An assignment sign with an operator.
    AssignWith,
    Function,
    New,
    Var,
    If,
    Do,
    While,
    For,
    Continue,
    Break,
    Return,
    Throw,
    Switch,
    Try,
    Case,
    Default,
    Catch,
    Finally,
    Else,
    /// A reserved word of no use but as the name of a property.
    Reserved,
    /// No token.
    End,
}
