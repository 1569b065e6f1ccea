//! The operators, and the tokens that spell them (ECMA-262, 3rd edition, sections 11.3 to 11.13).
ghost use Rattle.std.specs.Prelude.{◌≡◌};
ghost use Rattle.wjs_tree.specs.Operators.{update_token, prefix_token, binary_token, assign_token, update_of, prefix_of, binary_of, binary_level};
ghost use Rattle.wjs_tree.specs.Operators.{assign_of, compound, binary_sign_of, assign_sign_of};

use crate::keys::Key;
use crate::signs::Sign;
use crate::tokens::Token;

/// An operator behind a target (section 11.3).
#[derive(Clone, Copy)]
pub enum UpdateOperator {
    Increment,
    Decrement,
}

/// An operator before an operand (section 11.4).
#[derive(Clone, Copy)]
pub enum PrefixOperator {
    Delete,
    Void,
    Typeof,
    Increment,
    Decrement,
    Plus,
    Minus,
    BitNot,
    Not,
}

/// An operator between two operands (sections 11.5 to 11.11).
#[derive(Clone, Copy, PartialEq, Eq)]
pub enum BinaryOperator {
    Multiply,
    Divide,
    Remainder,
    Add,
    Subtract,
    ShiftLeft,
    ShiftRight,
    ShiftRightUnsigned,
    Less,
    Greater,
    LessEqual,
    GreaterEqual,
    Instanceof,
    In,
    Equal,
    NotEqual,
    StrictEqual,
    StrictNotEqual,
    BitAnd,
    BitXor,
    BitOr,
    And,
    Or,
}

/// An assignment sign (section 11.13).
#[derive(Clone, Copy)]
pub enum AssignOperator {
    Plain,
    Multiply,
    Divide,
    Remainder,
    Add,
    Subtract,
    ShiftLeft,
    ShiftRight,
    ShiftRightUnsigned,
    BitAnd,
    BitXor,
    BitOr,
}

impl UpdateOperator {
    /// The token that spells it.
    pub fn token(self) -> Token
        ensures { result ≡ update_token self }
    {
        match self {
            UpdateOperator::Increment => Token::Sign(Sign::Increment),
            UpdateOperator::Decrement => Token::Sign(Sign::Decrement),
        }
    }

    /// The operator that the token spells; None exactly where it spells none.
    pub fn of(token: Token) -> Option<UpdateOperator>
        ensures { result ≡ update_of token }
    {
        match token {
            Token::Sign(Sign::Increment) => Some(UpdateOperator::Increment),
            Token::Sign(Sign::Decrement) => Some(UpdateOperator::Decrement),
            _ => None,
        }
    }
}

impl PrefixOperator {
    /// The token that spells it.
    pub fn token(self) -> Token
        ensures { result ≡ prefix_token self }
    {
        match self {
            PrefixOperator::Delete => Token::Key(Key::Delete),
            PrefixOperator::Void => Token::Key(Key::Void),
            PrefixOperator::Typeof => Token::Key(Key::Typeof),
            PrefixOperator::Increment => Token::Sign(Sign::Increment),
            PrefixOperator::Decrement => Token::Sign(Sign::Decrement),
            PrefixOperator::Plus => Token::Sign(Sign::Plus),
            PrefixOperator::Minus => Token::Sign(Sign::Minus),
            PrefixOperator::BitNot => Token::Sign(Sign::BitNot),
            PrefixOperator::Not => Token::Sign(Sign::Not),
        }
    }

    /// The operator that the token spells before an operand; None exactly where it spells none.
    pub fn of(token: Token) -> Option<PrefixOperator>
        ensures { result ≡ prefix_of token }
    {
        match token {
            Token::Key(Key::Delete) => Some(PrefixOperator::Delete),
            Token::Key(Key::Void) => Some(PrefixOperator::Void),
            Token::Key(Key::Typeof) => Some(PrefixOperator::Typeof),
            Token::Sign(Sign::Increment) => Some(PrefixOperator::Increment),
            Token::Sign(Sign::Decrement) => Some(PrefixOperator::Decrement),
            Token::Sign(Sign::Plus) => Some(PrefixOperator::Plus),
            Token::Sign(Sign::Minus) => Some(PrefixOperator::Minus),
            Token::Sign(Sign::BitNot) => Some(PrefixOperator::BitNot),
            Token::Sign(Sign::Not) => Some(PrefixOperator::Not),
            _ => None,
        }
    }
}

impl BinaryOperator {
    /// The token that spells it.
    pub fn token(self) -> Token
        ensures { result ≡ binary_token self }
    {
        match self {
            BinaryOperator::Multiply => Token::Sign(Sign::Multiply),
            BinaryOperator::Divide => Token::Sign(Sign::Divide),
            BinaryOperator::Remainder => Token::Sign(Sign::Remainder),
            BinaryOperator::Add => Token::Sign(Sign::Plus),
            BinaryOperator::Subtract => Token::Sign(Sign::Minus),
            BinaryOperator::ShiftLeft => Token::Sign(Sign::ShiftLeft),
            BinaryOperator::ShiftRight => Token::Sign(Sign::ShiftRight),
            BinaryOperator::ShiftRightUnsigned => Token::Sign(Sign::ShiftRightUnsigned),
            BinaryOperator::Less => Token::Sign(Sign::Less),
            BinaryOperator::Greater => Token::Sign(Sign::Greater),
            BinaryOperator::LessEqual => Token::Sign(Sign::LessEqual),
            BinaryOperator::GreaterEqual => Token::Sign(Sign::GreaterEqual),
            BinaryOperator::Instanceof => Token::Key(Key::Instanceof),
            BinaryOperator::In => Token::Key(Key::In),
            BinaryOperator::Equal => Token::Sign(Sign::Equal),
            BinaryOperator::NotEqual => Token::Sign(Sign::NotEqual),
            BinaryOperator::StrictEqual => Token::Sign(Sign::StrictEqual),
            BinaryOperator::StrictNotEqual => Token::Sign(Sign::StrictNotEqual),
            BinaryOperator::BitAnd => Token::Sign(Sign::BitAnd),
            BinaryOperator::BitXor => Token::Sign(Sign::BitXor),
            BinaryOperator::BitOr => Token::Sign(Sign::BitOr),
            BinaryOperator::And => Token::Sign(Sign::And),
            BinaryOperator::Or => Token::Sign(Sign::Or),
        }
    }

    /// The operator that the token spells between two operands; None exactly where it spells none.
    pub fn of(token: Token) -> Option<BinaryOperator>
        ensures { result ≡ binary_of token }
    {
        match token {
            Token::Sign(sign) => binary_sign_of(sign),
            Token::Key(Key::Instanceof) => Some(BinaryOperator::Instanceof),
            Token::Key(Key::In) => Some(BinaryOperator::In),
            _ => None,
        }
    }

    /// How tightly it binds: from 12 for the multiplicative ones down to 3 for `||`.
    pub fn level(self) -> u32
        ensures { result ≡ binary_level self }
    {
        match self {
            BinaryOperator::Multiply | BinaryOperator::Divide | BinaryOperator::Remainder => 12,
            BinaryOperator::Add | BinaryOperator::Subtract => 11,
            BinaryOperator::ShiftLeft
            | BinaryOperator::ShiftRight
            | BinaryOperator::ShiftRightUnsigned => 10,
            BinaryOperator::Less
            | BinaryOperator::Greater
            | BinaryOperator::LessEqual
            | BinaryOperator::GreaterEqual
            | BinaryOperator::Instanceof
            | BinaryOperator::In => 9,
            BinaryOperator::Equal
            | BinaryOperator::NotEqual
            | BinaryOperator::StrictEqual
            | BinaryOperator::StrictNotEqual => 8,
            BinaryOperator::BitAnd => 7,
            BinaryOperator::BitXor => 6,
            BinaryOperator::BitOr => 5,
            BinaryOperator::And => 4,
            BinaryOperator::Or => 3,
        }
    }
}

fn binary_sign_of(sign: Sign) -> Option<BinaryOperator>
    ensures { result ≡ binary_sign_of sign }
{
    match sign {
        Sign::Multiply => Some(BinaryOperator::Multiply),
        Sign::Divide => Some(BinaryOperator::Divide),
        Sign::Remainder => Some(BinaryOperator::Remainder),
        Sign::Plus => Some(BinaryOperator::Add),
        Sign::Minus => Some(BinaryOperator::Subtract),
        Sign::ShiftLeft => Some(BinaryOperator::ShiftLeft),
        Sign::ShiftRight => Some(BinaryOperator::ShiftRight),
        Sign::ShiftRightUnsigned => Some(BinaryOperator::ShiftRightUnsigned),
        Sign::Less => Some(BinaryOperator::Less),
        Sign::Greater => Some(BinaryOperator::Greater),
        Sign::LessEqual => Some(BinaryOperator::LessEqual),
        Sign::GreaterEqual => Some(BinaryOperator::GreaterEqual),
        Sign::Equal => Some(BinaryOperator::Equal),
        Sign::NotEqual => Some(BinaryOperator::NotEqual),
        Sign::StrictEqual => Some(BinaryOperator::StrictEqual),
        Sign::StrictNotEqual => Some(BinaryOperator::StrictNotEqual),
        Sign::BitAnd => Some(BinaryOperator::BitAnd),
        Sign::BitXor => Some(BinaryOperator::BitXor),
        Sign::BitOr => Some(BinaryOperator::BitOr),
        Sign::And => Some(BinaryOperator::And),
        Sign::Or => Some(BinaryOperator::Or),
        _ => None,
    }
}

impl AssignOperator {
    /// The token that spells it.
    pub fn token(self) -> Token
        ensures { result ≡ assign_token self }
    {
        match self {
            AssignOperator::Plain => Token::Sign(Sign::Assign),
            AssignOperator::Multiply => Token::Sign(Sign::MultiplyAssign),
            AssignOperator::Divide => Token::Sign(Sign::DivideAssign),
            AssignOperator::Remainder => Token::Sign(Sign::RemainderAssign),
            AssignOperator::Add => Token::Sign(Sign::PlusAssign),
            AssignOperator::Subtract => Token::Sign(Sign::MinusAssign),
            AssignOperator::ShiftLeft => Token::Sign(Sign::ShiftLeftAssign),
            AssignOperator::ShiftRight => Token::Sign(Sign::ShiftRightAssign),
            AssignOperator::ShiftRightUnsigned => Token::Sign(Sign::ShiftRightUnsignedAssign),
            AssignOperator::BitAnd => Token::Sign(Sign::BitAndAssign),
            AssignOperator::BitXor => Token::Sign(Sign::BitXorAssign),
            AssignOperator::BitOr => Token::Sign(Sign::BitOrAssign),
        }
    }

    /// The sign that the token is; None exactly where it is none.
    pub fn of(token: Token) -> Option<AssignOperator>
        ensures { result ≡ assign_of token }
    {
        match token {
            Token::Sign(sign) => assign_sign_of(sign),
            _ => None,
        }
    }

    /// The operator that a compound assignment applies; None exactly for `=`.
    pub fn compound(self) -> Option<BinaryOperator>
        ensures { result ≡ compound self }
    {
        match self {
            AssignOperator::Plain => None,
            AssignOperator::Multiply => Some(BinaryOperator::Multiply),
            AssignOperator::Divide => Some(BinaryOperator::Divide),
            AssignOperator::Remainder => Some(BinaryOperator::Remainder),
            AssignOperator::Add => Some(BinaryOperator::Add),
            AssignOperator::Subtract => Some(BinaryOperator::Subtract),
            AssignOperator::ShiftLeft => Some(BinaryOperator::ShiftLeft),
            AssignOperator::ShiftRight => Some(BinaryOperator::ShiftRight),
            AssignOperator::ShiftRightUnsigned => Some(BinaryOperator::ShiftRightUnsigned),
            AssignOperator::BitAnd => Some(BinaryOperator::BitAnd),
            AssignOperator::BitXor => Some(BinaryOperator::BitXor),
            AssignOperator::BitOr => Some(BinaryOperator::BitOr),
        }
    }
}

fn assign_sign_of(sign: Sign) -> Option<AssignOperator>
    ensures { result ≡ assign_sign_of sign }
{
    match sign {
        Sign::Assign => Some(AssignOperator::Plain),
        Sign::MultiplyAssign => Some(AssignOperator::Multiply),
        Sign::DivideAssign => Some(AssignOperator::Divide),
        Sign::RemainderAssign => Some(AssignOperator::Remainder),
        Sign::PlusAssign => Some(AssignOperator::Add),
        Sign::MinusAssign => Some(AssignOperator::Subtract),
        Sign::ShiftLeftAssign => Some(AssignOperator::ShiftLeft),
        Sign::ShiftRightAssign => Some(AssignOperator::ShiftRight),
        Sign::ShiftRightUnsignedAssign => Some(AssignOperator::ShiftRightUnsigned),
        Sign::BitAndAssign => Some(AssignOperator::BitAnd),
        Sign::BitXorAssign => Some(AssignOperator::BitXor),
        Sign::BitOrAssign => Some(AssignOperator::BitOr),
        _ => None,
    }
}
