//! The errors that the machine makes.

/// An error that the machine makes, one for each message (ECMA-262, 3rd edition, section 15.11.6).
#[derive(Clone, Copy)]
pub enum Trouble {
    /// A ReferenceError: `NAME is not defined`.
    NotDefined,
    /// A TypeError, as the next nine: `not an object`.
    NotAnObject,
    /// `not a function`.
    NotAFunction,
    /// `not a constructor`.
    NotAConstructor,
    /// `not a world`.
    NotAWorld,
    /// `no parent world`.
    NoParentWorld,
    /// `no primitive value`.
    NoPrimitiveValue,
    /// `bad right operand`.
    BadRightOperand,
    /// `wrong receiver`.
    WrongReceiver,
    /// `no code from text`.
    NoCodeFromText,
    /// A RangeError, as the next four: `number out of range`.
    OutOfRange,
    /// `not a whole number`.
    NotWhole,
    /// `invalid array length`.
    InvalidArrayLength,
    /// `text too long`.
    TextTooLong,
    /// `invalid radix`.
    InvalidRadix,
    /// An Error whose name is `CommitFailed`: `commit failed`.
    CommitFailed,
}
