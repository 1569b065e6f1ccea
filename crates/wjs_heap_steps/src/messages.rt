//! The messages of the errors that the machine makes.
ghost use Rattle.std.specs.Prelude.{◌≡◌, ◌++◌, [], take, IfOk};
ghost use Rattle.wjs_base.specs.Text.{longest};
ghost use Rattle.wjs_meaning.specs.Errors.{message_of};

use std::alloc::{AllocError, Global};
use wjs_meaning::Trouble;
use wjs_texts::LONGEST_TEXT;

/// What follows a name that is not defined.
const NOT_DEFINED: &[u8] = b" is not defined";

/// The message of an error about no name.
pub fn message_of(trouble: Trouble) -> &'static [u8]
    ensures { result.now ≡ message_of trouble [] }
{
    match trouble {
        Trouble::NotDefined => NOT_DEFINED,
        Trouble::NotAnObject => b"not an object",
        Trouble::NotAFunction => b"not a function",
        Trouble::NotAConstructor => b"not a constructor",
        Trouble::NotAWorld => b"not a world",
        Trouble::NoParentWorld => b"no parent world",
        Trouble::NoPrimitiveValue => b"no primitive value",
        Trouble::BadRightOperand => b"bad right operand",
        Trouble::WrongReceiver => b"wrong receiver",
        Trouble::NoCodeFromText => b"no code from text",
        Trouble::OutOfRange => b"number out of range",
        Trouble::NotWhole => b"not a whole number",
        Trouble::InvalidArrayLength => b"invalid array length",
        Trouble::TextTooLong => b"text too long",
        Trouble::InvalidRadix => b"invalid radix",
        Trouble::CommitFailed => b"commit failed",
    }
}

/// The code units of ASCII text.
pub fn units_of_ascii(alloc: Global, text: &[u8]) -> Result<Vec<u16>, AllocError>
    ensures { IfOk result (λ units. units.items ≡ text.now) }
{
    let mut units = Vec::with_capacity(alloc, text.len())?;
    for byte in text {
        units.push(u16::from(*byte))?;
    }
    Ok(units)
}

/// The message that a name is not defined, cut to the longest text.
pub fn message_about(alloc: Global, name: &[u16]) -> Result<Vec<u16>, AllocError>
    ensures { IfOk result (λ units. units.items ≡ message_of Trouble.NotDefined name.now) }
{
    let mut units = Vec::from_slice(alloc, name)?;
    let rest = units_of_ascii(alloc, NOT_DEFINED)?;
    units.extend_from_slice(rest.as_slice())?;
    units.truncate(LONGEST_TEXT);
    Ok(units)
}
