//! Exact arithmetic on the numbers of the language, the texts that spell them, and their digits.
#![tactic(auto)]

mod arithmetic;
mod bits;
mod digits;
mod laws;
mod numerals;
mod power;

pub use arithmetic::{NumFault, add, div, less, mul, neg, rem, same, sub};
pub use bits::{bit_and, bit_not, bit_or, bit_xor, shl, shr, to_int32, to_uint32, ushr};
pub use digits::write_radix;
pub use laws::digits_are_read_back;
pub use numerals::{parse_int, read_text};
pub use power::pow;
