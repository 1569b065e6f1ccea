//! The lines that end in a text, counted as a script's are.
ghost use Rattle.std.specs.Prelude.{◌≡◌, ◌+◌, ◌<◌, ◌≤◌, ◌^◌, IfOk, length, slice_get};
ghost use Rattle.std.specs.Str.{IsUtf8, chars, encode_utf8_all};
ghost use Rattle.wjs_lexer.specs.Places.{line_at, line_step};

use std::alloc::{AllocError, Global};
use wjs_base::OutOfMemory;
use wjs_lexer::is_line_end;

/// How many lines end in a text, at its line terminators, of which CR LF is one (ECMA-262, 3rd edition, section 7.3).
pub(crate) fn line_ends(alloc: Global, text: &[u8]) -> Result<u64, OutOfMemory>
    requires utf8 { IsUtf8 text.now }
    requires short { length text.now ≤ 2 ^ 24 }
    ensures { IfOk result (λ ends. ends + 1 ≡ line_at (chars text.now) (length (chars text.now))) }
{
    let chars = characters(alloc, text)?;
    Ok(count(&chars))
}

/// The characters of a text.
fn characters(alloc: Global, text: &[u8]) -> Result<Vec<char>, OutOfMemory>
    requires { IsUtf8 text.now }
    ensures { IfOk result (λ chars. encode_utf8_all chars.items ≡ text.now) }
{
    match std::str::from_utf8(text) {
        Ok(text) => {
            let chars: Result<Vec<char>, AllocError> = text.chars().collect(alloc);
            match chars {
                Ok(chars) => Ok(chars),
                Err(_) => Err(OutOfMemory),
            }
        }
        Err(_) => unreachable!(),
    }
}

/// How many lines end among characters.
fn count(chars: &[char]) -> u64
    requires { length chars.now ≤ 2 ^ 24 }
    ensures { result + 1 ≡ line_at chars.now (length chars.now) }
{
    let mut ends = 0;
    for at in 0..chars.len() {
        ends += ends_at(chars, at);
    }
    ends
}

/// How many lines end with the character at a place, 0 or 1: a CR before an LF ends none, since the LF does.
fn ends_at(chars: &[char], at: usize) -> u64
    requires inside { at < length chars.now }
    requires short { length chars.now ≤ 2 ^ 24 }
    ensures value { result ≡ line_step (slice_get chars.now at) (slice_get chars.now (at + 1)) }
    ensures small { result ≤ 1 }
{
    match chars.get(at).copied() {
        Some('\r') => {
            if chars.get(at + 1).copied() == Some('\n') {
                0
            } else {
                1
            }
        }
        Some(ch) => { if is_line_end(ch) { 1 } else { 0 } }
        None => 0,
    }
}
