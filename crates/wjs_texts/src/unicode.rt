//! Between bytes in UTF-8 and code units.
ghost use Rattle.std.specs.Prelude.{◌≡◌, ℕ, ◌↔◌, List, IfOk, IsErrOf};
ghost use Rattle.wjs_base.specs.Unicode.{SameText, Shows, StopsBeingUtf8, utf8_of};

use std::alloc::Global;
use thiserror::Error;
use wjs_base::OutOfMemory;

/// Why bytes give no code units.
#[derive(Clone, Copy, Debug, PartialEq, Eq, Error)]
pub enum Utf8Fault {
    /// The longest prefix that is UTF-8 has `byte` bytes.
    #[error("not UTF-8 at byte {byte}")]
    NotUtf8 { byte: u64 },
    #[error("out of memory")]
    OutOfMemory,
}

/// The code units of a text in UTF-8.
///
/// UTF-8 is that of the Unicode Standard: the shortest form of each code point, no surrogates, none past U+10FFFF.
pub fn units_of_utf8(alloc: Global, bytes: &[u8]) -> Result<Vec<u16>, Utf8Fault>
    ensures ok { IfOk result (λ units. SameText bytes.now units.items) }
    ensures not_utf8 { (byte : ℕ) → IsErrOf result (Utf8Fault.NotUtf8 byte) ↔ StopsBeingUtf8 bytes.now byte }
{
    let text = match std::str::from_utf8(bytes) {
        Ok(text) => text,
        Err(fault) => {
            return Err(Utf8Fault::NotUtf8 {
                byte: fault.valid_up_to() as u64,
            });
        }
    };
    let Ok(units) = text.encode_utf16().collect(alloc) else {
        return Err(Utf8Fault::OutOfMemory);
    };
    Ok(units)
}

/// The code units of a text in ASCII.
pub fn units_of_ascii(alloc: Global, ascii: &[u8]) -> Result<Vec<u16>, OutOfMemory>
    ensures { IfOk result (λ units. units.items ≡ ascii.now) }
{
    let mut units = Vec::with_capacity(alloc, ascii.len())?;
    for byte in ascii {
        units.push(u16::from(*byte))?;
    }
    Ok(units)
}

/// The bytes in UTF-8 of code units, with U+FFFD for each surrogate outside a pair.
pub fn utf8_of_units(alloc: Global, units: &[u16]) -> Result<Vec<u8>, OutOfMemory>
    ensures shows { IfOk result (λ bytes. Shows units.now bytes.items) }
    ensures bytes { IfOk result (λ bytes. bytes.items ≡ utf8_of units.now) }

    // What is UTF-8 comes back from its units.
    ensures back { IfOk result (λ bytes. (text : List ℕ) → SameText text units.now → bytes.items ≡ text) }
{
    let text = String::from_utf16_lossy(alloc, units)?;
    Ok(text.into_bytes())
}
