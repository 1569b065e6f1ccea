//! Texts that are made of others.
ghost use Rattle.std.specs.Prelude.{◌≡◌, ◌++◌, ◌∷◌, [], IfOk, codes};
ghost use Rattle.wjs_base.specs.Unicode.{utf8_of};
ghost use Rattle.wjs_meaning.specs.NativesOfObjects.{with_message};

use std::alloc::Global;
use wjs_base::OutOfMemory;
use wjs_texts::utf8_of_units;

/// `function ` and `() { }`.
const FUNCTION: [u16; 9] = [102, 117, 110, 99, 116, 105, 111, 110, 32];

const BODY: [u16; 6] = [40, 41, 32, 123, 32, 125];

/// `[object ` and `]`.
const OBJECT: [u16; 8] = [91, 111, 98, 106, 101, 99, 116, 32];

const BRACKET: [u16; 1] = [93];

/// What stands between the name of an error and its message.
const COLON: [u16; 2] = [58, 32];

/// What stands after a line of output.
const LINE_FEED: u8 = 10;

/// Three texts, one behind the other.
fn joined(
    alloc: Global,
    first: &[u16],
    second: &[u16],
    third: &[u16],
) -> Result<Vec<u16>, OutOfMemory>
    ensures { IfOk result (λ units. units.items ≡ first.now ++ second.now ++ third.now) }
{
    let mut units = Vec::from_slice(alloc, first)?;
    units.extend_from_slice(second)?;
    units.extend_from_slice(third)?;
    Ok(units)
}

/// The text of a function by its name (ECMA-262, 3rd edition, section 15.3.4.2).
pub fn function_text(alloc: Global, name: &[u16]) -> Result<Vec<u16>, OutOfMemory>
    ensures { IfOk result (λ units. units.items ≡ codes "function " ++ name.now ++ codes "() { }") }
{
    joined(alloc, &FUNCTION, name, &BODY)
}

/// The text of an object by the name of its class (section 15.2.4.2).
pub fn object_text(alloc: Global, class: &[u16]) -> Result<Vec<u16>, OutOfMemory>
    ensures { IfOk result (λ units. units.items ≡ codes "[object " ++ class.now ++ codes "]") }
{
    joined(alloc, &OBJECT, class, &BRACKET)
}

/// The text of an error by its name and its message (section 15.11.4.4).
pub fn fault_text(alloc: Global, name: &[u16], message: &[u16]) -> Result<Vec<u16>, OutOfMemory>
    ensures { IfOk result (λ units. units.items ≡ with_message name.now message.now) }
{
    if message.is_empty() {
        joined(alloc, name, &[], &[])
    } else {
        joined(alloc, name, &COLON, message)
    }
}

/// A text in UTF-8, and the end of its line.
pub fn line_of(alloc: Global, units: &[u16]) -> Result<Vec<u8>, OutOfMemory>
    ensures { IfOk result (λ bytes. bytes.items ≡ utf8_of units.now ++ 10 ∷ []) }
{
    let mut bytes = utf8_of_units(alloc, units)?;
    bytes.push(LINE_FEED)?;
    Ok(bytes)
}
