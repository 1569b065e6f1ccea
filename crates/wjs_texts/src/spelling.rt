//! Names and what they spell.
ghost use Rattle.std.specs.Prelude.{◌≡◌, ℕ, ◌≤◌, ◌<◌, ◌^◌, decimal, drop, length, IfOk, IfNone, IfSome, OnErr};
ghost use Rattle.std.specs.Str.Parse.{AllDigits, digits_value};
ghost use Rattle.wjs_base.specs.Spelling.{HasName, IsName, IsNameOf, Spells, greatest_index, spelling_cmp};
ghost use Rattle.wjs_base.specs.Text.{Grows, Has, Interns, IsTable, Units};

use crate::texts::Texts;
use std::cmp::Ordering;
use wjs_base::{Name, OutOfMemory, TextId};

/// The greatest array index (ECMA-262, 3rd edition, section 15.4).
const GREATEST_INDEX: u32 = 4_294_967_294;

/// The code unit of the digit 0.
const ZERO: u16 = 48;

/// The code unit of the digit 9.
const NINE: u16 = 57;

/// How many digits an index has at most.
const MOST_DIGITS: usize = 10;

impl Texts {
    /// The name of a text: the index that it spells in decimal digits, or else the text.
    #[inline(always)]
    pub fn name_of(&self, id: TextId) -> Name
        requires { Has self.now id }
        ensures { IsNameOf self.now id result }
    {
        match spelled_index(self.units(id)) {
            Some(index) => Name::Index(index),
            None => Name::Text(id),
        }
    }

    /// The number of the text that a name spells: of an index the decimal digits, with no zero in front of others.
    pub fn text_of(&mut self, name: Name) -> Result<TextId, OutOfMemory>
        requires { HasName self.old name }
        ensures ok { IfOk result (λ id. (units : Units) → Spells self.old name units → Interns self.old self.new units id) }
        ensures err { OnErr result (self.new ≡ self.old) }

        // `name_of` and `text_of` undo one another.
        ensures name_again { IfOk result (λ id. IsName self.old name → IsNameOf self.new id name) }
        ensures text_again { IfOk result (λ id. (text : TextId) → IsNameOf self.old text name → id ≡ text) }

        ensures table { IsTable self.new }
        ensures grows { Grows self.old self.new }
    {
        let index = match name {
            Name::Text(id) => {
                prove!(id.0 < self.len() as u64);
                return Ok(id);
            }
            Name::Index(index) => index,
        };
        let mut digits = [ZERO; MOST_DIGITS];
        let start = write_decimal(index, &mut digits);
        Ok(self.intern(&digits[start..])?)
    }

    /// The order of names by content: indices ascending, then texts by their code units.
    pub fn name_order(&self, a: Name, b: Name) -> Ordering
        requires first { HasName self.now a }
        requires second { HasName self.now b }
        ensures { result ≡ spelling_cmp self.now a b }
    {
        match (a, b) {
            (Name::Index(a), Name::Index(b)) => a.cmp(&b),
            (Name::Index(_), Name::Text(_)) => Ordering::Less,
            (Name::Text(_), Name::Index(_)) => Ordering::Greater,
            (Name::Text(a), Name::Text(b)) => self.units(a).cmp(&self.units(b)),
        }
    }
}

/// Writes the decimal digits of a number to the end of `digits`, and gives the place of the first.
fn write_decimal(number: u32, digits: &mut [u16; 10]) -> usize
    ensures start { result < 10 }
    ensures digits { drop result digits.new ≡ decimal number }
{
    let mut rest = number;
    let mut place = MOST_DIGITS - 1;
    while rest >= 10 {
        digits[place] = ZERO + (rest % 10) as u16;
        rest /= 10;
        place -= 1;
    }
    digits[place] = ZERO + rest as u16;
    place
}

/// The index that code units spell. Of most names the first unit is no digit, and no other one is looked at.
#[inline(always)]
fn spelled_index(units: &[u16]) -> Option<u32>
    ensures found { IfSome result (λ index. (index ≤ greatest_index) × (units.now ≡ decimal index)) }
    ensures none { IfNone result ((index : ℕ) → index ≤ greatest_index → ¬ (units.now ≡ decimal index)) }
{
    let first = *units.first()?;
    if first < ZERO || first > NINE {
        return None;
    }
    index_of_digits(units)
}

/// The same of units that may all be digits.
#[inline(never)]
fn index_of_digits(units: &[u16]) -> Option<u32>
    ensures found { IfSome result (λ index. (index ≤ greatest_index) × (units.now ≡ decimal index)) }
    ensures none { IfNone result ((index : ℕ) → index ≤ greatest_index → ¬ (units.now ≡ decimal index)) }
{
    let first = *units.first()?;
    if first == ZERO && units.len() > 1 {
        return None;
    }
    let index = number_of_digits(units)?;
    if index > GREATEST_INDEX {
        return None;
    }
    Some(index)
}

/// The number that decimal digits write. None where a unit is no digit, and for 2^32 and above.
fn number_of_digits(units: &[u16]) -> Option<u32>
    ensures digits { IfSome result (λ _. AllDigits 10 units.now) }
    ensures value { IfSome result (λ number. number ≡ digits_value 10 units.now) }
    ensures none { IfNone result (AllDigits 10 units.now → 2 ^ 32 ≤ digits_value 10 units.now) }
{
    let mut number: u32 = 0;
    for unit in units {
        if *unit < ZERO || *unit > NINE {
            return None;
        }
        number = number.checked_mul(10)?.checked_add((*unit - ZERO) as u32)?;
    }
    Some(number)
}
