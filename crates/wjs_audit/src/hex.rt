//! Code units in hexadecimal digits.
ghost use Rattle.std.specs.Prelude.{◌≡◌, ℕ, ◌<◌, ◌^◌, ◌∷◌, [], false, IfOk, MatchBool};
ghost use Rattle.std.specs.Fmt.{digit_glyph};
ghost use Rattle.wjs_base.specs.Text.{Units};
ghost use Rattle.wjs_audit.specs.Parts.{AreUnits};
ghost use Rattle.wjs_audit.specs.Spelling.{unit_text, hex};
ghost use Rattle.wjs_audit.specs.Reading.{IsReadAs};

use wjs_base::OutOfMemory;

/// The value of a small hexadecimal digit.
fn digit_of(glyph: u8) -> Option<u16>
    ensures { IsReadAs (digit_glyph false) (λ d. d < 16) glyph result }
{
    match glyph {
        48..=57 => Some((glyph - 48) as u16),
        97..=102 => Some((glyph - 87) as u16),
        _ => None,
    }
}

/// The code unit of four digits.
fn unit_of(first: u8, second: u8, third: u8, fourth: u8) -> Option<u16>
    ensures { IsReadAs unit_text (λ unit. unit < 2 ^ 16) (first ∷ second ∷ third ∷ fourth ∷ []) result }
{
    let a = digit_of(first)?;
    let b = digit_of(second)?;
    let c = digit_of(third)?;
    let d = digit_of(fourth)?;
    Some(a * 4096 + b * 256 + c * 16 + d)
}

/// Reads code units, which take the place of those that are there. Whether the part spells some.
pub(crate) fn units_of(part: &[u8], units: &mut Vec<u16>) -> Result<bool, OutOfMemory>
    ensures { IfOk result (λ spells. MatchBool spells (AreUnits units.new.items × (part.now ≡ hex units.new.items))
        ((all : Units) → AreUnits all → ¬ (part.now ≡ hex all))) }
{
    units.clear();
    if part.len() % 4 != 0 {
        return Ok(false);
    }
    for place in 0..part.len() / 4 {
        let at = 4 * place;
        let Some(unit) = unit_of(part[at], part[at + 1], part[at + 2], part[at + 3]) else {
            return Ok(false);
        };
        units.push(unit)?;
    }
    Ok(true)
}
