//! How a line is cut into its parts.
ghost use Rattle.std.specs.Prelude.{◌≡◌, ℕ, ◌<◌, ◌≤◌, ◌++◌, ◌∷◌, ◌↔◌, List, length, take, slice_index, IfSome, IfNone, MatchOption, IsTrue};
ghost use Rattle.wjs_audit.specs.Parts.{Lacks, AreParts};
ghost use Rattle.wjs_audit.specs.Spelling.{spaced};

/// What stands between two parts.
const SPACE: u8 = 32;

/// The place of the first such byte, or else how many bytes there are.
fn place_of(bytes: &[u8], byte: u8) -> usize
    ensures within { result ≤ length bytes.now }
    ensures before { Lacks byte (take result bytes.now) }
    ensures found { result < length bytes.now → slice_index bytes.now result ≡ byte }
{
    for (place, other) in bytes.iter().enumerate() {
        if *other == byte {
            return place;
        }
    }
    bytes.len()
}

/// What stands in front of the first such byte, and what behind it; None where there is none.
pub(crate) fn cut_at(bytes: &[u8], byte: u8) -> Option<(&[u8], &[u8])>
    ensures some { IfSome result (λ cut. (bytes.now ≡ cut.0.now ++ byte ∷ cut.1.now) × Lacks byte cut.0.now) }
    ensures none { IfNone result (Lacks byte bytes.now) }
{
    let place = place_of(bytes, byte);
    if place == bytes.len() {
        return None;
    }
    Some((&bytes[..place], &bytes[place + 1..]))
}

/// The first part of a line, and what follows it.
pub(crate) fn first_part(line: &[u8]) -> (&[u8], &[u8])
    ensures parts { (part : List ℕ) (parts : List (List ℕ)) → Lacks 32 part
        → line.now ≡ part ++ spaced parts → (result.0.now ≡ part) × (result.1.now ≡ spaced parts) }
    ensures shorter { length result.1.now ≤ length line.now }
{
    line.split_at(place_of(line, SPACE))
}

/// The next of the parts that follow, each with a space in front, and what follows it; None where there is none.
pub(crate) fn next_part(tail: &[u8]) -> Option<(&[u8], &[u8])>
    ensures parts { (parts : List (List ℕ)) → AreParts parts → tail.now ≡ spaced parts → MatchOption result (length parts ≡ 0)
        (λ p. (more : List (List ℕ)) × AreParts more × (parts ≡ p.0.now ∷ more) × (p.1.now ≡ spaced more)) }
    ensures shorter { IfSome result (λ p. length p.1.now < length tail.now) }
{
    if tail.is_empty() {
        return None;
    }
    Some(first_part(&tail[1..]))
}

/// The next two.
pub(crate) fn next_two(tail: &[u8]) -> Option<(&[u8], &[u8], &[u8])>
    ensures { (parts : List (List ℕ)) → AreParts parts → tail.now ≡ spaced parts → MatchOption result (length parts < 2)
        (λ p. (more : List (List ℕ)) × AreParts more × (parts ≡ p.0.now ∷ p.1.now ∷ more) × (p.2.now ≡ spaced more)) }
{
    let (first, rest) = next_part(tail)?;
    let (second, rest) = next_part(rest)?;
    Some((first, second, rest))
}

/// Whether a part is this word.
pub(crate) fn is_word(part: &[u8], word: &[u8]) -> bool
    ensures { IsTrue result ↔ (part.now ≡ word.now) }
{
    part == word
}
