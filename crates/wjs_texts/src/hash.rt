//! Hashes of code units, which go on from unit to unit.
ghost use Rattle.std.specs.Prelude.{◌≡◌};
ghost use Rattle.wjs_texts.specs.Hash.{factor_of, hash_behind};

/// The hash of no units.
pub(crate) const EMPTY_HASH: u32 = 2_166_136_261;

/// By what each unit multiplies at the first turn.
pub(crate) const FACTOR: u32 = 16_777_619;

/// How far the factors of two turns are apart: far, and even, so that all are odd.
const APART: u32 = 2_654_435_762;

/// By what each unit multiplies at a turn. Texts that a script makes for one hash at one turn have others at the next.
pub(crate) fn factor(turn: u32) -> u32
    ensures { result ≡ factor_of turn }
{
    FACTOR.wrapping_add(turn.wrapping_mul(APART))
}

/// The hash of units behind others of which it is known.
pub(crate) fn hash_behind(factor: u32, front: u32, units: &[u16]) -> u32
    ensures { result ≡ hash_behind factor front units.now }
{
    let mut hash = front;
    for unit in units {
        hash = (hash ^ *unit as u32).wrapping_mul(factor);
    }
    hash
}
