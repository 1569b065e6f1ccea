//! Numbers of the parts of a list, as points have them.
ghost use Rattle.std.specs.Prelude.{◌≡◌, ◌+◌, IfOk};

use wjs_base::OutOfMemory;

/// The number of the part behind one. A list that has no number left for its parts is longer than memory has room for.
pub fn number_after(at: u32) -> Result<u32, OutOfMemory>
    ensures { IfOk result (λ next. next ≡ at + 1) }
{
    match at.checked_add(1) {
        Some(next) => Ok(next),
        None => Err(OutOfMemory),
    }
}

/// The number of a part, of any size.
pub fn number_of(at: usize) -> Result<u32, OutOfMemory>
    ensures { IfOk result (λ number. number ≡ at) }
{
    match u32::try_from(at) {
        Ok(number) => Ok(number),
        Err(_) => Err(OutOfMemory),
    }
}
