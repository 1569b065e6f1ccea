//! Code units of a text.
ghost use Rattle.std.specs.Prelude.{◌≡◌, IfOk};

use std::alloc::Global;
use wjs_base::OutOfMemory;

/// Code units of their own.
pub(crate) fn copied(alloc: Global, units: &[u16]) -> Result<Vec<u16>, OutOfMemory>
    ensures { IfOk result (λ copy. copy.items ≡ units.now) }
{
    Ok(Vec::from_slice(alloc, units)?)
}
