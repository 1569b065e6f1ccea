//! The periods of a pattern, by which a search passes over places where it cannot stand.
//!
//! D. E. Knuth, J. H. Morris and V. R. Pratt, "Fast Pattern Matching in Strings", SIAM Journal on Computing 6, 1977.
ghost use Rattle.std.specs.Prelude.{◌≡◌, ◌+◌, ◌<◌, ◌≤◌, length, IfOk};
ghost use Rattle.wjs_strings.specs.Periods.{ArePeriods};

use std::alloc::Global;
use wjs_base::OutOfMemory;

/// The least period of each front of a pattern, from the empty one on.
pub(crate) fn periods(alloc: Global, pattern: &[u16]) -> Result<Vec<usize>, OutOfMemory>
    ensures { IfOk result (λ periods. ArePeriods pattern.now periods.items) }
{
    let mut periods = vec![in alloc; 1; pattern.len() + 1]?;
    let mut period = 1;
    let mut matched = 0;
    'fronts: while period + matched < pattern.len() {
        if pattern[period + matched] == pattern[matched] {
            matched += 1;
            periods[period + matched] = period;
        } else if matched == 0 {
            period += 1;
            periods[period] = period;
        } else {
            let shift = periods[matched];
            period += shift;
            matched -= shift;
        }
    }
    Ok(periods)
}
