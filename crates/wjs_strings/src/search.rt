//! Where a pattern stands in a text. Each search reads each code unit of the text at most twice.
ghost use Rattle.std.specs.Prelude.{◌≡◌, ◌≤◌, ◌<◌, ◌+◌, None, drop, length, IfOk};
ghost use Rattle.wjs_meaning.specs.NativesOfTexts as line;
ghost use Rattle.wjs_strings.specs.Periods.{ArePeriods, StandsSoFar};

use crate::periods::periods;
use std::alloc::Global;
use wjs_base::OutOfMemory;

/// The least place at or after another where the pattern stands (ECMA-262, 3rd edition, section 15.5.4.7); None exactly where
/// there is none.
pub fn first_from(
    alloc: Global,
    text: &[u16],
    pattern: &[u16],
    from: usize,
) -> Result<Option<usize>, OutOfMemory>
    requires { from ≤ length text.now }
    ensures { IfOk result (λ place. place ≡ line.first_from text.now pattern.now from) }
{
    let periods = periods(alloc, pattern)?;
    Ok(find(text, pattern, periods.as_slice(), from, 0))
}

/// The greatest place at or before another where the pattern stands (section 15.5.4.8); None exactly where there is none.
pub fn last_place(
    alloc: Global,
    text: &[u16],
    pattern: &[u16],
    limit: usize,
) -> Result<Option<usize>, OutOfMemory>
    ensures { IfOk result (λ place. place ≡ line.last_place pattern.now limit None 0 text.now) }
{
    if pattern.is_empty() {
        return Ok(Some(limit.min(text.len())));
    }
    let periods = periods(alloc, pattern)?;
    Ok(find_last(text, pattern, periods.as_slice(), limit))
}

/// The greatest place at or before another where a pattern that is not empty stands.
fn find_last(text: &[u16], pattern: &[u16], periods: &[usize], limit: usize) -> Option<usize>
    requires periods { ArePeriods pattern.now periods.now }
    requires full { 0 < length pattern.now }
    ensures { result ≡ line.last_place pattern.now limit None 0 text.now }
{
    let shift = periods[pattern.len()];
    let mut best = None;
    let mut start = 0;
    let mut matched = 0;
    'places: while let Some(place) = find(text, pattern, periods, start, matched) {
        if place > limit {
            return best;
        }
        best = Some(place);
        start = place + shift;
        matched = pattern.len() - shift;
    }
    best
}

/// The least place at or after `start` where the pattern stands; so many of its code units are known to stand there.
pub(crate) fn find(
    text: &[u16],
    pattern: &[u16],
    periods: &[usize],
    mut start: usize,
    mut matched: usize,
) -> Option<usize>
    requires periods { ArePeriods pattern.now periods.now }
    requires start { start ≤ length text.now }
    requires matched { matched ≤ length pattern.now }
    requires within { start + matched ≤ length text.now }
    requires stands { StandsSoFar pattern.now text.now start matched }
    ensures { result ≡ line.first_place pattern.now start (drop start text.now) }
{
    'scan: while start + pattern.len() <= text.len() {
        if matched == pattern.len() {
            return Some(start);
        }
        if text[start + matched] == pattern[matched] {
            matched += 1;
        } else {
            let shift = periods[matched];
            start += shift;
            matched = matched.saturating_sub(shift);
        }
    }
    None
}
