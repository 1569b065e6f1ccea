//! Up to which objects worlds with a parent have read, written or listed.
//!
//! A list of bounds says of each place which serial numbers no world there, or at an earlier place, has gone beyond. So a
//! read of an object past them needs no look at the worlds between its own and the first.
ghost use Rattle.std.specs.Prelude.{ℕ, ◌≡◌, ◌<◌, ◌≤◌, true, false, nat_le, OnOk, MatchOption, Some, slice_get};
ghost use Rattle.wjs_overlay.specs.declared.bounds.Bound.{Bound};
ghost use Rattle.wjs_overlay.specs.Covers.{Grows, IsCount, IsRising, covers};

use wjs_base::OutOfMemory;

/// The worlds from a place on may have touched objects up to this serial number, of any owner.
#[derive(Clone, Copy)]
pub struct Bound {
    pub place: usize,
    pub serial: u64,
}

/// How many bounds are of places up to this one.
fn count_to(bounds: &[Bound], place: usize) -> usize
    requires { IsRising bounds.now }
    ensures { IsCount bounds.now place result }
{
    bounds.partition_point(|bound| bound.place <= place)
}

/// The last bound of a place up to this one, which has the greatest serial number of these.
fn last_to(bounds: &[Bound], place: usize) -> Option<Bound>
    requires { IsRising bounds.now }
    ensures { MatchOption result ((serial : ℕ) → covers bounds.now place serial ≡ false)
        (λ bound. (serial : ℕ) → covers bounds.now place serial ≡ nat_le serial bound.serial) }
{
    let count = count_to(bounds, place);
    if count == 0 {
        return None;
    }
    bounds.get(count - 1).copied()
}

/// Whether the world at a place, or one before it, may have touched an object with this serial number.
pub fn covers(bounds: &[Bound], place: usize, serial: u64) -> bool
    requires { IsRising bounds.now }
    ensures { result ≡ covers bounds.now place serial }
{
    match last_to(bounds, place) {
        None => false,
        Some(bound) => serial <= bound.serial,
    }
}

/// The greater of a serial number and the greatest of the bounds.
fn greater(bounds: &[Bound], serial: u64) -> u64
    requires { IsRising bounds.now }
    ensures own { serial ≤ result }
    ensures all { (k : ℕ) (bound : Bound) → slice_get bounds.now k ≡ Some bound → bound.serial ≤ result }
{
    match bounds.last().copied() {
        None => serial,
        Some(last) => serial.max(last.serial),
    }
}

/// Lets the worlds from a place on touch an object with this serial number. Places past it that have a bound of their own
/// go with it.
fn put(bounds: &mut Vec<Bound>, place: usize, serial: u64) -> Result<(), OutOfMemory>
    requires rising { IsRising bounds.old.items }
    requires below { 0 < place }
    ensures rising { OnOk result (IsRising bounds.new.items) }
    ensures grows { OnOk result (Grows bounds.old.items bounds.new.items) }
    ensures reached { OnOk result (covers bounds.new.items place serial ≡ true) }
{
    let list = bounds.as_slice();
    let serial = greater(list, serial);
    let count = count_to(list, place - 1);
    bounds.truncate(count);
    bounds.push(Bound { place, serial })?;
    Ok(())
}

/// Lets the world at a place touch an object with this serial number. The first world's place needs no bound.
#[inline(always)]
pub fn reach(bounds: &mut Vec<Bound>, place: usize, serial: u64) -> Result<(), OutOfMemory>
    requires { IsRising bounds.old.items }
    ensures rising { OnOk result (IsRising bounds.new.items) }
    ensures grows { OnOk result (Grows bounds.old.items bounds.new.items) }
    ensures reached { OnOk result (0 < place → covers bounds.new.items place serial ≡ true) }
{
    if place == 0 {
        return Ok(());
    }
    reach_child(bounds, place, serial)
}

/// `reach` at the place of a world with a parent.
fn reach_child(bounds: &mut Vec<Bound>, place: usize, serial: u64) -> Result<(), OutOfMemory>
    requires rising { IsRising bounds.old.items }
    requires below { 0 < place }
    ensures rising { OnOk result (IsRising bounds.new.items) }
    ensures grows { OnOk result (Grows bounds.old.items bounds.new.items) }
    ensures reached { OnOk result (covers bounds.new.items place serial ≡ true) }
{
    if covers(bounds.as_slice(), place, serial) {
        return Ok(());
    }
    put(bounds, place, serial)
}

/// Lets the world at a place touch all that the one at another place may have touched.
pub fn hand_up(bounds: &mut Vec<Bound>, from: usize, to: usize) -> Result<(), OutOfMemory>
    requires { IsRising bounds.old.items }
    ensures rising { OnOk result (IsRising bounds.new.items) }
    ensures grows { OnOk result (Grows bounds.old.items bounds.new.items) }
    ensures reached { OnOk result (0 < to → (serial : ℕ) → covers bounds.old.items from serial ≡ true → covers bounds.new.items to serial ≡ true) }
{
    match last_to(bounds.as_slice(), from) {
        None => Ok(()),
        Some(bound) => reach(bounds, to, bound.serial),
    }
}
