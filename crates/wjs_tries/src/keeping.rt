//! Who is kept apart: an entry for each activity, the owner of its try that rests.
ghost use Rattle.std.specs.Prelude.{◌≡◌, ◌+◌, ◌<◌, length, set, All, IfOk, IfSome};
ghost use Rattle.wjs_tries.specs.Hiding.{no_owner};

use std::alloc::Global;
use wjs_base::OutOfMemory;

/// The entry of an activity of which no try rests. No owner of this number is ever drawn.
pub const NO_OWNER: u32 = 4_294_967_295;

/// The list of so many activities of which no try rests.
pub fn none_apart(alloc: Global, count: usize) -> Result<Vec<u32>, OutOfMemory>
    ensures { IfOk result (λ list. (length list.items ≡ count) × All (λ u. u ≡ no_owner) list.items) }
{
    let mut list = Vec::new(alloc);
    for _place in 0..count {
        list.push(NO_OWNER)?;
    }
    Ok(list)
}

/// Makes an owner the entry at a place.
pub fn set_apart(list: &mut Vec<u32>, place: usize, owner: u32)
    requires { place < length list.old.items }
    ensures { list.new.items ≡ set list.old.items place owner }
{
    list[place] = owner;
}

/// The owner behind these, if there is one more.
pub fn next_owner(drawn: u32) -> Option<u32>
    ensures next { IfSome result (λ owner. owner ≡ drawn + 1) }
    ensures few { IfSome result (λ owner. owner < no_owner) }
{
    if drawn < NO_OWNER - 1 {
        return Some(drawn + 1);
    }
    None
}
