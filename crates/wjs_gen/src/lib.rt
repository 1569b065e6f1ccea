//! The script that the program generates: many worlds over many slots, and their commits.
#![tactic(auto)]

ghost use Rattle.std.specs.Prelude.{◌≡◌, ◌≤◌, length, IfOk};
ghost use Rattle.wjs_gen.specs.Script.{script, rest};

use std::alloc::Global;
use wjs_base::OutOfMemory;

/// The script of a number of worlds and as many slots, in UTF-8.
///
/// It sprouts that many worlds, changes in each a slot of its own, and commits them one after another. Every fifth world
/// has also read the slot of the world before it, so that its commit is refused. It prints how many commits moved, how
/// many were refused, and the sum of the slots.
///
/// The number is 1 to 50,000. The only error is want of memory.
pub fn script_of(alloc: Global, number: u64) -> Result<Vec<u8>, OutOfMemory>
    requires least { 1 ≤ number }
    requires greatest { number ≤ 50000 }
    ensures script { IfOk result (λ bytes. bytes.items ≡ script number) }
    ensures short { IfOk result (λ bytes. length bytes.items ≤ 1000) }
{
    let rest = rest();
    let text = format!(in alloc; "var n = {number}{rest}")?;
    Ok(text.into_bytes())
}

/// What stands after the number.
#[tactic(auto, unfolding(crate::specs::Script::rest))]
fn rest() -> &'static str
    ensures { result.now ≡ rest }
{
    ", o = {}, ws = [], moved = 0, refused = 0, sum = 0, i;
function change(w, k) { in w { o[k] = o[k] + 7; if (k % 5 == 4) o[k - 1]; } }
for (i = 0; i < n; i++) o[i] = i;
for (i = 0; i < n; i++) ws[i] = thisWorld.sprout();
for (i = 0; i < n; i++) change(ws[i], i);
for (i = 0; i < n; i++) { try { ws[i].commit(); moved++; } catch (e) { refused++; } }
for (i = 0; i < n; i++) sum += o[i];
print(\"moved \" + moved + \" refused \" + refused + \" sum \" + sum);
"
}

#[cfg(test)]
mod tests;
