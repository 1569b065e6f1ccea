//! The new numbers of nodes.
ghost use Rattle.std.specs.Prelude.{◌≡◌, ◌<◌, length, map, All, IfOk};
ghost use Rattle.wjs_tree.specs.Used.{IsOnce};
ghost use Rattle.wjs_order.specs.Order.{falling};
ghost use Rattle.wjs_order.specs.Renumbered.{number_in};

use std::alloc::Global;
use wjs_base::OutOfMemory;

/// For each number below `end` the new one: 0 for the last in the order, and from there upwards to the first.
pub fn numbers(alloc: Global, order: &[u64], end: u64) -> Result<Vec<u64>, OutOfMemory>
    requires below { All (λ k. k < end) order.now }
    requires once { IsOnce order.now }
    ensures length { IfOk result (λ numbers. length numbers.items ≡ end) }
    ensures falling { IfOk result (λ numbers. map (number_in numbers.items) order.now ≡ falling (length order.now)) }
{
    let Ok(mut numbers) = vec![in alloc; 0; end as usize] else {
        return Err(OutOfMemory);
    };
    fill(numbers.as_mut_slice(), order);
    Ok(numbers)
}

fn fill(numbers: &mut [u64], order: &[u64])
    requires below { All (λ k. k < length numbers.old) order.now }
    requires once { IsOnce order.now }
    ensures { map (number_in numbers.new) order.now ≡ falling (length order.now) }
{
    let mut left = order.len();
    while left > 0 {
        let behind = (order.len() - left) as u64;
        left -= 1;
        numbers[order[left] as usize] = behind;
    }
}
