ghost use Rattle.std.specs.Prelude.{◌≡◌, ℕ, ◌+◌, ◌*◌, ◌<◌, ◌≤◌, length, IfOk, MatchOption};
ghost use Rattle.stack_builder.specs.Goes.{GoesIn, IsFirstStart, HasNoStart};
ghost use Rattle.stack_builder.specs.Stack.{IsLeastStack, HasNoStack};

use crate::reaches::{first_next, reaches};
use plan_memory::Memory;
use std::alloc::Global;

// The least number from which j more can be added.
fn first_start(count: usize, reach: &[u32], j: u32) -> Option<usize>
    requires count { count ≤ 8 }
    requires reach { length reach.now ≡ count }
    ensures { MatchOption result (HasNoStart count reach.now j) (λ w. IsFirstStart count reach.now j w) }
{
    for w in 1..count + 1 {
        if j <= reach[w - 1] {
            return Some(w);
        }
    }
    None
}

/// The lexicographically least list of n of the numbers from 1 to count in which each two neighbours go
/// together, by a table of count rows; None where there is no such list.
pub fn least_stack(
    alloc: Global,
    goes: &[bool],
    count: usize,
    n: u32,
) -> Result<Option<Vec<u32>>, Memory>
    requires count { count ≤ 8 }
    requires n { n ≤ 10000 }
    requires size { length goes.now ≡ count * count }
    ensures { IfOk result (λ r. MatchOption r
        (HasNoStack (GoesIn goes.now count) count n)
        (λ v. IsLeastStack (GoesIn goes.now count) count n v.items)) }
{
    let mut stack = Vec::new(alloc);
    if n == 0 {
        return Ok(Some(stack));
    }
    let reach = reaches(alloc, goes, count, n - 1)?;
    let Some(first) = first_start(count, reach.as_slice(), n - 1) else {
        return Ok(None);
    };
    let mut last = first;
    stack.push(first as u32)?;
    for i in 1..n {
        let Some(next) = first_next(goes, count, last, reach.as_slice(), n - 1 - i) else {
            unreachable!()
        };
        stack.push(next as u32)?;
        last = next;
    }
    Ok(Some(stack))
}
