ghost use Rattle.std.specs.Prelude.{◌≡◌, ℕ, ◌+◌, ◌*◌, ◌<◌, ◌≤◌, ◌↔◌, length, IfOk, MatchOption, slice_index};
ghost use Rattle.stack_builder.specs.Goes.{GoesIn, CanGoOn, AreReaches, IsFirstNext, HasNoNext};

use plan_memory::Memory;
use std::alloc::Global;

/// The least number that may follow and from which j more can be added.
pub fn first_next(goes: &[bool], count: usize, last: usize, reach: &[u32], j: u32) -> Option<usize>
    requires count { count ≤ 8 }
    requires size { length goes.now ≡ count * count }
    requires reach { length reach.now ≡ count }
    requires last_min { 1 ≤ last }
    requires last_max { last ≤ count }
    ensures { MatchOption result
        (HasNoNext goes.now count last reach.now j)
        (λ w. IsFirstNext goes.now count last reach.now j w) }
{
    for w in 1..count + 1 {
        if goes[(last - 1) * count + (w - 1)] && j <= reach[w - 1] {
            return Some(w);
        }
    }
    None
}

/// For each number, how many more can be added to a stack that ends with it, if at most limit.
pub fn reaches(alloc: Global, goes: &[bool], count: usize, limit: u32) -> Result<Vec<u32>, Memory>
    requires count { count ≤ 8 }
    requires limit { limit ≤ 10000 }
    requires size { length goes.now ≡ count * count }
    ensures len { IfOk result (λ v. length v.items ≡ count) }
    ensures reaches { IfOk result (λ v. AreReaches (GoesIn goes.now count) count limit v.items) }
{
    let mut reach = Vec::new(alloc);
    for _v in 0..count {
        reach.push(0)?;
    }
    for j in 0..limit {
        raise(goes, count, reach.as_mut_slice(), j);
    }
    Ok(reach)
}

// One more round.
fn raise(goes: &[bool], count: usize, reach: &mut [u32], j: u32)
    requires count { count ≤ 8 }
    requires j { j < 10000 }
    requires size { length goes.now ≡ count * count }
    requires len { length reach.old ≡ count }
    requires before { AreReaches (GoesIn goes.now count) count j reach.old }
    ensures len { length reach.new ≡ count }
    ensures after { AreReaches (GoesIn goes.now count) count (j + 1) reach.new }
{
    for v in 1..count + 1 {
        if reach[v - 1] == j && first_next(goes, count, v, reach, j).is_some() {
            reach[v - 1] = j + 1;
        }
    }
}
