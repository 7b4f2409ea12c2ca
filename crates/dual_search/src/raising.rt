ghost use Rattle.std.specs.Prelude.{ℕ, ◌+◌, ◌*◌, ◌<◌, ◌≤◌, length, slice_index};
ghost use Rattle.dual_search.specs.Raising.{RaisesRow, Raises, IsInBlock, RiseByOne};

// Raises the n entries from a place on by 1.
fn raise_row(list: &mut [u32], from: usize, n: usize)
    requires within { from + n ≤ length list.old }
    requires small { (k : ℕ) → slice_index list.old k < 4294967295 }
    ensures { RaisesRow from n list.old list.new }
{
    for k in from..from + n {
        list[k] += 1;
    }
}

// Raises the a by b entries from (x, y) on by 1, in rows that are so long.
pub(crate) fn raise_block(list: &mut [u32], width: usize, x: usize, y: usize, a: usize, b: usize)
    requires across { x + a ≤ width }
    requires along { (y + b) * width ≤ length list.old }
    requires limited { y + b ≤ 4000 }
    requires few { length list.old ≤ 40000 }
    requires small { (k : ℕ) → slice_index list.old k ≤ 2000 }
    ensures raised { Raises width (IsInBlock x y a b) list.old list.new }
    ensures most { RiseByOne list.old list.new }
{
    for j in 0..b {
        raise_row(list, (y + j) * width + x, a);
    }
}
