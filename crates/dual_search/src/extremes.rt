ghost use Rattle.std.specs.Prelude.{◌<◌, ◌≤◌, length};
ghost use Rattle.dual_search.specs.Raising.{IsFirstLeastPlace, IsFirstGreatestPlace};

// The first place of the least entry.
pub(crate) fn first_least(list: &[u32]) -> usize
    requires { 0 < length list.now }
    ensures { IsFirstLeastPlace list.now result }
{
    let mut place = 0;
    for k in 1..list.len() {
        if list[k] < list[place] {
            place = k;
        }
    }
    place
}

// The first place of the greatest entry.
pub(crate) fn first_greatest(list: &[u32]) -> usize
    requires { 0 < length list.now }
    ensures { IsFirstGreatestPlace list.now result }
{
    let mut place = 0;
    for k in 1..list.len() {
        if list[place] < list[k] {
            place = k;
        }
    }
    place
}
