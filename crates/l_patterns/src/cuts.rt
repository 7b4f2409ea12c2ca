ghost use Rattle.std.specs.Prelude.{◌≡◌, ◌<◌};
ghost use Rattle.l_patterns.specs.Ells.{IsNormalCut};
ghost use Rattle.l_patterns.specs.Cuts as spec;
ghost use Rattle.l_patterns.specs.Cuts.{AreSidesOf, Fits, IsNth};

use crate::sides::{Sides, count_up_to};
use block_tree::{Cut, Region, is_rectangle, side_x, side_y};

// The cut of number `k` of a rectangle: the first x number counts in the outermost, y1 in the innermost
// place.
fn nth_k1(q: Sides<'_>, r: Region, k: usize) -> Cut
    requires sides { AreSidesOf q }
    requires fits { Fits q r }
    requires within { k < spec.count_k1 q r }
    ensures value { result ≡ spec.nth_k1 q.entry r k }
    ensures normal { IsNormalCut q.entry.inst result }
{
    let columns = count_up_to(q.x, side_x(r));
    let rows = count_up_to(q.y, side_y(r));
    let pair = k / rows;
    Cut::K1 {
        x1: q.x.points[pair / columns],
        x2: q.x.points[pair % columns],
        y1: q.y.points[k % rows],
    }
}

fn nth_k2(q: Sides<'_>, r: Region, k: usize) -> Cut
    requires sides { AreSidesOf q }
    requires fits { Fits q r }
    requires within { k < spec.count_k2 q r }
    ensures value { result ≡ spec.nth_k2 q.entry r k }
    ensures normal { IsNormalCut q.entry.inst result }
{
    let rows = count_up_to(q.y, r.small_y);
    Cut::K2 {
        c: q.x.points[k / rows],
        h: q.y.points[k % rows],
    }
}

fn nth_k3(q: Sides<'_>, r: Region, k: usize) -> Cut
    requires sides { AreSidesOf q }
    requires fits { Fits q r }
    requires within { k < spec.count_k3 q r }
    ensures value { result ≡ spec.nth_k3 q.entry r k }
    ensures normal { IsNormalCut q.entry.inst result }
{
    let rows = count_up_to(q.y, r.small_y);
    Cut::K3 {
        d: q.x.points[k / rows],
        h: q.y.points[k % rows],
    }
}

fn nth_k4(q: Sides<'_>, r: Region, k: usize) -> Cut
    requires sides { AreSidesOf q }
    requires fits { Fits q r }
    requires within { k < spec.count_k4 q r }
    ensures value { result ≡ spec.nth_k4 q.entry r k }
    ensures normal { IsNormalCut q.entry.inst result }
{
    let rows = count_up_to(q.y, r.big_y);
    Cut::K4 {
        c: q.x.points[k / rows],
        e: q.y.points[k % rows],
    }
}

/// How many cuts a region has, with those that are out of order.
pub fn cut_count(q: Sides<'_>, r: Region) -> usize
    requires sides { AreSidesOf q }
    requires fits { Fits q r }
    ensures { result ≡ spec.cut_count q.entry r }
{
    if is_rectangle(r) {
        let columns = count_up_to(q.x, side_x(r));
        columns * columns * count_up_to(q.y, side_y(r))
    } else {
        let columns = count_up_to(q.x, r.big_x);
        let rows = count_up_to(q.y, r.big_y);
        let small_columns = count_up_to(q.x, r.small_x);
        let small_rows = count_up_to(q.y, r.small_y);
        small_columns * small_rows + columns * small_rows + small_columns * rows
    }
}

/// The cut of number `k` of a region, which may be out of order.
pub fn nth_cut(q: Sides<'_>, r: Region, k: usize) -> Cut
    requires sides { AreSidesOf q }
    requires fits { Fits q r }
    requires within { k < spec.cut_count q r }
    ensures value { IsNth q.entry r k result }
    ensures normal { IsNormalCut q.entry.inst result }
{
    if is_rectangle(r) {
        return nth_k1(q, r, k);
    }
    let columns = count_up_to(q.x, r.big_x);
    let small_columns = count_up_to(q.x, r.small_x);
    let small_rows = count_up_to(q.y, r.small_y);
    let k2 = small_columns * small_rows;
    let k3 = columns * small_rows;
    if k < k2 {
        nth_k2(q, r, k)
    } else if k - k2 < k3 {
        nth_k3(q, r, k - k2)
    } else {
        nth_k4(q, r, k - k2 - k3)
    }
}
