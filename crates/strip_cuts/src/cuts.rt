ghost use Rattle.std.specs.Prelude.{◌≡◌, ◌≤◌, ◌^◌, ◌↔◌, IsTrue};
ghost use Rattle.plan_geometry.specs.Layout.{side, IsBounded};
ghost use Rattle.strip_cuts.specs.Cuts.{across, MeetsLines, Meets, IsTrueCut, Excludes, AcceptsStrip};

use crate::values::greatest;
use plan_geometry::{Axis, Inst, area_bound, side_along};
use weightings::{StripCert, StripCut};

// The other axis's side.
fn side_across(axis: Axis, inst: Inst) -> u32
    ensures side { result ≡ side (across axis) inst }
    ensures limited { result ≤ 4000 }
{
    match axis {
        Axis::X => side_along(Axis::Y, inst),
        Axis::Y => side_along(Axis::X, inst),
    }
}

// Whether so many cases with the long side along the axis, and so many with the short one, meet the demand of the
// lines along it, none of which counts more than q.
fn meets_lines(inst: Inst, axis: Axis, a: u32, b: u32, q: u64, longs: u32, shorts: u32) -> bool
    requires few { q ≤ 2 ^ 45 }
    requires longs { longs ≤ 10001 }
    requires shorts { shorts ≤ 10001 }
    ensures { IsTrue result ↔ MeetsLines axis inst a b q longs shorts }
{
    let counted = u64::from(a) * u64::from(inst.short) * u64::from(longs)
        + u64::from(b) * u64::from(inst.long) * u64::from(shorts);
    counted <= q * u64::from(side_across(axis, inst))
}

/// Whether the number of the cut is the true greatest value on the instance.
pub fn is_true_cut(inst: Inst, cut: StripCut) -> bool
    ensures { IsTrue result ↔ IsTrueCut inst cut }
{
    match cut {
        StripCut::Area => true,
        StripCut::X { a, b, q } => q == greatest(inst, Axis::X, a, b),
        StripCut::Y { a, b, q } => q == greatest(inst, Axis::Y, a, b),
    }
}

/// Whether h lying and v standing cases meet a true cut.
pub fn meets_cut(inst: Inst, cut: StripCut, h: u32, v: u32) -> bool
    requires lying { h ≤ 10001 }
    requires standing { v ≤ 10001 }
    requires is_true { IsTrueCut inst cut }
    ensures { IsTrue result ↔ Meets inst cut h v }
{
    match cut {
        StripCut::Area => h + v <= area_bound(inst),
        StripCut::X { a, b, q } => meets_lines(inst, Axis::X, a, b, q, h, v),
        StripCut::Y { a, b, q } => meets_lines(inst, Axis::Y, a, b, q, v, h),
    }
}

// Whether the cut is true and the pair does not meet it.
fn excludes(inst: Inst, cut: StripCut, h: u32, v: u32) -> bool
    requires lying { h ≤ 10001 }
    requires standing { v ≤ 10001 }
    ensures { IsTrue result ↔ Excludes inst cut h v }
{
    is_true_cut(inst, cut) && !meets_cut(inst, cut, h, v)
}

/// Whether the certificate shows that no layout has more than n cases: it has n + 2 cuts, each with its true number,
/// and the cut at place h excludes h lying and n + 1 - h standing cases.
pub fn accepts_strip(inst: Inst, cert: &StripCert, n: u32) -> bool
    requires few { n ≤ 10000 }
    ensures exact { IsTrue result ↔ AcceptsStrip inst n cert.now }
    ensures bounds { IsTrue result → IsBounded inst n }
{
    let cuts = cert.cuts();
    if cuts.len() != n as usize + 2 {
        return false;
    }
    for h in 0..n + 2 {
        if !excludes(inst, cuts[h as usize], h, n + 1 - h) {
            return false;
        }
    }
    true
}
