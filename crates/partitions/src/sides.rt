ghost use Rattle.partitions.specs.Partitions.{IsFeasible, SameSides, SamePairs, IsNextMaximal, HasNoMaximalFrom};
ghost use Rattle.std.specs.Prelude.{ℕ, ◌*◌, ◌≤◌, ◌↔◌, IsTrue, IfNone, IfSome};

use plan_geometry::Inst;

/// The most short case sides that fit on a side beside `i` long ones.
pub fn most_short(side: u32, long: u32, short: u32, i: u32) -> u32
    requires enough { i * long ≤ side }
    requires positive { 1 ≤ short }
    ensures feasible { IsFeasible side long short i result }
    ensures greatest { (j : ℕ) → IsFeasible side long short i j → j ≤ result }
{
    (side - i * long) / short
}

/// The maximal partition of a side with the least first number that is at least `i`; None exactly where
/// there is none. The most short case sides beside `i` long ones leave less than a short one, so less than a
/// long one too: the two make a maximal partition.
pub fn maximal_from(side: u32, long: u32, short: u32, i: u32) -> Option<(u32, u32)>
    requires positive { 1 ≤ short }
    requires ordered { short ≤ long }
    ensures found { IfSome result (λ p. IsNextMaximal side long short i p.0 p.1) }
    ensures none { IfNone result (HasNoMaximalFrom side long short i) }
{
    if i > side / long {
        return None;
    }
    Some((i, most_short(side, long, short, i)))
}

// Whether the same pairs are feasible on two sides, each with its own case.
fn same_pairs(
    side: u32,
    long: u32,
    short: u32,
    other: u32,
    other_long: u32,
    other_short: u32,
) -> bool
    requires ordered { short ≤ long }
    requires positive { 1 ≤ short }
    requires other_ordered { other_short ≤ other_long }
    requires other_positive { 1 ≤ other_short }
    requires limited { side ≤ 4000 }
    requires other_limited { other ≤ 4000 }
    ensures { IsTrue result ↔ SamePairs side long short other other_long other_short }
{
    let rows = side / long;
    if rows != other / other_long {
        return false;
    }
    for i in 0..rows + 1 {
        if most_short(side, long, short, i) != most_short(other, other_long, other_short, i) {
            return false;
        }
    }
    true
}

/// Whether both x sides have the same partitions, and both y sides.
pub fn same_sides(a: Inst, b: Inst) -> bool
    ensures { IsTrue result ↔ SameSides a b }
{
    same_pairs(a.l_side, a.long, a.short, b.l_side, b.long, b.short)
        && same_pairs(a.w_side, a.long, a.short, b.w_side, b.long, b.short)
}
