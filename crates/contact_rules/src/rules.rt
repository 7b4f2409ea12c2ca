ghost use Rattle.std.specs.Prelude.{◌≡◌, ◌≤◌, ◌↔◌, IsTrue, All};
ghost use Rattle.plan_geometry.specs.Layout.{IsInside};
ghost use Rattle.plan_geometry.specs.declared.spots.Axis.TheVariants.{X, Y};
ghost use Rattle.contact_rules.specs.Real.{IsGapOf};
ghost use Rattle.contact_rules.specs.Shared.{supporters};
ghost use Rattle.contact_rules.specs.Rules.{Touches, KeepsCuts, Meets, IsLawfulRule};

use crate::axes::{other_axis, real_side_along};
use crate::cuts::longest_run;
use crate::shares::{contact, supports};
use plan_geometry::{Axis, Layer, Spot};

/// A rule on two layers, one upon the other (after Carpenter and Dowsland 1985); the numbers are
/// percentages, at most 100.
#[derive(Clone, Copy, PartialEq, Eq, Debug)]
pub enum Rule {
    /// Each upper case shares at least this percentage of its area with the lower layer.
    Contact(u32),
    /// Each upper case stands on at least two lower cases.
    Support,
    /// No straight cut passes more than this percentage of the pallet's width in one run.
    Cut(u32),
}

// Whether the case shares at least the percentage of its area with the layer below.
fn touches(percent: u32, s: Spot, lower: &Layer, gap: u32) -> bool
    requires rule { percent ≤ 100 }
    requires gap { IsGapOf lower.now.inst gap }
    requires inside { IsInside lower.now.inst s }
    ensures { IsTrue result ↔ Touches lower.now.inst gap percent lower.now.spots s }
{
    let inst = lower.inst();
    let area = (inst.long - gap) * (inst.short - gap);
    percent * area <= contact(s, lower, gap) * 100
}

fn all_touch(percent: u32, lower: &Layer, upper: &[Spot], gap: u32) -> bool
    requires rule { percent ≤ 100 }
    requires gap { IsGapOf lower.now.inst gap }
    requires inside { All (IsInside lower.now.inst) upper.now }
    ensures { IsTrue result ↔ All (Touches lower.now.inst gap percent lower.now.spots) upper.now }
{
    for s in upper {
        if !touches(percent, *s, lower, gap) {
            return false;
        }
    }
    true
}

fn all_supported(lower: &Layer, upper: &[Spot], gap: u32) -> bool
    requires gap { IsGapOf lower.now.inst gap }
    requires inside { All (IsInside lower.now.inst) upper.now }
    ensures { IsTrue result ↔ All (λ s. 2 ≤ supporters lower.now.inst gap lower.now.spots s) upper.now }
{
    for s in upper {
        if supports(*s, lower, gap) < 2 {
            return false;
        }
    }
    true
}

// Whether each run at a line across the axis is at most this percentage of the other side.
fn keeps_cuts_along(axis: Axis, percent: u32, lower: &Layer, upper: &Layer, gap: u32) -> bool
    requires rule { percent ≤ 100 }
    requires same { upper.now.inst ≡ lower.now.inst }
    requires gap { IsGapOf lower.now.inst gap }
    ensures { IsTrue result ↔ KeepsCuts axis lower.now.inst gap lower.now.spots upper.now.spots percent }
{
    let inst = lower.inst();
    let run = longest_run(axis, lower, upper, gap);
    run * 100 <= percent * real_side_along(other_axis(axis), inst, gap)
}

// The lines y are looked at only where those at x keep the rule.
fn keeps_cuts(percent: u32, lower: &Layer, upper: &Layer, gap: u32) -> bool
    requires rule { percent ≤ 100 }
    requires same { upper.now.inst ≡ lower.now.inst }
    requires gap { IsGapOf lower.now.inst gap }
    ensures { IsTrue result
        ↔ (KeepsCuts X lower.now.inst gap lower.now.spots upper.now.spots percent
        × KeepsCuts Y lower.now.inst gap lower.now.spots upper.now.spots percent) }
{
    keeps_cuts_along(Axis::X, percent, lower, upper, gap)
        && keeps_cuts_along(Axis::Y, percent, lower, upper, gap)
}

/// Whether the two layers meet the rule. They are of one instance, whose numbers each contain the gap.
pub fn meets(rule: Rule, lower: &Layer, upper: &Layer, gap: u32) -> bool
    requires rule { IsLawfulRule rule }
    requires same { upper.now.inst ≡ lower.now.inst }
    requires gap { IsGapOf lower.now.inst gap }
    ensures { IsTrue result ↔ Meets lower.now.inst gap rule lower.now.spots upper.now.spots }
{
    match rule {
        Rule::Contact(percent) => all_touch(percent, lower, upper.spots(), gap),
        Rule::Support => all_supported(lower, upper.spots(), gap),
        Rule::Cut(percent) => keeps_cuts(percent, lower, upper, gap),
    }
}
