//! When a plan is sound for its order, and what follows then.
#![tactic(auto)]

ghost use Rattle.plan_soundness.specs.Laws.{SoundPlansAreBounded, CountsAreReached, CountsAreWithinBounds, OptimalIsGreatest};

/// No layer of the order has more cases than the bound of a sound plan.
pub fn sound_plans_are_bounded()
    ensures { SoundPlansAreBounded }
{}

/// The order of a sound plan has a layer with as many cases as the plan's count.
pub fn counts_are_reached()
    ensures { CountsAreReached }
{}

/// The count of a sound plan is at most its bound.
pub fn counts_are_within_bounds()
    ensures { CountsAreWithinBounds }
{}

/// Where a sound plan says that it is optimal, no layer of the order has more cases.
pub fn optimal_is_greatest()
    ensures { OptimalIsGreatest }
{}
