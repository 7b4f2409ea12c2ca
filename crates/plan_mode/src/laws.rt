ghost use Rattle.plan_mode.specs.Laws.{PlansAreComplete};

/// A run of `plan` that read an orders file within its limits, on streams whose counts of faults did not rise, lacked
/// nothing but memory.
pub fn plans_are_complete()
    ensures { PlansAreComplete }
{}
