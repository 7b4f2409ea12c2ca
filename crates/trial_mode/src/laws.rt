ghost use Rattle.trial_mode.specs.Laws.{TrialsAreComplete};

/// A run of `trial` on a sink whose count of faults did not rise lacked nothing but memory.
pub fn trials_are_complete()
    ensures { TrialsAreComplete }
{}
