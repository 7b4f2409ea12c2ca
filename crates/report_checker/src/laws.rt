ghost use Rattle.report_checker.specs.Laws.{SoundPlansAreAccepted, EntriesHaveOneVerdict, AcceptedPlansAreSound};

/// Yes is the one right verdict of a sound plan.
pub fn sound_plans_are_accepted()
    ensures { SoundPlansAreAccepted }
{}

/// An entry has no two right verdicts.
pub fn entries_have_one_verdict()
    ensures { EntriesHaveOneVerdict }
{}

/// An entry of which yes is right has a plan that is sound for its order, so its bound holds.
pub fn accepted_plans_are_sound()
    ensures { AcceptedPlansAreSound }
{}
