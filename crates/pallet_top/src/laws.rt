// What follows from what a run did.
ghost use Rattle.pallet_top.specs.Runs.{NothingIsWritten, FaultsHaveTheirCause, LinesAreOfBadReports, RunsAreComplete};
ghost use Rattle.pallet_top.specs.Laws.{PlansAreAccepted};

/// With the codes 2 to 7 nothing is written.
pub fn nothing_is_written()
    ensures { NothingIsWritten }
{}

/// A fault is told only where the count of that stream's faults rose.
pub fn faults_have_their_cause()
    ensures { FaultsHaveTheirCause }
{}

/// A line is told of a bad report alone.
pub fn lines_are_of_bad_reports()
    ensures { LinesAreOfBadReports }
{}

/// A run that read what its mode reads, on streams that did not fail, lacked nothing but memory.
pub fn runs_are_complete()
    ensures { RunsAreComplete }
{
    plan_mode::plans_are_complete();
    check_mode::checks_are_complete();
    check_mode::upgrades_are_complete();
    choice_mode::choices_are_complete();
    choice_mode::checks_of_choices_are_complete();
    design_mode::designs_are_complete();
    floor_mode::floors_are_complete();
    floor_mode::checks_of_floors_are_complete();
    trial_mode::trials_are_complete();
}

/// Of a report that `plan` wrote, `check` says yes to each plan and refused to each refused row, and never no.
pub fn plans_are_accepted()
    ensures { PlansAreAccepted }
{}
