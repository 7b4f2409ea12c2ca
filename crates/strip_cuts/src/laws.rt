ghost use Rattle.strip_cuts.specs.Laws.{CasesLieOrStand, LayoutsMeetCuts, StripsBound};

/// Each case of a list lies or stands.
pub fn cases_lie_or_stand()
    ensures { CasesLieOrStand }
{}

/// The lying and the standing cases of a layout meet each cut whose number is true.
pub fn layouts_meet_cuts()
    ensures { LayoutsMeetCuts }
{}

/// An accepted strip certificate bounds every layout.
pub fn strips_bound()
    ensures { StripsBound }
{}
