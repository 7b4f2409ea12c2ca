ghost use Rattle.floor_mode.specs.Laws.{FloorsAreComplete, ChecksOfFloorsAreComplete, TotalsHold, FloorsAreAccepted};

use floor_text::{floors_are_lines, floors_are_short, floors_have_one_spelling};
use truck_floor::{floor_loads_are_bounded, floor_loads_are_reached, floors_fit_their_loads};

/// A run of `floor` that read a floors file within its limits, on streams whose counts of faults did not rise, lacked
/// nothing but memory.
pub fn floors_are_complete()
    ensures { FloorsAreComplete }
{}

/// A run of `check-floor` that read the text of a floor, on streams whose counts of faults did not rise, lacked nothing
/// but memory.
pub fn checks_of_floors_are_complete()
    ensures { ChecksOfFloorsAreComplete }
{}

/// Where the total of a row was judged to be right and has numbers, no floor load of the row's two orders has more cases
/// than the product of its bounds, and where its number of cases is above 0 there is one of as many as the product of its
/// first two numbers, in which each pallet bears the stack that the load's entry lists.
pub fn totals_hold()
    ensures { TotalsHold }
{
    floor_loads_are_bounded();
    floor_loads_are_reached();
}

/// What `floor` wrote is the text of a floor, and `check-floor` judges each of its totals to be right.
pub fn floors_are_accepted()
    ensures { FloorsAreAccepted }
{
    floors_are_lines();
    floors_have_one_spelling();
    floors_are_short();
    floors_fit_their_loads();
}
