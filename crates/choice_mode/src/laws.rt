ghost use Rattle.choice_mode.specs.Laws.{ChoicesAreComplete, ChecksOfChoicesAreComplete, ChosenHoldsMost, ChoicesAreAccepted};

use choice_text::{choices_are_lines, choices_are_short, choices_have_one_spelling};
use pallet_choice::choices_are_tails;

/// A run of `choose` that read an orders file within its limits, on streams whose counts of faults did not rise, lacked
/// nothing but memory.
pub fn choices_are_complete()
    ensures { ChoicesAreComplete }
{}

/// A run of `check-choice` that read the text of a choice, on streams whose counts of faults did not rise, lacked nothing
/// but memory.
pub fn checks_of_choices_are_complete()
    ensures { ChecksOfChoicesAreComplete }
{}

/// Where a choice was judged to be right, the chosen entry's order has a layer of the count that is told, and no planned
/// entry that is no rival has an order with a layer of more cases. Where none is chosen, each row was refused.
pub fn chosen_holds_most()
    ensures { ChosenHoldsMost }
{}

/// What `choose` wrote is the text of a choice, and `check-choice` judges it to be right.
pub fn choices_are_accepted()
    ensures { ChoicesAreAccepted }
{
    choices_are_lines();
    choices_have_one_spelling();
    choices_are_short();
    choices_are_tails();
}
