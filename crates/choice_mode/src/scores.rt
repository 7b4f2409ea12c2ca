// What is kept of each entry.
ghost use Rattle.std.specs.Prelude.{◌≡◌, ◌++◌, ◌∷◌, [], OnOk, IsErrOf};
ghost use Rattle.choice_mode.specs.Scores.{score_of as score_of_plan, scores_of};

use pallet_choice::Score;
use plan_entries::{Entry, Plan};
use run_parts::WriteStop;

// What a choice needs to know of a plan.
fn score_of(plan: &Plan) -> Score
    ensures { result ≡ score_of_plan plan.now }
{
    Score {
        number: plan.number,
        count: plan.count,
        bound: plan.bound,
    }
}

// Adds the score of an entry, if it is planned.
pub(crate) fn keep_score(scores: &mut Vec<Score>, entry: &Entry) -> Result<(), WriteStop>
    ensures ok { OnOk result (scores.new.items ≡ scores.old.items ++ scores_of (entry.now ∷ [])) }
    ensures only { IsErrOf result WriteStop.Fault → ⊥ }
{
    let Entry::Planned(plan) = entry else {
        return Ok(());
    };
    match scores.push(score_of(plan)) {
        Ok(()) => Ok(()),
        Err(_) => Err(WriteStop::Memory),
    }
}
