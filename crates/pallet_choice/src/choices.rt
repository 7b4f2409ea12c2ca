ghost use Rattle.std.specs.Prelude.{◌≡◌, ◌++◌, ◌∷◌, [], List, IfOk};
ghost use Rattle.pallet_choice.specs.declared.choices.Score.{Score};
ghost use Rattle.pallet_choice.specs.Choices.{IsChosen, IsChoice, entries_above};

use plan_memory::Memory;
use std::alloc::Global;

/// What a choice needs to know of a planned entry.
#[derive(Clone, Copy, PartialEq, Eq, Debug)]
pub struct Score {
    /// The entry's number, from 1.
    pub number: u32,
    /// The cases that the entry's layout holds.
    pub count: u32,
    /// As many cases as any layout of the entry can hold, at most.
    pub bound: u32,
}

/// The choice among planned entries.
#[derive(Drop)]
pub struct Choice {
    /// The first entry of the greatest count. None where there are no entries.
    pub chosen: Option<Score>,
    /// The entries whose bound is above that count, the chosen one included, in their order.
    pub rivals: Vec<Score>,
}

// The first entry of the greatest count, after one more entry.
fn with_next(most: Option<Score>, next: Score) -> Option<Score>
    ensures { (scores : List Score) → IsChosen scores most → IsChosen (scores ++ next ∷ []) result }
{
    let Some(score) = most else {
        return Some(next);
    };
    if score.count < next.count {
        Some(next)
    } else {
        Some(score)
    }
}

// The first entry of the greatest count.
fn first_of_most(scores: &[Score]) -> Option<Score>
    ensures { IsChosen scores.now result }
{
    let mut most = None;
    for score in scores {
        most = with_next(most, *score);
    }
    most
}

// The entries whose bound is above a count, in their order.
fn rivals_above(alloc: Global, scores: &[Score], count: u32) -> Result<Vec<Score>, Memory>
    ensures { IfOk result (λ rivals. rivals.items ≡ entries_above count scores.now) }
{
    let rivals = scores
        .iter()
        .copied()
        .filter(|score| count < score.bound)
        .collect(alloc)?;
    Ok(rivals)
}

/// The choice among planned entries: the first of the greatest count, and the entries whose bound is above that count,
/// in their order. None is chosen exactly where there are no entries.
pub fn choose(alloc: Global, scores: &[Score]) -> Result<Choice, Memory>
    ensures { IfOk result (λ choice. IsChoice scores.now choice.chosen choice.rivals.items) }
{
    let Some(chosen) = first_of_most(scores) else {
        return Ok(Choice {
            chosen: None,
            rivals: Vec::new(alloc),
        });
    };
    let rivals = rivals_above(alloc, scores, chosen.count)?;
    Ok(Choice {
        chosen: Some(chosen),
        rivals,
    })
}
