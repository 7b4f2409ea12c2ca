// The size that covers most.
ghost use Rattle.std.specs.Prelude.{◌≡◌, map, IfOk};
ghost use Rattle.case_design.specs.Bests.{IsBest, score_by, cover_by};

use pallet_choice::{Score, choose};
use plan_memory::Memory;
use std::alloc::Global;

/// What a planned entry covers of the pallet, in cells: squares of the length's unit.
#[derive(Clone, Copy, PartialEq, Eq, Debug)]
pub struct Cover {
    /// The entry's number, from 1.
    pub number: u32,
    /// The cells that the entry's layout covers: its count times the case's two sides.
    pub covers: u32,
    /// As many cells as any layout of the entry may cover, at most: its bound times the case's two sides.
    pub may: u32,
}

/// The best among planned entries.
#[derive(Drop)]
pub struct Best {
    /// The first entry that covers most. None where there are no entries.
    pub best: Option<Cover>,
    /// The entries that may cover more than it does, itself included, in their order.
    pub rivals: Vec<Cover>,
}

// The entries, to be chosen by their cells in place of their cases.
fn scores_of(alloc: Global, list: &[Cover]) -> Result<Vec<Score>, Memory>
    ensures { IfOk result (λ scores. scores.items ≡ map score_by list.now) }
{
    let scores = list
        .iter()
        .map(|cover| Score {
            number: cover.number,
            count: cover.covers,
            bound: cover.may,
        })
        .collect(alloc)?;
    Ok(scores)
}

// The entry of such a score.
fn cover_of(score: Score) -> Cover
    ensures { result ≡ cover_by score }
{
    Cover {
        number: score.number,
        covers: score.count,
        may: score.bound,
    }
}

// The entries of such scores.
fn covers_of(alloc: Global, scores: &[Score]) -> Result<Vec<Cover>, Memory>
    ensures { IfOk result (λ covers. covers.items ≡ map cover_by scores.now) }
{
    let covers = scores.iter().map(|score| cover_of(*score)).collect(alloc)?;
    Ok(covers)
}

/// The best among planned entries: the first that covers most, and the entries that may cover more than it does, in their
/// order. There is no best exactly where there are no entries.
pub fn best_cover(alloc: Global, list: &[Cover]) -> Result<Best, Memory>
    ensures { IfOk result (λ best. IsBest list.now best.best best.rivals.items) }
{
    let scores = scores_of(alloc, list)?;
    let choice = choose(alloc, &scores)?;
    let rivals = covers_of(alloc, &choice.rivals)?;
    Ok(Best {
        best: choice.chosen.map(cover_of),
        rivals,
    })
}
