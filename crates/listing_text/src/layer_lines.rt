ghost use Rattle.std.specs.Prelude.{◌≡◌, IfOk};
ghost use Rattle.texts.specs.Grammar.{first_by};
ghost use Rattle.texts.specs.Gives.{Gives, GivesOrLeaves};
ghost use Rattle.texts.specs.Lines.{whole_lines, unfinished};
ghost use Rattle.listing_text.specs.Words.{case_of, turn_of, layer_count_of};
ghost use Rattle.listing_text.specs.Lines.{cases_from, layer_from, listed_from, layers_at as layers_value};

use crate::layer_words::{case_line, layer_count_line, turn_line};
use layer_symmetry::Move;
use plan_entries::{Layers, Listed, Spots};
use plan_geometry::Spot;
use std::alloc::Global;
use texts::{LinesLeft, Stop, count_lines, next_line};

fn case_at(bytes: &[u8]) -> Result<(Spot, &[u8]), LinesLeft>
    ensures read { GivesOrLeaves (λ x. (x.0, whole_lines x.1.now)) result (first_by case_of (whole_lines bytes.now)) }
    ensures rest { IfOk result (λ x. unfinished x.1.now ≡ unfinished bytes.now) }
{
    let Some((line, rest)) = next_line(bytes) else {
        return Err(LinesLeft { count: 0 });
    };
    match case_line(line) {
        Some(spot) => Ok((spot, rest)),
        None => Err(LinesLeft {
            count: count_lines(bytes),
        }),
    }
}

fn cases_at(alloc: Global, count: u32, bytes: &[u8]) -> Result<(Vec<Spot>, &[u8]), Stop>
    ensures read { Gives (λ x. (x.0.items, whole_lines x.1.now)) result (cases_from count (whole_lines bytes.now)) }
    ensures rest { IfOk result (λ x. unfinished x.1.now ≡ unfinished bytes.now) }
{
    let mut spots = Vec::new(alloc);
    let mut rest = bytes;
    for _place in 0..count {
        let (spot, after) = case_at(rest)?;
        spots.push(spot)?;
        rest = after;
    }
    Ok((spots, rest))
}

fn turn_at(number: u32, bytes: &[u8]) -> Result<(Move, &[u8]), LinesLeft>
    ensures read { GivesOrLeaves (λ x. (x.0, whole_lines x.1.now)) result (first_by (turn_of number) (whole_lines bytes.now)) }
    ensures rest { IfOk result (λ x. unfinished x.1.now ≡ unfinished bytes.now) }
{
    let Some((line, rest)) = next_line(bytes) else {
        return Err(LinesLeft { count: 0 });
    };
    match turn_line(line, number) {
        Some(turn) => Ok((turn, rest)),
        None => Err(LinesLeft {
            count: count_lines(bytes),
        }),
    }
}

#[tactic(auto, unfolding(crate::specs::Lines::layer_from))]
fn layer_at(alloc: Global, count: u32, number: u32, bytes: &[u8]) -> Result<(Listed, &[u8]), Stop>
    ensures read { Gives (λ x. (x.0, whole_lines x.1.now)) result (layer_from count number (whole_lines bytes.now)) }
    ensures rest { IfOk result (λ x. unfinished x.1.now ≡ unfinished bytes.now) }
{
    let (turn, rest) = turn_at(number, bytes)?;
    let (spots, rest) = cases_at(alloc, count, rest)?;
    let spots = Spots::new(spots);
    Ok((Listed { turn, spots }, rest))
}

// So many layers, numbered from 1.
fn listed_at(
    alloc: Global,
    count: u32,
    total: u32,
    bytes: &[u8],
) -> Result<(Vec<Listed>, &[u8]), Stop>
    ensures read { Gives (λ x. (x.0.items, whole_lines x.1.now)) result (listed_from count total 1 (whole_lines bytes.now)) }
    ensures rest { IfOk result (λ x. unfinished x.1.now ≡ unfinished bytes.now) }
{
    let mut layers = Vec::new(alloc);
    let mut rest = bytes;
    for place in 0..total {
        let (layer, after) = layer_at(alloc, count, place + 1, rest)?;
        layers.push(layer)?;
        rest = after;
    }
    Ok((layers, rest))
}

fn layer_count_at(bytes: &[u8]) -> Result<(u32, &[u8]), LinesLeft>
    ensures read { GivesOrLeaves (λ x. (x.0, whole_lines x.1.now)) result (first_by layer_count_of (whole_lines bytes.now)) }
    ensures rest { IfOk result (λ x. unfinished x.1.now ≡ unfinished bytes.now) }
{
    let Some((line, rest)) = next_line(bytes) else {
        return Err(LinesLeft { count: 0 });
    };
    match layer_count_line(line) {
        Some(count) => Ok((count, rest)),
        None => Err(LinesLeft {
            count: count_lines(bytes),
        }),
    }
}

/// The layers whose text is at the front, each of so many cases, and the bytes behind it; or how many lines were
/// left at the first fault.
#[tactic(auto, unfolding(crate::specs::Lines::layers_at))]
pub fn layers_from(alloc: Global, bytes: &[u8], count: u32) -> Result<(Layers, &[u8]), Stop>
    ensures read { Gives (λ x. (x.0, whole_lines x.1.now)) result (layers_value count (whole_lines bytes.now)) }
    ensures rest { IfOk result (λ x. unfinished x.1.now ≡ unfinished bytes.now) }
{
    let (total, rest) = layer_count_at(bytes)?;
    let (layers, rest) = listed_at(alloc, count, total, rest)?;
    Ok((Layers::new(layers), rest))
}
