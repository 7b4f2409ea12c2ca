ghost use Rattle.std.specs.Prelude.{◌≤◌, ◌<◌, length, All};

use crate::cuts::cuts;
use crate::effort::CUTS_LOOKED_AT;
use crate::spans::{End, Span};
use plan_geometry::Inst;
use plan_memory::Memory;
use std::alloc::Global;

/// What two cuts of a side have to add up to.
#[derive(Clone, Copy, PartialEq, Eq, Debug)]
pub enum Sum {
    Whole,
    AtMostWhole,
    LessThanWhole,
    NotWhole,
}

impl Sum {
    fn is_met(self, low: u32, high: u32, side: u32) -> bool
        requires low { low ≤ 4000 }
        requires high { high ≤ 4000 }
    {
        match self {
            Sum::Whole => low + high == side,
            Sum::AtMostWhole => low + high <= side,
            Sum::LessThanWhole => low + high < side,
            Sum::NotWhole => low + high != side,
        }
    }
}

/// The five spans that two cuts of a side make: up to the lower cut, up to the higher one, from the lower one
/// on, from the higher one on, and between the two. In the first four the cases stand at the cut, which is
/// towards the pallet's middle, in the last in its middle.
#[derive(Clone, Copy, PartialEq, Eq, Debug)]
pub struct Split {
    pub below_low: Span,
    pub below_high: Span,
    pub above_low: Span,
    pub above_high: Span,
    pub between: Span,
}

impl Split {
    fn new(inst: Inst, side: u32, low: u32, high: u32) -> Split
        requires side { side ≤ 4000 }
        requires low { low ≤ side }
        requires high { high ≤ side }
    {
        Split {
            below_low: Span::new(inst, 0, low, End::High),
            below_high: Span::new(inst, 0, high, End::High),
            above_low: Span::new(inst, low, side - low, End::Low),
            above_high: Span::new(inst, high, side - high, End::Low),
            between: Span::new(inst, low, high.saturating_sub(low), End::Middle),
        }
    }
}

// Adds the splits whose lower cut is the first of these and whose higher one is any of them, if the two have
// the sum; but no more than can be looked at.
fn add_splits(
    splits: &mut Vec<Split>,
    inst: Inst,
    side: u32,
    sum: Sum,
    cuts: &[u32],
) -> Result<(), Memory>
    requires side { side ≤ 4000 }
    requires some { 0 < length cuts.now }
    requires within { All (λ x. x ≤ side) cuts.now }
{
    let low = cuts[0];
    for high in cuts {
        if sum.is_met(low, *high, side) && splits.len() < CUTS_LOOKED_AT as usize {
            splits.push(Split::new(inst, side, low, *high))?;
        }
    }
    Ok(())
}

/// The splits of a side whose two cuts have the sum, in the order of the lower cut, then of the higher one. The
/// last are left out where there are more than can be looked at.
pub fn splits(alloc: Global, inst: Inst, side: u32, sum: Sum) -> Result<Vec<Split>, Memory>
    requires { side ≤ 4000 }
{
    let cuts = cuts(alloc, inst, side)?;
    let mut splits = Vec::new(alloc);
    for i in 0..cuts.len() {
        add_splits(&mut splits, inst, side, sum, &cuts[i..])?;
    }
    Ok(splits)
}
