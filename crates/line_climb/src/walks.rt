use crate::guides::Guide;
use crate::manners::{Aim, Step};
use crate::skylines::Skyline;
use plan_geometry::Spot;
use plan_memory::Memory;
use std::alloc::Global;

// How a walk ends: with as many cases as it looks for, with no state left, or with its states spent.
#[derive(Drop)]
pub(crate) enum Walked {
    Found(Vec<Spot>),
    Ended,
    Spent,
}

// Goes to the next state in preorder; false where there is none. Below a state that the aim leaves none is met.
fn go_on(sky: &mut Skyline, guide: &Guide, aim: &Aim, steps: &[Step]) -> Result<bool, Memory> {
    let deeper = !aim.leaves(sky.placed, sky.above) && sky.enter(guide, steps)?;
    if deeper {
        Ok(true)
    } else {
        sky.leave(guide, steps)
    }
}

// Walks over so many states at most, in preorder, and tries the steps at each corner in this order.
pub(crate) fn walk(
    alloc: Global,
    guide: &Guide,
    aim: &Aim,
    steps: &[Step],
    most_states: u32,
) -> Result<Walked, Memory> {
    let mut sky = Skyline::start(alloc, guide.inst.l_side, aim.total)?;
    for _ in 0..most_states {
        if sky.placed >= aim.cases {
            return Ok(Walked::Found(sky.spots(alloc, guide)?));
        }
        if !go_on(&mut sky, guide, aim, steps)? {
            return Ok(Walked::Ended);
        }
    }
    Ok(Walked::Spent)
}
