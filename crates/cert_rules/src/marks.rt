ghost use Rattle.std.specs.Prelude.{◌≡◌, ℕ, ◌+◌, ◌<◌, ◌≤◌, ◌↔◌, [], IsTrue, IfOk, length, reverse};
ghost use Rattle.plan_geometry.specs.Layout.{CaseFits, IsBounded};
ghost use Rattle.plan_geometry.specs.Weight.{WeighsAtLeast};
ghost use Rattle.weightings.specs.Weighting.{weight_of, IsLawfulWeighting};
ghost use Rattle.cert_rules.specs.Path.{IsPath};
ghost use Rattle.cert_rules.specs.Refute.{Refutes, IsRefutation};
ghost use Rattle.cert_rules.specs.Waiting.{SameButSteps};
ghost use Rattle.cert_rules.specs.Reading.{Reads};

use crate::skyline::Skyline;
use crate::steps::Step;
use crate::visits::{enter, leave};
use plan_geometry::Inst;
use plan_memory::Memory;
use std::alloc::Global;
use weightings::{Mark, Marks, Weighting};

/// What a mark says of the state that it stands for.
#[derive(Clone, Copy)]
pub enum Reading {
    // The mark does not refute the state.
    Wrong,
    // There is a next state.
    More,
    // No state is left.
    Ended,
}

// Reads a mark, and goes to the next state.
fn read_mark(sky: &mut Skyline, path: &mut Vec<Step>, n: u32, mark: Mark) -> Result<Reading, Memory>
    requires room { length sky.old.steps < 500000 }
    requires same { sky.old.steps ≡ reverse path.old.items }
    ensures reading { IfOk result (λ r. Reads sky.old sky.new n mark r) }
    ensures kept { IfOk result (λ _. SameButSteps sky.old sky.new) }
    ensures same { IfOk result (λ _. sky.new.steps ≡ reverse path.new.items) }
    ensures deeper { IfOk result (λ _. length sky.new.steps ≤ length sky.old.steps + 1) }
{
    match mark {
        Mark::Leaf => {
            if !sky.is_leaf(n) {
                Ok(Reading::Wrong)
            } else if leave(sky, path)? {
                Ok(Reading::More)
            } else {
                Ok(Reading::Ended)
            }
        }
        Mark::Branch => {
            if enter(sky, path)? {
                Ok(Reading::More)
            } else {
                Ok(Reading::Wrong)
            }
        }
    }
}

// Whether the marks are one tree that refutes n for the start.
fn read_all(sky: &mut Skyline, path: &mut Vec<Step>, n: u32, marks: &[Mark]) -> Result<bool, Memory>
    requires start { sky.old.steps ≡ [] }
    requires none { path.old.items ≡ [] }
    requires few { length marks.now ≤ 500000 }
    ensures { IfOk result (λ b.
        IsTrue b ↔ Refutes sky.old.inst (weight_of sky.old.weighting) sky.old.least n marks.now) }
{
    let mut ended = false;
    for mark in marks {
        if ended {
            return Ok(false);
        }
        match read_mark(sky, path, n, *mark)? {
            Reading::Wrong => return Ok(false),
            Reading::More => {}
            Reading::Ended => ended = true,
        }
    }
    Ok(ended)
}

/// Whether the marks are one tree that refutes n for the start of the instance: then no layout has more than n
/// cases.
pub fn refutes(
    alloc: Global,
    inst: Inst,
    weighting: &Weighting,
    n: u32,
    marks: &Marks,
) -> Result<bool, Memory>
    requires fits { CaseFits inst }
    requires lawful { IsLawfulWeighting inst weighting.now }
    requires positive { WeighsAtLeast (weight_of weighting.now) inst 1 }
    requires few { length marks.now ≤ 500000 }
    ensures exact { IfOk result (λ b. IsTrue b ↔ IsRefutation inst (weight_of weighting.now) n marks.now) }
    ensures bounds { IfOk result (λ b. IsTrue b → IsBounded inst n) }
{
    let mut sky = Skyline::start(alloc, inst, weighting)?;
    let mut path: Vec<Step> = Vec::new(alloc);
    let refuted = read_all(&mut sky, &mut path, n, marks.as_slice())?;
    Ok(refuted)
}
