ghost use Rattle.std.specs.Prelude.{◌≡◌, ◌+◌, ◌<◌, ◌≤◌, [], IfOk, IsPermutation, length, reverse};
ghost use Rattle.plan_geometry.specs.Layout.{CaseFits};
ghost use Rattle.plan_geometry.specs.Placed.{IsLayer};
ghost use Rattle.plan_geometry.specs.Weight.{WeighsAtLeast};
ghost use Rattle.weightings.specs.Weighting.{weight_of, IsLawfulWeighting};
ghost use Rattle.cert_rules.specs.Path.{state};
ghost use Rattle.cert_rules.specs.Waiting.{SameButSteps};
ghost use Rattle.corner_search.specs.Search.{IsAnswer, Tells};
ghost use Rattle.corner_search.specs.Visiting.{Visits, Concludes};

use cert_rules::{Skyline, Step, enter, leave};
use plan_geometry::{Inst, Layer};
use plan_memory::Memory;
use std::alloc::Global;
use weightings::{Mark, Marks, Weighting};

/// How a walk ends: refuted, with the marks of all its states; found, with one case more than asked for; or spent,
/// where it has more states than the budget.
#[derive(Drop)]
pub enum Walk {
    Refuted { tree: Marks },
    Found { layer: Layer },
    Spent { nodes: u32 },
}

/// What the visit of a state tells.
#[derive(Clone, Copy)]
pub enum Visit {
    // The state has one case more than asked for.
    Enough,
    // There is a next state.
    More,
    // No state is left.
    Ended,
}

/// How the visits within the budget end.
#[derive(Clone, Copy)]
pub enum Outcome {
    Enough,
    Ended,
    Spent,
}

// Visits the state, notes its mark, and goes to the next state.
fn visit_state(
    sky: &mut Skyline,
    path: &mut Vec<Step>,
    n: u32,
    tree: &mut Vec<Mark>,
) -> Result<Visit, Memory>
    requires room { length sky.old.steps < 500000 }
    requires range { n ≤ 1000 }
    requires same { sky.old.steps ≡ reverse path.old.items }
    ensures visits { IfOk result (λ v. Visits sky.old sky.new n tree.old.items tree.new.items v) }
    ensures kept { IfOk result (λ _. SameButSteps sky.old sky.new) }
    ensures same { IfOk result (λ _. sky.new.steps ≡ reverse path.new.items) }
    ensures deeper { IfOk result (λ _. length sky.new.steps ≤ length sky.old.steps + 1) }
{
    if sky.placed() == n + 1 {
        return Ok(Visit::Enough);
    }
    if sky.is_leaf(n) {
        tree.push(Mark::Leaf)?;
        if leave(sky, path)? {
            Ok(Visit::More)
        } else {
            Ok(Visit::Ended)
        }
    } else {
        tree.push(Mark::Branch)?;
        if enter(sky, path)? {
            Ok(Visit::More)
        } else if leave(sky, path)? {
            Ok(Visit::More)
        } else {
            Ok(Visit::Ended)
        }
    }
}

// Visits the states in preorder, as far as the budget goes.
fn visit_all(
    sky: &mut Skyline,
    path: &mut Vec<Step>,
    n: u32,
    budget: u32,
    tree: &mut Vec<Mark>,
) -> Result<Outcome, Memory>
    requires range { n ≤ 1000 }
    requires bounded { budget ≤ 500000 }
    requires start { sky.old.steps ≡ [] }
    requires path { path.old.items ≡ [] }
    requires tree { tree.old.items ≡ [] }
    ensures concludes { IfOk result (λ o. Concludes sky.old sky.new n budget tree.new.items o) }
    ensures kept { IfOk result (λ _. SameButSteps sky.old sky.new) }
{
    for _ in 0..budget {
        match visit_state(sky, path, n, tree)? {
            Visit::Enough => return Ok(Outcome::Enough),
            Visit::More => {}
            Visit::Ended => return Ok(Outcome::Ended),
        }
    }
    Ok(Outcome::Spent)
}

// The layer of the cases that the steps placed.
fn layer_of(alloc: Global, sky: &Skyline, inst: Inst) -> Result<Layer, Memory>
    requires { sky.now.inst ≡ inst }
    ensures inst { IfOk result (λ a. a.inst ≡ inst) }
    ensures same { IfOk result (λ a. IsPermutation (state sky.now).spots a.spots) }
    ensures layer { IfOk result (λ a. IsLayer a.inst a.spots) }
{
    let spots = sky.spots(alloc)?;
    match Layer::new(inst, spots) {
        Some(layer) => Ok(layer),
        None => unreachable!(),
    }
}

/// The walk over the states of the instance in preorder, stopping at leaves and at the first state with n + 1
/// cases, as far as a budget of states goes.
pub fn exhaust(
    alloc: Global,
    inst: Inst,
    weighting: &Weighting,
    n: u32,
    budget: u32,
) -> Result<Walk, Memory>
    requires fits { CaseFits inst }
    requires lawful { IsLawfulWeighting inst weighting.now }
    requires positive { WeighsAtLeast (weight_of weighting.now) inst 1 }
    requires range { n ≤ 1000 }
    requires bounded { budget ≤ 500000 }
    ensures answer { IfOk result (λ w. IsAnswer inst (weight_of weighting.now) n budget w) }
    ensures tells { IfOk result (λ w. Tells inst (weight_of weighting.now) n budget w) }
{
    let mut sky = Skyline::start(alloc, inst, weighting)?;
    let mut path: Vec<Step> = Vec::new(alloc);
    let mut tree: Vec<Mark> = Vec::new(alloc);
    match visit_all(&mut sky, &mut path, n, budget, &mut tree)? {
        Outcome::Enough => {
            let layer = layer_of(alloc, &sky, inst)?;
            Ok(Walk::Found { layer })
        }
        Outcome::Ended => Ok(Walk::Refuted {
            tree: Marks::new(tree),
        }),
        Outcome::Spent => Ok(Walk::Spent { nodes: budget + 1 }),
    }
}
