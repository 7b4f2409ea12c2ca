ghost use Rattle.std.specs.Prelude.{◌≡◌, ℕ, ◌+◌, ◌-◌, ◌/◌, ◌<◌, ◌≤◌, ◌∷◌, [], ◌↔◌, List, IsTrue, IfOk, OnErr, OnOk, length, option_to_list, slice_set};
ghost use Rattle.plan_geometry.specs.Layout.{CaseFits, IsLayout};
ghost use Rattle.plan_geometry.specs.Weight.{WeighsAtLeast};
ghost use Rattle.weightings.specs.Weighting.{weight_of, IsLawfulWeighting};
ghost use Rattle.cert_rules.specs.Corner.{allows, is_case, IsLeaf, corner, lowest, flat_run};
ghost use Rattle.cert_rules.specs.Lift.{width_by, height_by, case_by};
ghost use Rattle.cert_rules.specs.Runs.{Scan, IsFlat};
ghost use Rattle.cert_rules.specs.Path.{IsPath, state};
ghost use Rattle.cert_rules.specs.declared.steps.Step.{Step};

use crate::blocks::block;
use crate::next_places::NextPlaces;
use crate::steps::Step;
use plan_geometry::{Inst, Spot, Way};
use plan_memory::Memory;
use std::alloc::Global;
use std::marker::Model;
use weightings::Weighting;

/// Neighbouring columns of one height.
#[derive(Clone, Copy)]
pub struct Run {
    width: u32,
    height: u32,
}

/// A step, with what it overwrote and the weight that it took away.
#[derive(Clone, Copy)]
pub struct Frame {
    step: Step,
    x: u32,
    y: u32,
    columns: u32,
    first: Run,
    second: Run,
    weight: u64,
}

/// The corner state to which a list of steps leads from the start.
#[derive(Drop)]
pub struct Skyline {
    inst: Inst,
    weighting: Weighting,
    least: u64,
    across: NextPlaces,
    along: NextPlaces,
    // By the column where a run starts, the run; the other entries mean nothing.
    runs: Vec<Run>,
    weight: u64,
    cases: u32,
    frames: Vec<Frame>,
}

impl Model for Skyline {
    ghost use Rattle.cert_rules.specs.Path.{Path};

    ghost Value = { Path };

    ghost use Rattle.cert_rules.specs.Frames.{path_of, IsSkyline};

    ghost view = { path_of };

    ghost invariant = { IsSkyline };
}

/// The lowest height, its leftmost column and the flat run from there.
#[derive(Clone, Copy)]
pub struct Corner {
    x: u32,
    y: u32,
    run: u32,
}

// The corner of some more columns, the next run being seen.
fn seen(best: Corner, c: u32, next: Run) -> Corner
    requires within { best.x + best.run ≤ c }
    requires range { c + next.width ≤ 4000 }
    ensures { (hs : List ℕ) → Scan hs best.x best.y best.run c → IsFlat hs c next.width next.height → 0 < next.width → Scan hs result.x result.y result.run (c + next.width) }
{
    if next.height < best.y {
        Corner {
            x: c,
            y: next.height,
            run: next.width,
        }
    } else if next.height == best.y && best.x + best.run == c {
        Corner {
            x: best.x,
            y: best.y,
            run: best.run + next.width,
        }
    } else {
        best
    }
}

// How many columns the step raises.
fn width_of(inst: Inst, across: &NextPlaces, at: Corner, step: Step) -> u32
    requires inst { across.now.inst ≡ inst }
    requires side { across.now.side ≡ inst.l_side }
    requires within { at.x ≤ inst.l_side }
    ensures { result ≡ width_by inst at.x at.run step }
{
    match step {
        Step::Lying => inst.long,
        Step::Standing => inst.short,
        Step::Waste => (across.next(at.x) - at.x).min(at.run),
    }
}

// The height to which the step raises them.
fn height_of(inst: Inst, along: &NextPlaces, at: Corner, step: Step) -> u32
    requires inst { along.now.inst ≡ inst }
    requires side { along.now.side ≡ inst.w_side }
    requires within { at.y ≤ inst.w_side }
    ensures { result ≡ height_by inst at.y step }
{
    match step {
        Step::Lying => at.y + inst.short,
        Step::Standing => at.y + inst.long,
        Step::Waste => along.next(at.y),
    }
}

// What stands behind the raised columns: the rest of the flat run, or what stood there.
fn rest_of(at: Corner, columns: u32, there: Run) -> Run
    ensures cut { columns < at.run → result ≡ record { width = at.run - columns; height = at.y } }
    ensures whole { at.run ≤ columns → result ≡ there }
{
    if columns < at.run {
        Run {
            width: at.run - columns,
            height: at.y,
        }
    } else {
        there
    }
}

// Writes two entries.
fn put_two(runs: &mut [Run], a: usize, first: Run, b: usize, second: Run)
    requires a_in { a < length runs.old }
    requires b_in { b < length runs.old }
    ensures { runs.new ≡ slice_set (slice_set runs.old a first) b second }
{
    runs[a] = first;
    runs[b] = second;
}

// Whether the step places a case.
fn places(step: Step) -> bool
    ensures { result ≡ is_case step }
{
    match step {
        Step::Waste => false,
        _ => true,
    }
}

impl Skyline {
    /// The start: heights 0 and no step. The weighting is copied, and room is taken for all runs.
    pub fn start(alloc: Global, inst: Inst, weighting: &Weighting) -> Result<Skyline, Memory>
        requires fits { CaseFits inst }
        requires lawful { IsLawfulWeighting inst weighting.now }
        requires positive { WeighsAtLeast (weight_of weighting.now) inst 1 }
        ensures inst { IfOk result (λ s. s.inst ≡ inst) }
        ensures weighting { IfOk result (λ s. s.weighting ≡ weighting.now) }
        ensures steps { IfOk result (λ s. s.steps ≡ []) }
        ensures path { IfOk result (λ s. IsPath s) }
    {
        let weight = weighting.total(inst);
        let least = weighting.least(inst);
        let copy = weighting.copied(alloc)?;
        let across = NextPlaces::of(alloc, inst, inst.l_side)?;
        let along = NextPlaces::of(alloc, inst, inst.w_side)?;
        let all = Run {
            width: inst.l_side,
            height: 0,
        };
        let runs = vec![in alloc; all; inst.l_side as usize + 1]?;
        Ok(Skyline {
            inst,
            weighting: copy,
            least,
            across,
            along,
            runs,
            weight,
            cases: 0,
            frames: Vec::new(alloc),
        })
    }

    // The corner of the state.
    fn corner(&self) -> Corner
        ensures x { result.x ≡ corner (state self.now).heights }
        ensures y { result.y ≡ lowest (state self.now).heights }
        ensures run { result.run ≡ flat_run (state self.now).heights }
        ensures fits { result.x + result.run ≤ self.now.inst.l_side }
        ensures low { result.y ≤ self.now.inst.w_side }
    {
        let columns = self.inst.l_side;
        let runs: &[Run] = &self.runs;
        let start = runs[0];
        let mut best = Corner {
            x: 0,
            y: start.height,
            run: start.width,
        };
        let mut c = start.width;
        while c < columns {
            let next = runs[c as usize];
            best = seen(best, c, next);
            c += next.width;
        }
        best
    }

    /// Whether the state has the move.
    pub fn allows(&self, step: Step) -> bool
        ensures { result ≡ allows self.now.inst (state self.now).heights step }
    {
        let at = self.corner();
        let inst = self.inst;
        match step {
            Step::Lying => inst.long <= at.run && at.y + inst.short <= inst.w_side,
            Step::Standing => {
                inst.short < inst.long && inst.short <= at.run && at.y + inst.long <= inst.w_side
            }
            Step::Waste => at.y < inst.w_side,
        }
    }

    /// How many cases the steps placed.
    pub fn placed(&self) -> u32
        ensures value { result ≡ length (state self.now).spots }
        ensures path { IsPath self.now }
    {
        self.cases
    }

    /// How many steps there are.
    pub fn steps(&self) -> u32
        ensures { result ≡ length self.now.steps }
    {
        self.frames.len() as u32
    }

    /// Whether the state is a leaf: by the weight above, at most n cases can come of it.
    pub fn is_leaf(&self, n: u32) -> bool
        ensures { IsTrue result ↔ IsLeaf self.now.inst (weight_of self.now.weighting) self.now.least n (state self.now) }
    {
        self.cases as u64 + self.weight / self.least <= n as u64
    }

    /// Makes a move. Where memory is refused the skyline stays as it is.
    pub fn advance(&mut self, step: Step) -> Result<(), Memory>
        requires allowed { IsTrue (allows self.old.inst (state self.old).heights step) }
        requires room { length self.old.steps < 500000 }
        ensures ok { OnOk result (self.new ≡ record self.old { steps = step ∷ self.old.steps }) }
        ensures err { OnErr result (self.new ≡ self.old) }
    {
        let at = self.corner();
        let columns = width_of(self.inst, &self.across, at, step);
        let height = height_of(self.inst, &self.along, at, step);
        let weight = block(
            self.inst,
            &self.weighting,
            at.x,
            at.y,
            columns,
            height - at.y,
        );
        let end = at.x + columns;
        let first = self.runs[at.x as usize];
        let second = self.runs[end as usize];
        self.frames.push(Frame {
            step,
            x: at.x,
            y: at.y,
            columns,
            first,
            second,
            weight,
        })?;
        let raised = Run {
            width: columns,
            height,
        };
        let rest = rest_of(at, columns, second);
        put_two(&mut self.runs, at.x as usize, raised, end as usize, rest);
        self.weight -= weight;
        if places(step) {
            self.cases += 1;
        }
        Ok(())
    }

    /// Takes the last step off.
    pub fn undo(&mut self)
        requires { 0 < length self.old.steps }
        ensures { (m : Step) × (self.old ≡ record self.new { steps = m ∷ self.new.steps }) }
    {
        if let Some(frame) = self.frames.pop() {
            put_two(
                &mut self.runs,
                frame.x as usize,
                frame.first,
                (frame.x + frame.columns) as usize,
                frame.second,
            );
            self.weight += frame.weight;
            if places(frame.step) {
                self.cases -= 1;
            }
        }
    }
}

// The case that a step places at a corner.
fn case_at(x: u32, y: u32, step: Step) -> Option<Spot>
    ensures { option_to_list result ≡ case_by x y step }
{
    match step {
        Step::Lying => Some(Spot {
            x,
            y,
            way: Way::Lying,
        }),
        Step::Standing => Some(Spot {
            x,
            y,
            way: Way::Standing,
        }),
        Step::Waste => None,
    }
}

impl Skyline {
    /// The cases that the steps placed, in the order of the steps.
    pub fn spots(&self, alloc: Global) -> Result<Vec<Spot>, Memory>
        ensures value { IfOk result (λ v. v.items ≡ (state self.now).spots) }
        ensures layout { IsLayout self.now.inst (state self.now).spots }
        ensures path { IsPath self.now }
    {
        let mut spots = Vec::new(alloc);
        for frame in &self.frames {
            if let Some(spot) = case_at(frame.x, frame.y, frame.step) {
                spots.push(spot)?;
            }
        }
        Ok(spots)
    }
}
