ghost use Rattle.std.specs.Prelude.{◌≡◌, ◌+◌, ◌*◌, ◌≤◌, length, vec_len, IfOk};
ghost use Rattle.line_tables.specs.Lines.{half};
ghost use Rattle.line_search.specs.Values.{AreValues};
ghost use Rattle.line_search.specs.Flows.{AreAxes, IsFamily, IsFlow};

use crate::blocks::{Range, add_blocks};
use crate::lines::{Starts, places_so};
use crate::ranges::{add_counts, covers_of, ranges_of};
use crate::values::{
    MOST, ONE, PLACES, Values, begin_at_step, go, led_to, scratch_of, set_rates, step, values_of,
    way,
};
use plan_geometry::{Axis, Inst, Way, extent_along};
use plan_memory::Memory;
use std::alloc::Global;

// The cases of a way at raster places: which columns and rows each covers, which of them cover each column and row,
// and their levels. The scratch has a row of sums for none of the rows of levels, one row, and so on.
#[derive(Drop)]
pub(crate) struct Family {
    pub(crate) across: Vec<Range>,
    pub(crate) down: Vec<Range>,
    pub(crate) cover_across: Vec<Range>,
    pub(crate) cover_down: Vec<Range>,
    pub(crate) levels: Values,
    pub(crate) scratch: Vec<u64>,
}

// The weights of the crossings of the lines and the levels of the cases at raster places, which are led towards the
// best weights and the best packing of parts of cases. The balance, with 24 binary places, is how much faster levels
// move than weights. The strip and the row are scratch.
#[derive(Drop)]
pub(crate) struct Flow {
    pub(crate) weights: Values,
    pub(crate) lying: Family,
    pub(crate) standing: Family,
    pub(crate) balance: u64,
    pub(crate) scratch: Vec<u64>,
    pub(crate) strip: Vec<u64>,
    pub(crate) row: Vec<u64>,
}

// Both axes: the lines of each, and where cases start.
#[derive(Drop)]
pub(crate) struct Axes {
    pub(crate) columns: Vec<u32>,
    pub(crate) rows: Vec<u32>,
    pub(crate) across: Starts,
    pub(crate) down: Starts,
}

// Counts how many crossings each case of a way covers.
fn count_levels(levels: &mut Values, across: &[Range], down: &[Range])
    requires levels { AreValues levels.old }
    requires across { length across.now ≡ levels.old.columns }
    requires down { length down.now ≡ levels.old.rows }
    ensures values { AreValues levels.new }
    ensures columns { levels.new.columns ≡ levels.old.columns }
    ensures rows { levels.new.rows ≡ levels.old.rows }
{
    add_counts(across, down, levels.counts.as_mut_slice());
}

// The cases of a way.
fn family_of(alloc: Global, inst: Inst, axes: &Axes, way: Way) -> Result<Family, Memory>
    requires { AreAxes inst axes.now }
    ensures { IfOk result (λ f. IsFamily (vec_len axes.now.columns) (vec_len axes.now.rows) f) }
{
    let wide = extent_along(Axis::X, inst, way);
    let high = extent_along(Axis::Y, inst, way);
    let across = ranges_of(
        alloc,
        axes.columns.as_slice(),
        places_so(&axes.across, way),
        wide,
    )?;
    let down = ranges_of(
        alloc,
        axes.rows.as_slice(),
        places_so(&axes.down, way),
        high,
    )?;
    let cover_across = covers_of(alloc, across.as_slice(), axes.columns.len())?;
    let cover_down = covers_of(alloc, down.as_slice(), axes.rows.len())?;
    let mut levels = values_of(alloc, across.len(), down.len(), 0)?;
    count_levels(&mut levels, across.as_slice(), down.as_slice());
    let scratch = scratch_of(alloc, across.len(), down.len())?;
    Ok(Family {
        across,
        down,
        cover_across,
        cover_down,
        levels,
        scratch,
    })
}

// Adds to each crossing how many cases of a way cover it.
fn count_covers(weights: &mut Values, family: &Family)
    requires weights { AreValues weights.old }
    requires family { IsFamily weights.old.columns weights.old.rows family.now }
    ensures values { AreValues weights.new }
    ensures columns { weights.new.columns ≡ weights.old.columns }
    ensures rows { weights.new.rows ≡ weights.old.rows }
{
    add_counts(
        family.cover_across.as_slice(),
        family.cover_down.as_slice(),
        weights.counts.as_mut_slice(),
    );
}

// Sets the rates of all values by the balance.
fn set_all_rates(flow: &mut Flow, k: usize, m: usize)
    requires { IsFlow k m flow.old }
    ensures { IsFlow k m flow.new }
{
    let inverse = (1u64 << 48) / flow.balance.max(1);
    set_rates(&mut flow.weights, inverse);
    set_rates(&mut flow.lying.levels, flow.balance);
    set_rates(&mut flow.standing.levels, flow.balance);
}

// How many cases stand at raster places, in both ways.
fn places_of(lying: &Family, standing: &Family) -> u64 {
    let lying = (lying.across.len() as u64).saturating_mul(lying.down.len() as u64);
    let standing = (standing.across.len() as u64).saturating_mul(standing.down.len() as u64);
    lying.saturating_add(standing)
}

// Weights that all begin alike, where these cases cover the crossings.
fn weights_of(
    alloc: Global,
    k: usize,
    m: usize,
    weight: u64,
    lying: &Family,
    standing: &Family,
) -> Result<Values, Memory>
    requires few_columns { k ≤ 4000 }
    requires few_rows { m ≤ 4000 }
    requires lying { IsFamily k m lying.now }
    requires standing { IsFamily k m standing.now }
    ensures values { IfOk result (λ v. AreValues v) }
    ensures columns { IfOk result (λ v. v.columns ≡ k) }
    ensures rows { IfOk result (λ v. v.rows ≡ m) }
{
    let mut weights = values_of(alloc, k, m, weight)?;
    count_covers(&mut weights, lying);
    count_covers(&mut weights, standing);
    Ok(weights)
}

// The start: each crossing weighs the same, all of them about the target, and no case has a level.
pub(crate) fn flow_of(alloc: Global, inst: Inst, axes: &Axes, target: u32) -> Result<Flow, Memory>
    requires { AreAxes inst axes.now }
    ensures { IfOk result (λ f. IsFlow (vec_len axes.now.columns) (vec_len axes.now.rows) f) }
{
    let (k, m) = (axes.columns.len(), axes.rows.len());
    let crossings = k as u64 * m as u64;
    let lying = family_of(alloc, inst, axes, Way::Lying)?;
    let standing = family_of(alloc, inst, axes, Way::Standing)?;
    let weight = (u64::from(target) + 1).saturating_mul(ONE) / crossings.max(1);
    let weights = weights_of(alloc, k, m, weight.min(MOST), &lying, &standing)?;
    let balance = (crossings << PLACES) / places_of(&lying, &standing).max(1);
    let scratch = scratch_of(alloc, k, m)?;
    let strip = vec![in alloc; 0u64; 4001]?;
    let row = vec![in alloc; 0u64; 2000]?;
    let mut flow = Flow {
        weights,
        lying,
        standing,
        balance,
        scratch,
        strip,
        row,
    };
    set_all_rates(&mut flow, k, m);
    Ok(flow)
}

// The weights of the cases of a way under weights of the crossings.
pub(crate) fn weigh(
    weights: &[u64],
    k: usize,
    m: usize,
    family: &mut Family,
    scratch: &mut [u64],
    strip: &mut [u64],
)
    requires weights { length weights.now ≡ half m * half k }
    requires few_columns { k ≤ 4000 }
    requires few_rows { m ≤ 4000 }
    requires family { IsFamily k m family.old }
    requires scratch { length scratch.old ≡ (m + 1) * half k }
    requires strip { length strip.old ≡ 4001 }
    ensures { IsFamily k m family.new }
{
    let sums = family.levels.sums.as_mut_slice();
    sums.fill(0);
    let (across, down) = (family.across.as_slice(), family.down.as_slice());
    add_blocks(weights, k, m, across, down, scratch, strip, sums);
}

// Adds to each crossing how much the levels of a way cover it: those to which the step led, or the reflections.
fn cover(
    family: &mut Family,
    k: usize,
    m: usize,
    stepped: bool,
    strip: &mut [u64],
    sums: &mut [u64],
)
    requires family { IsFamily k m family.old }
    requires strip { length strip.old ≡ 4001 }
    requires sums { length sums.old ≡ half m * half k }
    ensures { IsFamily k m family.new }
{
    let (columns, rows) = (family.levels.columns, family.levels.rows);
    let levels = led_to(&family.levels, stepped);
    let (across, down) = (family.cover_across.as_slice(), family.cover_down.as_slice());
    let scratch = family.scratch.as_mut_slice();
    add_blocks(levels, columns, rows, across, down, scratch, strip, sums);
}

// How much the levels of both ways cover each crossing.
pub(crate) fn cover_all(flow: &mut Flow, k: usize, m: usize, stepped: bool)
    requires { IsFlow k m flow.old }
    ensures { IsFlow k m flow.new }
{
    let strip = flow.strip.as_mut_slice();
    let sums = flow.weights.sums.as_mut_slice();
    sums.fill(0);
    cover(&mut flow.lying, k, m, stepped, strip, sums);
    cover(&mut flow.standing, k, m, stepped, strip, sums);
}

// One step of the levels of a way.
fn step_levels(
    weights: &[u64],
    k: usize,
    m: usize,
    family: &mut Family,
    scratch: &mut [u64],
    strip: &mut [u64],
)
    requires weights { length weights.now ≡ half m * half k }
    requires few_columns { k ≤ 4000 }
    requires few_rows { m ≤ 4000 }
    requires family { IsFamily k m family.old }
    requires scratch { length scratch.old ≡ (m + 1) * half k }
    requires strip { length strip.old ≡ 4001 }
    ensures { IsFamily k m family.new }
{
    weigh(weights, k, m, family, scratch, strip);
    step(&mut family.levels, true);
}

// One step of the levels, then of the weights.
pub(crate) fn step_all(flow: &mut Flow, k: usize, m: usize)
    requires { IsFlow k m flow.old }
    ensures { IsFlow k m flow.new }
{
    let weights = flow.weights.at.as_slice();
    let scratch = flow.scratch.as_mut_slice();
    let strip = flow.strip.as_mut_slice();
    step_levels(weights, k, m, &mut flow.lying, scratch, strip);
    step_levels(weights, k, m, &mut flow.standing, scratch, strip);
    cover_all(flow, k, m, false);
    step(&mut flow.weights, false);
}

// Goes on to the means, after so many turns since the search began again.
pub(crate) fn go_all(flow: &mut Flow, k: usize, m: usize, turns: u32)
    requires { IsFlow k m flow.old }
    ensures { IsFlow k m flow.new }
{
    let turns = u64::from(turns);
    let part = (turns << 16) / (turns + 1);
    go(&mut flow.weights, part);
    go(&mut flow.lying.levels, part);
    go(&mut flow.standing.levels, part);
}

// The balance midway, by ratios, between what it was and what the ways of levels and weights tell.
fn balance_by(old: u64, levels: u64, weights: u64) -> u64 {
    if levels == 0 || weights == 0 {
        return old;
    }
    let ratio = levels.isqrt().saturating_mul(1 << PLACES) / weights.isqrt().max(1);
    old.saturating_mul(ratio).isqrt().clamp(1 << 14, 1 << 34)
}

// Begins again where the step led.
pub(crate) fn restart(flow: &mut Flow, k: usize, m: usize)
    requires { IsFlow k m flow.old }
    ensures { IsFlow k m flow.new }
{
    let levels = way(&flow.lying.levels).saturating_add(way(&flow.standing.levels));
    flow.balance = balance_by(flow.balance, levels, way(&flow.weights));
    begin_at_step(&mut flow.weights);
    begin_at_step(&mut flow.lying.levels);
    begin_at_step(&mut flow.standing.levels);
    set_all_rates(flow, k, m);
}
