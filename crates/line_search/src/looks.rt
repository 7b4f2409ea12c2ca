ghost use Rattle.std.specs.Prelude.{◌≡◌, ◌+◌, ◌*◌, ◌≤◌, length, vec_len, IfOk, All};
ghost use Rattle.line_tables.specs.Lines.{half};
ghost use Rattle.line_search.specs.Flows.{IsFamily, IsFlow};

use crate::blocks::{Extreme, better_blocks, total_of};
use crate::flows::{Family, Flow, cover_all, weigh};
use crate::values::MOST;
use line_tables::MOST_WEIGHT;
use plan_memory::Memory;
use std::alloc::Global;

// Puts into each entry the least weight of a case of a way that covers its crossing, where that is less than what the
// entry has.
fn lighten(
    weights: &[u64],
    k: usize,
    m: usize,
    family: &mut Family,
    scratch: &mut [u64],
    strip: &mut [u64],
    row: &mut [u64],
    least: &mut [u64],
)
    requires weights { length weights.now ≡ half m * half k }
    requires few_columns { k ≤ 4000 }
    requires few_rows { m ≤ 4000 }
    requires family { IsFamily k m family.old }
    requires scratch { length scratch.old ≡ (m + 1) * half k }
    requires strip { length strip.old ≡ 4001 }
    requires row { length row.old ≡ 2000 }
    requires least { length least.old ≡ half m * half k }
    ensures { IsFamily k m family.new }
{
    weigh(weights, k, m, family, scratch, strip);
    better_blocks(
        Extreme::Least,
        family.levels.sums.as_slice(),
        family.levels.columns,
        family.levels.rows,
        family.cover_across.as_slice(),
        family.cover_down.as_slice(),
        row,
        strip,
        least,
    );
}

// Puts into each entry the weight, divided by the least weight of a case, which the entry has.
fn divide_each(weights: &[u64], least: &mut [u64])
    requires { length weights.now ≡ length least.old }
{
    for k in 0..least.len() {
        let part = (least[k] >> 8).max(1);
        least[k] = (weights[k].saturating_mul(1 << 24) / part).min(MOST);
    }
}

// The weights to which the step led, each divided by the least weight of a case that covers its crossing: so that each
// case weighs the unit at least.
pub(crate) fn repaired(
    alloc: Global,
    flow: &mut Flow,
    k: usize,
    m: usize,
) -> Result<Vec<u64>, Memory>
    requires { IsFlow k m flow.old }
    ensures flow { IsFlow k m flow.new }
    ensures count { IfOk result (λ v. vec_len v ≡ half m * half k) }
{
    let mut least = vec![in alloc; u64::MAX; m.div_ceil(2) * k.div_ceil(2)]?;
    let weights = flow.weights.stepped.as_slice();
    let scratch = flow.scratch.as_mut_slice();
    let strip = flow.strip.as_mut_slice();
    let row = flow.row.as_mut_slice();
    let entries = least.as_mut_slice();
    lighten(weights, k, m, &mut flow.lying, scratch, strip, row, entries);
    lighten(
        weights,
        k,
        m,
        &mut flow.standing,
        scratch,
        strip,
        row,
        entries,
    );
    divide_each(weights, entries);
    Ok(least)
}

// Puts into each entry the level, divided by the greatest cover of a crossing of its case, which the entry has.
fn share_each(levels: &[u64], greatest: &mut [u64])
    requires { length levels.now ≡ length greatest.old }
{
    for k in 0..greatest.len() {
        greatest[k] = if greatest[k] == 0 {
            0
        } else {
            levels[k].saturating_mul(1 << 24) / (greatest[k] >> 8).saturating_add(1)
        };
    }
}

// How much the levels of a way to which the step led pack, each divided by the greatest cover of a crossing of its case.
fn packed_so(
    alloc: Global,
    covers: &[u64],
    k: usize,
    m: usize,
    family: &Family,
    row: &mut [u64],
    strip: &mut [u64],
) -> Result<u64, Memory>
    requires covers { length covers.now ≡ half m * half k }
    requires few_columns { k ≤ 4000 }
    requires family { IsFamily k m family.now }
    requires strip { length strip.old ≡ 4001 }
    requires row { length row.old ≡ 2000 }
{
    let (columns, rows) = (family.levels.columns, family.levels.rows);
    let mut parts = vec![in alloc; 0u64; rows.div_ceil(2) * columns.div_ceil(2)]?;
    better_blocks(
        Extreme::Greatest,
        covers,
        k,
        m,
        family.across.as_slice(),
        family.down.as_slice(),
        row,
        strip,
        parts.as_mut_slice(),
    );
    share_each(family.levels.stepped.as_slice(), parts.as_mut_slice());
    Ok(total_of(parts.as_slice(), columns, rows))
}

// How many cases, in units, the levels to which the step led pack, once no crossing is covered more than once. All is
// rounded down, so no weights bound the cases by less.
pub(crate) fn packed(alloc: Global, flow: &mut Flow, k: usize, m: usize) -> Result<u64, Memory>
    requires { IsFlow k m flow.old }
    ensures { IsFlow k m flow.new }
{
    cover_all(flow, k, m, true);
    let covers = flow.weights.sums.as_slice();
    let row = flow.row.as_mut_slice();
    let strip = flow.strip.as_mut_slice();
    let lying = packed_so(alloc, covers, k, m, &flow.lying, row, strip)?;
    let standing = packed_so(alloc, covers, k, m, &flow.standing, row, strip)?;
    Ok(lying.saturating_add(standing))
}

// The greatest of some numbers.
fn greatest_of(numbers: &[u64]) -> u64 {
    let mut greatest = 0;
    for number in numbers {
        greatest = greatest.max(*number);
    }
    greatest
}

// A weight as a part of the greatest, in whole numbers, rounded to the nearest.
fn rounded_part(weight: u64, greatest: u64) -> u32
    ensures { result ≤ 100000 }
{
    let most = u64::from(MOST_WEIGHT);
    let twice = greatest.saturating_mul(2).max(1);
    let part = weight
        .saturating_mul(2)
        .saturating_mul(most)
        .saturating_add(greatest)
        / twice;
    part.min(most) as u32
}

// Weights as whole numbers of at most 100,000.
pub(crate) fn rounded(alloc: Global, weights: &[u64]) -> Result<Vec<u32>, Memory> {
    let greatest = greatest_of(weights).max(1);
    let mut found = Vec::with_capacity(alloc, weights.len())?;
    for weight in weights {
        found.push(rounded_part(*weight, greatest))?;
    }
    Ok(found)
}
