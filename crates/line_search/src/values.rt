ghost use Rattle.std.specs.Prelude.{◌≡◌, ◌+◌, ◌*◌, ◌≤◌, length, vec_len, IfOk};
ghost use Rattle.line_tables.specs.Lines.{half};
ghost use Rattle.line_search.specs.Values.{quarter_of, AreValues};

use plan_memory::Memory;
use std::alloc::Global;

// Numbers. ONE is the unit of weights and levels. They are at most MOST, and reflected ones at most twice that. Rates
// have 24 binary places and are at most MOST_RATE, and pushes are at most MOST_PUSH. So no product or sum below reaches
// 2^63, and none wraps.

// The unit of weights and levels.
pub(crate) const ONE: u64 = 1 << 32;

// The greatest weight or level.
pub(crate) const MOST: u64 = 1 << 36;

// How many binary places a rate has.
pub(crate) const PLACES: u32 = 24;

// The greatest rate.
pub(crate) const MOST_RATE: u64 = 1 << 25;

// The greatest distance from the unit that counts.
const MOST_PUSH: u64 = 1 << 37;

// Weights of crossings or levels of places: where each stands, what a step makes of it, the reflection of the one in
// the other, and the anchor to which it is drawn; how many entries of the other kind it meets, what these sum up to,
// and how fast it moves. Of each grid the first quarter is kept.
#[derive(Drop)]
pub(crate) struct Values {
    pub(crate) columns: usize,
    pub(crate) rows: usize,
    pub(crate) at: Vec<u64>,
    pub(crate) stepped: Vec<u64>,
    pub(crate) reflected: Vec<u64>,
    pub(crate) anchor: Vec<u64>,
    pub(crate) counts: Vec<u64>,
    pub(crate) sums: Vec<u64>,
    pub(crate) rates: Vec<u64>,
}

// Values that all begin alike.
pub(crate) fn values_of(
    alloc: Global,
    columns: usize,
    rows: usize,
    value: u64,
) -> Result<Values, Memory>
    requires columns { columns ≤ 4000 }
    requires rows { rows ≤ 4000 }
    ensures values { IfOk result (λ v. AreValues v) }
    ensures columns { IfOk result (λ v. v.columns ≡ columns) }
    ensures rows { IfOk result (λ v. v.rows ≡ rows) }
{
    let count = rows.div_ceil(2) * columns.div_ceil(2);
    Ok(Values {
        columns,
        rows,
        at: vec![in alloc; value; count]?,
        stepped: vec![in alloc; value; count]?,
        reflected: vec![in alloc; value; count]?,
        anchor: vec![in alloc; value; count]?,
        counts: vec![in alloc; 0u64; count]?,
        sums: vec![in alloc; 0u64; count]?,
        rates: vec![in alloc; 1u64; count]?,
    })
}

// A row of sums for none of the rows of a grid, one row, and so on.
pub(crate) fn scratch_of(alloc: Global, columns: usize, rows: usize) -> Result<Vec<u64>, Memory>
    requires columns { columns ≤ 4000 }
    requires rows { rows ≤ 4000 }
    ensures { IfOk result (λ v. vec_len v ≡ (rows + 1) * half columns) }
{
    let scratch = vec![in alloc; 0u64; (rows + 1) * columns.div_ceil(2)]?;
    Ok(scratch)
}

// Steps: up by how much a sum is below the unit, or down by how much it is above, or the other way round; and reflects
// each value in what the step makes of it, but at least 0.
fn step_each(
    up_below: bool,
    sums: &[u64],
    rates: &[u64],
    at: &[u64],
    stepped: &mut [u64],
    reflected: &mut [u64],
)
    requires sums { length sums.now ≡ length at.now }
    requires rates { length rates.now ≡ length at.now }
    requires stepped { length stepped.old ≡ length at.now }
    requires reflected { length reflected.old ≡ length at.now }
{
    for k in 0..at.len() {
        let push = sums[k].abs_diff(ONE).min(MOST_PUSH).wrapping_mul(rates[k]) >> PLACES;
        let moved = if (sums[k] < ONE) == up_below {
            at[k].wrapping_add(push).min(MOST)
        } else {
            at[k].saturating_sub(push)
        };
        stepped[k] = moved;
        reflected[k] = moved.wrapping_mul(2).saturating_sub(at[k]);
    }
}

// Where a step led, or the reflections in it.
pub(crate) fn led_to(values: &Values, stepped: bool) -> &[u64]
    requires { AreValues values.now }
    ensures { length result.now ≡ quarter_of values.now }
{
    if stepped {
        values.stepped.as_slice()
    } else {
        values.reflected.as_slice()
    }
}

// One step of all values: levels go up where their crossings weigh less than the unit, weights where they are covered
// more than once.
pub(crate) fn step(values: &mut Values, up_below: bool)
    requires { AreValues values.old }
    ensures values { AreValues values.new }
    ensures columns { values.new.columns ≡ values.old.columns }
    ensures rows { values.new.rows ≡ values.old.rows }
{
    step_each(
        up_below,
        values.sums.as_slice(),
        values.rates.as_slice(),
        values.at.as_slice(),
        values.stepped.as_mut_slice(),
        values.reflected.as_mut_slice(),
    );
}

// Goes to the means of the reflections, which count `part` of 2^16, and the anchors.
fn go_each(part: u64, reflected: &[u64], anchor: &[u64], at: &mut [u64])
    requires reflected { length reflected.now ≡ length at.old }
    requires anchor { length anchor.now ≡ length at.old }
{
    let rest = (1u64 << 16).saturating_sub(part);
    for k in 0..at.len() {
        let near = reflected[k].wrapping_mul(part);
        let far = anchor[k].wrapping_mul(rest);
        at[k] = (near.wrapping_add(far) >> 16).min(MOST);
    }
}

// Goes on from a step to the mean of the reflections and the anchors.
pub(crate) fn go(values: &mut Values, part: u64)
    requires { AreValues values.old }
    ensures values { AreValues values.new }
    ensures columns { values.new.columns ≡ values.old.columns }
    ensures rows { values.new.rows ≡ values.old.rows }
{
    go_each(
        part,
        values.reflected.as_slice(),
        values.anchor.as_slice(),
        values.at.as_mut_slice(),
    );
}

// The sum of the squares of the ways from the anchors, without their 12 last binary places, each counted as often as it
// meets another value.
fn squares(stepped: &[u64], anchor: &[u64], counts: &[u64]) -> u64
    requires stepped { length stepped.now ≡ length counts.now }
    requires anchor { length anchor.now ≡ length counts.now }
{
    let mut sum: u64 = 0;
    for k in 0..counts.len() {
        let way = stepped[k].abs_diff(anchor[k]) >> 12;
        sum = sum.saturating_add(way.saturating_mul(way).saturating_mul(counts[k].max(1)));
    }
    sum
}

// How far a step led from the anchors: the sum of the squares.
pub(crate) fn way(values: &Values) -> u64
    requires { AreValues values.now }
{
    squares(
        values.stepped.as_slice(),
        values.anchor.as_slice(),
        values.counts.as_slice(),
    )
}

// Begins again where the step led.
pub(crate) fn begin_at_step(values: &mut Values)
    requires { AreValues values.old }
    ensures values { AreValues values.new }
    ensures columns { values.new.columns ≡ values.old.columns }
    ensures rows { values.new.rows ≡ values.old.rows }
{
    values
        .at
        .as_mut_slice()
        .copy_from_slice(values.stepped.as_slice());
    values
        .anchor
        .as_mut_slice()
        .copy_from_slice(values.stepped.as_slice());
}

// A rate for each entry: the speed by how many others it meets.
fn rate_each(speed: u64, counts: &[u64], rates: &mut [u64])
    requires { length rates.old ≡ length counts.now }
{
    for k in 0..counts.len() {
        rates[k] = (speed / counts[k].max(1)).clamp(1, MOST_RATE);
    }
}

// Sets the rates of all values.
pub(crate) fn set_rates(values: &mut Values, speed: u64)
    requires { AreValues values.old }
    ensures values { AreValues values.new }
    ensures columns { values.new.columns ≡ values.old.columns }
    ensures rows { values.new.rows ≡ values.old.rows }
{
    rate_each(speed, values.counts.as_slice(), values.rates.as_mut_slice());
}
