ghost use Rattle.std.specs.Prelude.{◌≡◌, ◌*◌, ◌≤◌, length, vec_len, IfOk};
ghost use Rattle.line_tables.specs.Lines.{half};
ghost use Rattle.line_search.specs.Blocks.{IsRange, AreRanges};

use crate::blocks::Range;
use plan_memory::Memory;
use std::alloc::Global;

// The range of the lines that a case covers from a place on.
fn covered(lines: &[u32], place: u32, extent: u32) -> Range
    ensures { IsRange (length lines.now) result }
{
    let end = place.saturating_add(extent);
    let from = lines.partition_point(|line| *line < place);
    let to = lines.partition_point(|line| *line < end).max(from);
    Range { from, to }
}

// For each place the range of the lines that a case there covers.
pub(crate) fn ranges_of(
    alloc: Global,
    lines: &[u32],
    places: &[u32],
    extent: u32,
) -> Result<Vec<Range>, Memory>
    ensures ranges { IfOk result (λ v. AreRanges (length lines.now) v.items) }
    ensures count { IfOk result (λ v. vec_len v ≡ length places.now) }
{
    let mut found = Vec::with_capacity(alloc, places.len())?;
    for place in places {
        found.push(covered(lines, *place, extent))?;
    }
    Ok(found)
}

// The range of the places, given by their ranges of lines, that cover a line.
fn covers(ranges: &[Range], line: usize) -> Range
    ensures { IsRange (length ranges.now) result }
{
    let from = ranges.partition_point(|range| range.to <= line);
    let to = ranges.partition_point(|range| range.from <= line).max(from);
    Range { from, to }
}

// For each of so many lines the range of the places that cover it.
pub(crate) fn covers_of(alloc: Global, ranges: &[Range], lines: usize) -> Result<Vec<Range>, Memory>
    ensures ranges { IfOk result (λ v. AreRanges (length ranges.now) v.items) }
    ensures count { IfOk result (λ v. vec_len v ≡ lines) }
{
    let mut found = Vec::with_capacity(alloc, lines)?;
    for line in 0..lines {
        found.push(covers(ranges, line))?;
    }
    Ok(found)
}

// How many places a range has.
fn size(range: Range) -> u64 {
    range.to.saturating_sub(range.from) as u64
}

// Adds to each count of a row the size of its range, times the height.
fn add_sizes(across: &[Range], height: u64, counts: &mut [u64])
    requires { length counts.old ≤ length across.now }
{
    for x in 0..counts.len() {
        counts[x] = counts[x].saturating_add(size(across[x]).saturating_mul(height));
    }
}

// Adds to each count of a quarter how many entries its block has.
pub(crate) fn add_counts(across: &[Range], down: &[Range], counts: &mut [u64])
    requires { length counts.old ≡ half (length down.now) * half (length across.now) }
{
    let width = across.len().div_ceil(2);
    for y in 0..down.len().div_ceil(2) {
        let height = size(down[y]);
        add_sizes(across, height, &mut counts[y * width..(y + 1) * width]);
    }
}
