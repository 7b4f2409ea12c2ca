// The sizes that a brief allows.
ghost use Rattle.std.specs.Prelude.{◌≡◌, ℕ, ◌+◌, ◌-◌, ◌<◌, ◌≤◌, ◌↔◌, ◌++◌, List, length, map, IfOk, OnOk};
ghost use Rattle.std.specs.List.{range_with_len};
ghost use Rattle.csv.specs.Records.{fields_of};
ghost use Rattle.order_reader.specs.Faults.{id_in};
ghost use Rattle.case_design.specs.declared.sizes.Size.{Size};
ghost use Rattle.case_design.specs.Briefs.{IsBriefOf};
ghost use Rattle.case_design.specs.Sizes.{IsSize, AreSizes, size_with, size_row as row_of_size, size_rows as rows_of_sizes};

use crate::briefs::{Brief, id_of};
use csv::ByteRecord;
use order_reader::{Order, OrderFail, Row};
use plan_memory::Memory;
use std::alloc::Global;
use std::ops::Range;

/// The outside sides of a case, the longer first.
#[derive(Clone, Copy)]
pub struct Size {
    pub long: u32,
    pub short: u32,
}

// The shorter sides that go with a longer one.
fn shorts_with(brief: &Brief, long: u32) -> Range<u32>
    requires some { 1 ≤ long }
    requires small { long ≤ 4000 }
    requires from { brief.now.long_from ≤ long }
    requires to { long ≤ brief.now.long_to }
    ensures sizes { (short : ℕ) → (((result.start ≤ short) × (short < result.end)) ↔ IsSize brief.now (size_with long short)) }
    ensures short { result.end ≤ long + 1 }
{
    let first = brief.short_from.max(brief.least_area.div_ceil(long));
    let last = brief.short_to.min(long);
    first..last + 1
}

// How many sizes a brief has.
pub(crate) fn count_sizes(brief: &Brief) -> u32
    requires some { 1 ≤ brief.now.long_from }
    requires small { brief.now.long_to ≤ 4000 }
    ensures { (sizes : List Size) → AreSizes brief.now sizes → length sizes ≡ result }
{
    let mut count = 0;
    for long in brief.long_from..brief.long_to + 1 {
        let shorts = shorts_with(brief, long);
        count += shorts.end.saturating_sub(shorts.start);
    }
    count
}

// Adds the sizes of a longer side with each shorter side from the first up to the end, without it.
fn push_sizes(sizes: &mut Vec<Size>, long: u32, first: u32, end: u32) -> Result<(), Memory>
    ensures { OnOk result (sizes.new.items ≡ sizes.old.items ++ map (size_with long) (range_with_len first (end - first))) }
{
    for short in first..end {
        sizes.push(Size { long, short })?;
    }
    Ok(())
}

// The sizes of a brief, by rising longer side, then by rising shorter side.
pub(crate) fn sizes_of(alloc: Global, brief: &Brief) -> Result<Vec<Size>, Memory>
    requires some { 1 ≤ brief.now.long_from }
    requires small { brief.now.long_to ≤ 4000 }
    ensures { IfOk result (λ sizes. AreSizes brief.now sizes.items) }
{
    let mut sizes = Vec::new(alloc);
    for long in brief.long_from..brief.long_to + 1 {
        let shorts = shorts_with(brief, long);
        push_sizes(&mut sizes, long, shorts.start, shorts.end)?;
    }
    Ok(sizes)
}

// The row of this number that a size gives.
fn size_row(
    alloc: Global,
    row: &ByteRecord,
    brief: &Brief,
    number: u32,
    size: Size,
) -> Result<Row, Memory>
    requires brief { IsBriefOf (fields_of row.now) brief.now }
    requires size { IsSize brief.now size }
    ensures { IfOk result (λ r. r ≡ row_of_size (id_in (fields_of row.now)) brief.now number size) }
{
    let numbers = [
        brief.pallet_x,
        brief.pallet_y,
        size.long,
        size.short,
        1,
        1,
        1,
        100_000_000,
        0,
        0,
        100,
        0,
    ];
    match Order::new(alloc, id_of(row), numbers) {
        Ok(order) => Ok(Row::Order(order)),
        Err(OrderFail::Fault(fault)) => Ok(Row::Refused { number, fault }),
        Err(OrderFail::Memory) => Err(Memory),
    }
}

// The rows of a list of sizes, numbered from 1.
pub(crate) fn size_rows(
    alloc: Global,
    row: &ByteRecord,
    brief: &Brief,
    sizes: &[Size],
) -> Result<Vec<Row>, Memory>
    requires brief { IsBriefOf (fields_of row.now) brief.now }
    requires sizes { AreSizes brief.now sizes.now }
    requires few { length sizes.now ≤ 256 }
    ensures { IfOk result (λ rows. rows.items ≡ rows_of_sizes (id_in (fields_of row.now)) brief.now sizes.now) }
{
    let mut rows = Vec::new(alloc);
    for (place, size) in sizes.iter().enumerate() {
        let of_size = size_row(alloc, row, brief, place as u32 + 1, *size)?;
        rows.push(of_size)?;
    }
    Ok(rows)
}
