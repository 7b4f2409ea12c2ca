use crate::LineTable;
use plan_geometry::{Axis, Inst, Way, case_fits, extent_along};
use plan_memory::Memory;
use std::alloc::Global;
use std::test::Fail;

// The table of these lines and weights.
fn table(
    alloc: Global,
    columns: &[u32],
    rows: &[u32],
    quarter: &[u32],
) -> Result<Option<LineTable>, Memory> {
    LineTable::new(
        alloc,
        Vec::from_slice(alloc, columns)?,
        Vec::from_slice(alloc, rows)?,
        Vec::from_slice(alloc, quarter)?,
    )
}

// The table of the first columns and rows of a pallet, so many of each, with so many weights, of which the first is given
// and the others are 100,000.
fn heavy(
    alloc: Global,
    columns: u32,
    rows: u32,
    count: usize,
    first: u32,
) -> Result<Option<LineTable>, Memory> {
    let columns: Vec<u32> = (0..columns).collect(alloc)?;
    let rows: Vec<u32> = (0..rows).collect(alloc)?;
    let mut quarter = vec![in alloc; 100_000; count]?;
    if let Some(weight) = quarter.as_mut_slice().first_mut() {
        *weight = first;
    }
    LineTable::new(alloc, columns, rows, quarter)
}

// What a table gives on a pallet to which it belongs and on which a case fits: the total, the least weight, the bound.
fn measures(table: &LineTable, inst: Inst) -> Option<(u64, u64, Option<u64>)> {
    if !table.belongs(inst) || !case_fits(inst) {
        return None;
    }
    Some((table.total(), table.least(inst), table.bound(inst)))
}

// What a cell weighs, and what the a by b cells from (x, y) on weigh. These promise nothing, so the tests that follow
// show what is written into them and not what the clauses say.
fn cell(table: &LineTable, x: u32, y: u32) -> u64 {
    table.cell(x, y)
}

fn block(table: &LineTable, x: u32, y: u32, a: u32, b: u32) -> u64 {
    table.weight_from(x, y, a, b)
}

// The least weight of a case of one way, where it fits.
fn least_so(table: &LineTable, inst: Inst, way: Way) -> Option<u64> {
    if extent_along(Axis::X, inst, way) <= inst.l_side
        && extent_along(Axis::Y, inst, way) <= inst.w_side
    {
        Some(table.least_of_way(inst, way))
    } else {
        None
    }
}

// A value that may be shared between threads and sent.
fn crosses<T: Send + Sync>(value: T) -> T {
    value
}

#[test]
fn a_single_crossing(rt: HostRuntime) -> Result<(), Fail> {
    let inst = Inst::new(5, 5, 3, 3).ok_or("sides")?;
    let middle = table(rt.alloc(), &[2], &[2], &[1])?.ok_or("table")?;
    assert_eq!(rt; measures(&middle, inst), Some((1, 1, Some(1))));
    let copy = crosses(middle).copied(rt.alloc())?;
    assert_eq!(rt; copy.columns(), [2].as_slice());
    assert_eq!(rt; copy.rows(), [2].as_slice());
    assert_eq!(rt; copy.quarter(), [1].as_slice());
    Ok(())
}

#[test]
fn blocks_of_a_single_crossing(rt: HostRuntime) -> Result<(), Fail> {
    let middle = table(rt.alloc(), &[2], &[2], &[1])?.ok_or("table")?;
    let cells = (
        cell(&middle, 2, 2),
        cell(&middle, 2, 1),
        cell(&middle, 4000, 2),
    );
    assert_eq!(rt; cells, (1, 0, 0));
    let blocks = (block(&middle, 0, 0, 2, 5), block(&middle, 0, 0, 3, 3));
    assert_eq!(rt; blocks, (0, 1));
    assert_eq!(rt; block(&middle, 2, 2, u32::MAX, u32::MAX), 1);
    Ok(())
}

// Columns 1 and 3, rows 0, 2 and 4: a row of weights 5, one of 7, and the row of 5 again.
#[test]
fn a_middle_row_counts_once(rt: HostRuntime) -> Result<(), Fail> {
    let inst = Inst::new(5, 5, 3, 2).ok_or("sides")?;
    let rows = table(rt.alloc(), &[1, 3], &[0, 2, 4], &[5, 7])?.ok_or("table")?;
    let first = (cell(&rows, 1, 0), cell(&rows, 1, 2), cell(&rows, 1, 4));
    let second = (cell(&rows, 3, 0), cell(&rows, 3, 2), cell(&rows, 3, 4));
    assert_eq!(rt; (first, second), ((5, 7, 5), (5, 7, 5)));
    assert_eq!(rt; measures(&rows, inst), Some((34, 5, Some(6))));
    assert_eq!(rt; least_so(&rows, inst, Way::Standing), Some(7));
    Ok(())
}

// The same with x and y exchanged: here the standing cases weigh least.
#[test]
fn a_middle_column_counts_once(rt: HostRuntime) -> Result<(), Fail> {
    let inst = Inst::new(5, 5, 3, 2).ok_or("sides")?;
    let columns = table(rt.alloc(), &[0, 2, 4], &[1, 3], &[5, 7])?.ok_or("table")?;
    let first = (
        cell(&columns, 0, 1),
        cell(&columns, 2, 1),
        cell(&columns, 4, 1),
    );
    assert_eq!(rt; first, (5, 7, 5));
    assert_eq!(rt; measures(&columns, inst), Some((34, 5, Some(6))));
    assert_eq!(rt; least_so(&columns, inst, Way::Lying), Some(7));
    Ok(())
}

#[test]
fn odd_numbers_of_lines(rt: HostRuntime) -> Result<(), Fail> {
    let inst = Inst::new(5, 5, 2, 2).ok_or("sides")?;
    let odd = table(rt.alloc(), &[0, 2, 4], &[0, 2, 4], &[1, 2, 3, 4])?.ok_or("table")?;
    assert_eq!(rt;
        (cell(&odd, 4, 4), cell(&odd, 2, 4), cell(&odd, 4, 2)),
        (1, 2, 3)
    );
    assert_eq!(rt; measures(&odd, inst), Some((18, 1, Some(18))));
    assert_eq!(rt; block(&odd, 1, 1, 4, 2), 7);
    Ok(())
}

#[test]
fn even_numbers_of_lines(rt: HostRuntime) -> Result<(), Fail> {
    let inst = Inst::new(5, 5, 2, 2).ok_or("sides")?;
    let even = table(rt.alloc(), &[1, 3], &[1, 3], &[9])?.ok_or("table")?;
    assert_eq!(rt; measures(&even, inst), Some((36, 9, Some(4))));
    Ok(())
}

#[test]
fn a_place_at_the_end(rt: HostRuntime) -> Result<(), Fail> {
    let wide = Inst::new(4, 3, 3, 3).ok_or("sides")?;
    let left = table(rt.alloc(), &[0], &[1], &[1])?.ok_or("table")?;
    assert_eq!(rt; measures(&left, wide), Some((1, 0, None)));
    let high = Inst::new(3, 4, 3, 3).ok_or("sides")?;
    let low = table(rt.alloc(), &[1], &[0], &[1])?.ok_or("table")?;
    assert_eq!(rt; measures(&low, high), Some((1, 0, None)));
    Ok(())
}

#[test]
fn belongs_where_it_has_the_lines(rt: HostRuntime) -> Result<(), Fail> {
    let alone = table(rt.alloc(), &[0, 2], &[1], &[1])?.ok_or("table")?;
    assert!(rt; alone.belongs(Inst::new(3, 2, 1, 1).ok_or("sides")?));
    assert!(rt; alone.belongs(Inst::new(4000, 4000, 1, 1).ok_or("sides")?));
    assert!(rt; !alone.belongs(Inst::new(2, 3, 1, 1).ok_or("sides")?));
    assert!(rt; !alone.belongs(Inst::new(3, 1, 1, 1).ok_or("sides")?));
    Ok(())
}

// Whether these lines and weights are a table.
fn is_made(alloc: Global, columns: &[u32], rows: &[u32], quarter: &[u32]) -> Result<bool, Memory> {
    Ok(table(alloc, columns, rows, quarter)?.is_some())
}

#[test]
fn lines_that_are_none(rt: HostRuntime) -> Result<(), Fail> {
    let alloc = rt.alloc();
    assert!(rt; !is_made(alloc, &[1, 1], &[0], &[1])?);
    assert!(rt; !is_made(alloc, &[0], &[2, 1], &[1])?);
    assert!(rt; !is_made(alloc, &[], &[0], &[])?);
    assert!(rt; !is_made(alloc, &[0], &[], &[])?);
    assert!(rt; !is_made(alloc, &[4000], &[0], &[1])?);
    assert!(rt; !is_made(alloc, &[0], &[4000], &[1])?);
    Ok(())
}

#[test]
fn weights_that_are_none(rt: HostRuntime) -> Result<(), Fail> {
    let alloc = rt.alloc();
    assert!(rt; is_made(alloc, &[3999], &[3999], &[100000])?);
    assert!(rt; !is_made(alloc, &[0], &[0], &[100001])?);
    assert!(rt; !is_made(alloc, &[0, 1, 2], &[0], &[1])?);
    assert!(rt; !is_made(alloc, &[0, 1], &[0], &[1, 1])?);
    Ok(())
}

#[test]
fn most_lines_and_weights(rt: HostRuntime) -> Result<(), Fail> {
    let alloc = rt.alloc();
    assert!(rt; heavy(alloc, 4000, 1, 2000, 1)?.is_some());
    assert!(rt; heavy(alloc, 4001, 1, 2001, 1)?.is_none());
    assert!(rt; heavy(alloc, 1, 4001, 2001, 1)?.is_none());
    // 221 by 181 weights are 40,001
    assert!(rt; heavy(alloc, 442, 362, 40001, 1)?.is_none());
    Ok(())
}

// Totals and bounds go beyond 32 bits.
#[test]
fn great_totals(rt: HostRuntime) -> Result<(), Fail> {
    let alloc = rt.alloc();
    let inst = Inst::new(400, 400, 1, 1).ok_or("sides")?;
    let full = heavy(alloc, 400, 400, 40000, 100_000)?.ok_or("table")?;
    assert_eq!(rt;
        measures(&full, inst),
        Some((16_000_000_000, 100_000, Some(160_000)))
    );
    let corners = heavy(alloc, 400, 400, 40000, 1)?.ok_or("table")?;
    assert_eq!(rt;
        measures(&corners, inst),
        Some((15_999_600_004, 1, Some(15_999_600_004)))
    );
    Ok(())
}
