use crate::{MOST_ROUNDS, dual};
use plan_geometry::{Inst, case_fits};
use plan_memory::Memory;
use std::alloc::Global;
use std::test::Fail;
use weightings::{WeightTable, Weighting};

// The table, where there is one to ask for.
fn table(alloc: Global, inst: Inst, rounds: u32) -> Result<Option<WeightTable>, Memory> {
    if case_fits(inst) && inst.l_side <= 200 && inst.w_side <= 200 && rounds <= MOST_ROUNDS {
        dual(alloc, inst, rounds)
    } else {
        Ok(None)
    }
}

// The total, the least weight and the bound of the table, where it is one of the instance.
fn measures(inst: Inst, table: WeightTable) -> Option<(u64, u64, Option<u64>)> {
    let weighting = Weighting::Table(table);
    if case_fits(inst) && weighting.belongs(inst) {
        let total = weighting.total(inst);
        let least = weighting.least(inst);
        Some((total, least, weighting.bound(inst)))
    } else {
        None
    }
}

// The weight of a cell, where the table has it.
fn weight(table: &WeightTable, x: u32, y: u32) -> Option<u32> {
    if x < table.x_side() && y < table.y_side() {
        Some(table.cell(x, y))
    } else {
        None
    }
}

// The first five weights of a row, where the table has them.
fn row(table: &WeightTable, y: u32) -> Option<[u32; 5]> {
    Some([
        weight(table, 0, y)?,
        weight(table, 1, y)?,
        weight(table, 2, y)?,
        weight(table, 3, y)?,
        weight(table, 4, y)?,
    ])
}

#[test]
fn many_rounds(rt: HostRuntime) -> Result<(), Fail> {
    let inst = Inst::new(5, 5, 3, 3).ok_or("sides")?;
    let found = table(rt.alloc(), inst, MOST_ROUNDS)?.ok_or("table")?;
    let rows = [
        (0, [1, 1, 1, 0, 0]),
        (1, [0, 0, 1, 0, 0]),
        (2, [0, 0, 5, 0, 0]),
        (3, [0, 0, 0, 0, 0]),
        (4, [0, 0, 0, 0, 0]),
    ];
    for (y, weights) in rows {
        assert_eq!(rt; row(&found, y), Some(weights));
    }
    assert_eq!(rt; (found.x_side(), found.y_side()), (5, 5));
    assert_eq!(rt; measures(inst, found), Some((9, 5, Some(1))));
    Ok(())
}

#[test]
fn eight_rounds(rt: HostRuntime) -> Result<(), Fail> {
    let inst = Inst::new(5, 5, 3, 3).ok_or("sides")?;
    let found = table(rt.alloc(), inst, 8)?.ok_or("table")?;
    assert_eq!(rt; measures(inst, found), Some((7, 3, Some(2))));
    Ok(())
}

#[test]
fn four_rounds(rt: HostRuntime) -> Result<(), Fail> {
    let inst = Inst::new(5, 5, 3, 3).ok_or("sides")?;
    assert!(rt; table(rt.alloc(), inst, 4)?.is_none());
    Ok(())
}
