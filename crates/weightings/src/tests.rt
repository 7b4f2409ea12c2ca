use crate::{Cert, Mark, Marks, StripCert, StripCut, WeightTable, Weighting, lead};
use line_tables::LineTable;
use plan_geometry::{Inst, area_bound, case_fits};
use plan_memory::Memory;
use std::alloc::Global;
use std::test::Fail;

// What a weighting gives on a pallet on which a case fits: the total, the least weight, the bound.
fn measures(weighting: &Weighting, inst: Inst) -> Option<(u64, u64, Option<u64>)> {
    if !weighting.belongs(inst) || !case_fits(inst) {
        return None;
    }
    Some((
        weighting.total(inst),
        weighting.least(inst),
        weighting.bound(inst),
    ))
}

// The lead, where a case fits.
fn lead_of(inst: Inst) -> Option<Weighting> {
    if case_fits(inst) {
        Some(lead(inst))
    } else {
        None
    }
}

// The table of five by five cells with a heavy cell in the third row.
fn heavy_cell(alloc: Global, weight: u32) -> Result<Option<WeightTable>, Memory> {
    let weights = [
        1, 1, 1, 0, 0, 0, 0, 1, 0, 0, 0, 0, weight, 0, 0, 0, 0, 0, 0, 0, 0, 0, 0, 0, 0,
    ];
    let cells = Vec::from_slice(alloc, weights.as_slice())?;
    Ok(WeightTable::new(5, 5, cells))
}

// A value that may be shared between threads and sent.
fn crosses<T: Send + Sync>(value: T) -> T {
    value
}

#[test]
fn colour_leads(rt: HostRuntime) -> Result<(), Fail> {
    let inst = Inst::new(6, 6, 4, 1).ok_or("sides")?;
    let found = lead_of(inst).ok_or("fits")?;
    assert!(rt; matches!(found, Weighting::Colour { k: 4, c: 3 }));
    assert_eq!(rt; measures(&found, inst), Some((8, 1, Some(8))));
    for (c, total) in [(0, 9), (1, 10), (2, 9), (3, 8)] {
        let colour = Weighting::Colour { k: 4, c };
        assert_eq!(rt; measures(&colour, inst).map(|m| m.0), Some(total));
    }
    Ok(())
}

#[test]
fn colours(rt: HostRuntime) -> Result<(), Fail> {
    let inst = Inst::new(43, 26, 7, 3).ok_or("sides")?;
    for c in 0..7 {
        let colour = Weighting::Colour { k: 7, c };
        let total = if c < 5 { 160 } else { 159 };
        assert_eq!(rt; measures(&colour, inst), Some((total, 3, Some(53))));
    }
    Ok(())
}

#[test]
fn as_the_area(rt: HostRuntime) -> Result<(), Fail> {
    let inst = Inst::new(9, 8, 5, 2).ok_or("sides")?;
    let found = lead_of(inst).ok_or("fits")?;
    assert_eq!(rt; area_bound(inst), 7);
    assert_eq!(rt; measures(&found, inst).and_then(|m| m.2), Some(7));
    Ok(())
}

#[test]
fn tables(rt: HostRuntime) -> Result<(), Fail> {
    let inst = Inst::new(5, 5, 3, 3).ok_or("sides")?;
    let five = heavy_cell(rt.alloc(), 5)?.ok_or("table")?;
    assert_eq!(rt; (five.x_side(), five.y_side()), (5, 5));
    let five = Weighting::Table(five).copied(rt.alloc())?;
    assert_eq!(rt; measures(&five, inst), Some((9, 5, Some(1))));
    let four = heavy_cell(rt.alloc(), 4)?.ok_or("table")?;
    let four = Weighting::Table(four);
    assert_eq!(rt; measures(&four, inst), Some((8, 4, Some(2))));
    assert!(rt; heavy_cell(rt.alloc(), 100001)?.is_none());
    Ok(())
}

// The table of one column, one row and one weight.
fn one_cell(
    alloc: Global,
    column: u32,
    row: u32,
    weight: u32,
) -> Result<Option<LineTable>, Memory> {
    let columns = Vec::from_slice(alloc, [column].as_slice())?;
    let rows = Vec::from_slice(alloc, [row].as_slice())?;
    let quarter = Vec::from_slice(alloc, [weight].as_slice())?;
    LineTable::new(alloc, columns, rows, quarter)
}

// Each case of three by three covers the middle of five by five cells, and no other cell is covered by all.
#[test]
fn tables_on_lines(rt: HostRuntime) -> Result<(), Fail> {
    let inst = Inst::new(5, 5, 3, 3).ok_or("sides")?;
    let middle = one_cell(rt.alloc(), 2, 2, 7)?.ok_or("table")?;
    let middle = Weighting::Lines(middle).copied(rt.alloc())?;
    assert_eq!(rt; measures(&middle, inst), Some((7, 7, Some(1))));
    assert_eq!(rt; (middle.cell(2, 2), middle.cell(2, 1)), (7, 0));
    let beside = one_cell(rt.alloc(), 1, 2, 7)?.ok_or("table")?;
    assert_eq!(rt;
        measures(&Weighting::Lines(beside), inst),
        Some((7, 0, None))
    );
    let beyond = one_cell(rt.alloc(), 5, 2, 7)?.ok_or("table")?;
    assert_eq!(rt; measures(&Weighting::Lines(beyond), inst), None);
    Ok(())
}

#[test]
fn certificates(rt: HostRuntime) -> Result<(), Fail> {
    let weighting = Weighting::Comb {
        p: 3,
        a: 2,
        r: 2,
        b: 1,
    };
    assert_eq!(rt; (weighting.cell(5, 3), weighting.cell(5, 2)), (1, 0));
    let marks = Vec::from_slice(rt.alloc(), [Mark::Branch, Mark::Leaf].as_slice())?;
    let tree = crosses(Marks::new(marks));
    assert_eq!(rt; tree.as_slice().len(), 2);
    let _weighted = crosses(Cert::Weighted { weighting, tree });
    let cuts = Vec::from_slice(rt.alloc(), [StripCut::Area].as_slice())?;
    let strip = crosses(StripCert::new(cuts));
    assert_eq!(rt; strip.cuts().len(), 1);
    Ok(())
}
