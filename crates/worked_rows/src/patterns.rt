use crate::runs::{file, ran};
use block_tables::uniform_of;
use block_tree::BlockTree;
use five_block::{five_closure, is_five_size, level_one};
use g4_patterns::{four_closure, is_four_size};
use l_patterns::{EllAnswer, ell_search, ell_search_within, is_search_size};
use layout_map::normalise;
use plan_geometry::{Inst, Way, area_bound};
use raster_points::Points;
use std::alloc::Global;
use std::test::Fail;
use std::thread::Threads;

// The best pattern of four blocks.
fn by_four_blocks(alloc: Global, inst: Inst) -> Result<BlockTree, Fail> {
    let px = Points::of(alloc, inst.l_side, inst.long, inst.short)?;
    let py = Points::of(alloc, inst.w_side, inst.long, inst.short)?;
    if !is_four_size(&px, &py) {
        return Err("too many places".into());
    }
    Ok(four_closure(alloc, inst, &px, &py)?)
}

// The best pattern of five blocks.
fn by_five_blocks(alloc: Global, inst: Inst) -> Result<BlockTree, Fail> {
    let px = Points::of(alloc, inst.l_side, inst.long, inst.short)?;
    let py = Points::of(alloc, inst.w_side, inst.long, inst.short)?;
    if !is_five_size(&px, &py) {
        return Err("too many places".into());
    }
    Ok(five_closure(alloc, inst, &px, &py)?)
}

// The best pattern of L-regions.
fn by_ell_regions(alloc: Global, inst: Inst) -> Result<EllAnswer, Fail> {
    let px = Points::of(alloc, inst.l_side, inst.long, inst.short)?;
    let py = Points::of(alloc, inst.w_side, inst.long, inst.short)?;
    if !is_search_size(&px, &py) {
        return Err("too many places".into());
    }
    Ok(ell_search(alloc, inst, &px, &py)?)
}

// The best pattern of L-regions that a search of at most so many regions finds.
fn within(alloc: Global, inst: Inst, limit: u32) -> Result<EllAnswer, Fail> {
    let px = Points::of(alloc, inst.l_side, inst.long, inst.short)?;
    let py = Points::of(alloc, inst.w_side, inst.long, inst.short)?;
    if limit > 300_000 || !is_search_size(&px, &py) {
        return Err("too many places".into());
    }
    Ok(ell_search_within(alloc, inst, &px, &py, limit)?)
}

// With no region the search gives up; with as many as the memo holds, or more, it is complete.
#[test]
fn limits_of_the_search(rt: HostRuntime) -> Result<(), Fail> {
    let inst = Inst::new(5, 5, 3, 2).ok_or("sides")?;
    assert!(rt; !within(rt.alloc(), inst, 0)?.complete);
    for limit in [262_144, 300_000] {
        let answer = within(rt.alloc(), inst, limit)?;
        assert!(rt; answer.complete);
        assert_eq!(rt; answer.tree.held(), 4);
    }
    Ok(())
}

// The lines of a report in which the layer of a pattern stands as the first, each case moved to its normal place.
fn lines_of(alloc: Global, tree: &BlockTree) -> Result<String, Fail> {
    let drawn = tree.draw(alloc)?;
    let layer = normalise(alloc, &drawn)?;
    let mut lines = String::from_str(alloc, "\nlayer 1 same\n")?;
    for spot in layer.spots() {
        let way = match spot.way {
            Way::Lying => "L",
            Way::Standing => "S",
        };
        let line = format!(in alloc; "{} {} {way}\n", spot.x, spot.y)?;
        lines.push_str(&line)?;
    }
    Ok(lines)
}

// Whether the report of a row has these lines, and the layer of the pattern as the first.
fn prints<R: Threads + Sync>(
    rt: &R,
    alloc: Global,
    row: &str,
    counts: &str,
    tree: &BlockTree,
) -> Result<bool, Fail> {
    let lines = lines_of(alloc, tree)?;
    let ran = ran(rt, alloc, "plan", &file(alloc, row)?)?;
    let Ok(text) = str::from_utf8(&ran.written) else {
        return Err("no text".into());
    };
    Ok(text.contains(counts) && text.contains(lines.as_str()))
}

// How many cases the better grid, the best cut into five grids, four blocks and five blocks hold. These numbers were
// found by another program, which tries every cut.
#[test]
fn held_by_blocks(rt: HostRuntime) -> Result<(), Fail> {
    let instances = [
        ((11, 10, 4, 3), [6, 8, 9, 9]),
        ((71, 57, 13, 4), [70, 76, 76, 77]),
        ((43, 26, 7, 3), [48, 52, 52, 52]),
    ];
    for ((l_side, w_side, long, short), counts) in instances {
        let inst = Inst::new(l_side, w_side, long, short).ok_or("sides")?;
        let grid = uniform_of(inst, inst.l_side, inst.w_side);
        let first = level_one(rt.alloc(), inst)?.held();
        let four = by_four_blocks(rt.alloc(), inst)?.held();
        let five = by_five_blocks(rt.alloc(), inst)?.held();
        assert_eq!(rt; [grid, first, four, five], counts);
    }
    Ok(())
}

// Nine cases are the bound here, and four blocks are the first pattern to hold them.
#[test]
fn planned_by_four_blocks(rt: HostRuntime) -> Result<(), Fail> {
    let alloc = rt.alloc();
    let inst = Inst::new(11, 10, 4, 3).ok_or("sides")?;
    let tree = by_four_blocks(alloc, inst)?;
    let row = "\nA,11,10,4,3,1,1,1,1,0,0,100";
    let counts = "\nreduced 11 10 4 3\ncount 9\nbound 9\nstatus optimal\n";
    assert!(rt; prints(&rt, alloc, row, counts, &tree)?);
    Ok(())
}

// A centre is needed for the 77 cases of the bound, so five blocks are the first pattern to hold them.
#[test]
fn planned_by_five_blocks(rt: HostRuntime) -> Result<(), Fail> {
    let alloc = rt.alloc();
    let inst = Inst::new(71, 57, 13, 4).ok_or("sides")?;
    let tree = by_five_blocks(alloc, inst)?;
    let row = "\nA,71,57,13,4,1,1,1,1,0,0,100";
    let counts = "\nreduced 71 57 13 4\ncount 77\nbound 77\nstatus optimal\n";
    assert!(rt; prints(&rt, alloc, row, counts, &tree)?);
    Ok(())
}

// No five blocks hold the 53 cases of the bound. L-regions do, and so does the layer to which a table guides a walk, which
// is found first.
#[test]
fn held_by_ell_regions(rt: HostRuntime) -> Result<(), Fail> {
    let alloc = rt.alloc();
    let inst = Inst::new(43, 26, 7, 3).ok_or("sides")?;
    let answer = by_ell_regions(alloc, inst)?;
    assert_eq!(rt; answer.tree.held(), 53);
    let planned = ran(
        &rt,
        alloc,
        "plan",
        &file(alloc, "\nA,43,26,7,3,1,1,1,1,0,0,100")?,
    )?;
    let Ok(text) = str::from_utf8(&planned.written) else {
        return Err("no text".into());
    };
    assert!(rt; text.contains("\nreduced 43 26 7 3\ncount 53\nbound 53\nstatus optimal\n"));
    Ok(())
}

// 798 pairs of normal places: at most 2,500, but more than the 400 up to which L-regions are always searched whole.
#[test]
fn normal_places(rt: HostRuntime) -> Result<(), Fail> {
    let inst = Inst::new(43, 26, 7, 3).ok_or("sides")?;
    let px = Points::of(rt.alloc(), 43, 7, 3)?;
    let py = Points::of(rt.alloc(), 26, 7, 3)?;
    assert_eq!(rt; px.normal().len(), 38);
    assert_eq!(rt; py.normal().len(), 21);
    assert!(rt; is_five_size(&px, &py));
    assert_eq!(rt; area_bound(inst), 53);
    Ok(())
}
