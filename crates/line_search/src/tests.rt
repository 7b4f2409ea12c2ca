use crate::{End, LineSearch, MOST_TURNS, lines_of};
use plan_geometry::{Axis, Inst};
use plan_memory::Memory;
use std::alloc::Global;
use std::test::Fail;

// How a search ended, after how many turns, and the bound of the best table.
type Outcome = (End, u32, Option<u64>);

// What a whole search gives. The values of the tests are those of a model in stock Rust.
fn outcome(
    alloc: Global,
    sides: (u32, u32, u32, u32),
    target: u32,
    known: u32,
) -> Result<Option<Outcome>, Memory> {
    let Some(inst) = Inst::new(sides.0, sides.1, sides.2, sides.3) else {
        return Ok(None);
    };
    let Some(mut search) = LineSearch::start(alloc, inst, target)? else {
        return Ok(None);
    };
    let end = search.run(alloc, target, known, MOST_TURNS)?;
    let bound = match search.best() {
        Some(best) => Some(best.bound),
        None => None,
    };
    Ok(Some((end, search.turns(), bound)))
}

#[test]
fn a_long_search(rt: HostRuntime) -> Result<(), Fail> {
    let sides = (200, 183, 15, 11);
    assert_eq!(rt;
        outcome(rt.alloc(), sides, 220, 221)?,
        Some((End::Closed, 260, Some(220)))
    );
    assert_eq!(rt;
        outcome(rt.alloc(), sides, 219, 221)?,
        Some((End::Hopeless, 360, Some(220)))
    );
    Ok(())
}

#[test]
fn shorter_searches(rt: HostRuntime) -> Result<(), Fail> {
    let alloc = rt.alloc();
    assert_eq!(rt;
        outcome(alloc, (104, 65, 19, 5), 65, 71)?,
        Some((End::Hopeless, 80, Some(68)))
    );
    assert_eq!(rt;
        outcome(alloc, (43, 26, 7, 3), 52, 53)?,
        Some((End::Hopeless, 340, None))
    );
    assert_eq!(rt;
        outcome(alloc, (5, 5, 3, 3), 1, 2)?,
        Some((End::Closed, 20, Some(1)))
    );
    assert_eq!(rt;
        outcome(alloc, (47, 27, 10, 3), 40, 42)?,
        Some((End::Closed, 40, Some(40)))
    );
    Ok(())
}

#[test]
fn a_large_pallet(rt: HostRuntime) -> Result<(), Fail> {
    let sides = (1200, 1000, 73, 47);
    assert_eq!(rt;
        outcome(rt.alloc(), sides, 347, 349)?,
        Some((End::Hopeless, 1080, Some(348)))
    );
    Ok(())
}

// The lines of both axes.
fn lines(alloc: Global, sides: (u32, u32, u32, u32)) -> Result<(Vec<u32>, Vec<u32>), Fail> {
    let inst = Inst::new(sides.0, sides.1, sides.2, sides.3).ok_or("sides")?;
    let columns = lines_of(alloc, Axis::X, inst)?;
    let rows = lines_of(alloc, Axis::Y, inst)?;
    Ok((columns, rows))
}

// By hand: the one start is 0, the one end 3, and before it 2 leaves 3 of the side, which is a case.
#[test]
fn one_line(rt: HostRuntime) -> Result<(), Fail> {
    let (columns, rows) = lines(rt.alloc(), (5, 5, 3, 3))?;
    assert_eq!(rt; columns.as_slice(), [2].as_slice());
    assert_eq!(rt; rows.as_slice(), [2].as_slice());
    Ok(())
}

// Lines of the model.
#[test]
fn more_lines(rt: HostRuntime) -> Result<(), Fail> {
    let (columns, rows) = lines(rt.alloc(), (12, 11, 7, 2))?;
    assert_eq!(rt; columns.as_slice(), [1, 3, 5, 6, 8, 10].as_slice());
    assert_eq!(rt; rows.as_slice(), [1, 3, 5, 7, 9].as_slice());
    Ok(())
}

// By hand: along y no case fits; along x the starts are 0, 3 and 6, the ends 3, 6 and 9, and 9, 6 and 3 are left.
#[test]
fn no_line(rt: HostRuntime) -> Result<(), Fail> {
    let (columns, rows) = lines(rt.alloc(), (10, 2, 3, 3))?;
    assert_eq!(rt; columns.as_slice(), [1, 4, 7].as_slice());
    assert!(rt; rows.is_empty());
    assert_eq!(rt; outcome(rt.alloc(), (10, 2, 3, 3), 1, 2)?, None);
    Ok(())
}

// A case of side 1 has a line for each cell, so 400 by 400 cells have 40,000 crossings in a quarter, and as many places;
// these 80,000 numbers are passed 500 times.
#[test]
fn most_lines(rt: HostRuntime) -> Result<(), Fail> {
    let most = Inst::new(400, 400, 1, 1).ok_or("sides")?;
    let search = LineSearch::start(rt.alloc(), most, 159_999)?.ok_or("lines")?;
    assert_eq!(rt; search.limit(), 500);
    let more = Inst::new(401, 400, 1, 1).ok_or("sides")?;
    assert!(rt; LineSearch::start(rt.alloc(), more, 160_399)?.is_none());
    Ok(())
}

// Goes on where it stopped.
#[test]
fn a_search_in_parts(rt: HostRuntime) -> Result<(), Fail> {
    let alloc = rt.alloc();
    let inst = Inst::new(200, 183, 15, 11).ok_or("sides")?;
    let mut search = LineSearch::start(alloc, inst, 219)?.ok_or("lines")?;
    assert!(rt; search.lightest().is_none());
    assert_eq!(rt; search.run(alloc, 219, 221, 110)?, End::Spent);
    assert_eq!(rt; search.turns(), 110);
    assert_eq!(rt; search.run(alloc, 219, 221, MOST_TURNS)?, End::Hopeless);
    assert_eq!(rt; search.turns(), 360);
    let best = search.best().ok_or("best")?;
    assert_eq!(rt; best.bound, 220);
    assert!(rt; best.table.belongs(inst));
    assert!(rt; search.lightest().is_some());
    Ok(())
}

// A search that has ended ends at once, and is closed as soon as the target is its bound.
#[test]
fn a_search_that_has_ended(rt: HostRuntime) -> Result<(), Fail> {
    let alloc = rt.alloc();
    let inst = Inst::new(104, 65, 19, 5).ok_or("sides")?;
    let mut search = LineSearch::start(alloc, inst, 65)?.ok_or("lines")?;
    assert_eq!(rt; search.run(alloc, 65, 71, MOST_TURNS)?, End::Hopeless);
    assert_eq!(rt; search.run(alloc, 67, 71, MOST_TURNS)?, End::Hopeless);
    assert_eq!(rt; search.run(alloc, 68, 71, MOST_TURNS)?, End::Closed);
    assert_eq!(rt; search.turns(), 80);
    Ok(())
}
