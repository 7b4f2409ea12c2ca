use crate::climb;
use line_tables::LineTable;
use plan_geometry::{Inst, Layer, case_fits};
use plan_memory::Memory;
use std::alloc::Global;
use std::test::Fail;

// Tables of a search for weights on few lines, and below how far walks that they guide climb within so many states,
// both of a model in Rust.
const LARGE_COLUMNS: [u32; 35] = [
    4, 9, 14, 18, 19, 23, 24, 28, 29, 32, 34, 37, 39, 42, 44, 47, 49, 51, 54, 56, 59, 61, 64, 66,
    69, 70, 74, 75, 79, 80, 84, 85, 89, 94, 99,
];

const LARGE_ROWS: [u32; 13] = [3, 8, 12, 17, 22, 27, 31, 36, 41, 46, 50, 55, 60];

const LARGE_QUARTER: [u32; 126] = [
    3003, 99659, 96734, 95898, 0, 3375, 0, 98770, 0, 97455, 0, 96013, 0, 4222, 0, 97087, 0, 97734,
    97446, 65339, 66127, 66101, 0, 97277, 0, 65901, 0, 65763, 0, 66263, 0, 96944, 0, 66214, 0,
    65666, 97304, 64915, 66394, 66402, 0, 97151, 0, 65442, 0, 65973, 0, 66339, 0, 97072, 0, 66055,
    0, 65595, 97162, 64904, 65706, 67280, 0, 97225, 0, 64880, 0, 66109, 0, 66905, 0, 96884, 0,
    65952, 0, 66045, 2956, 100000, 97051, 94995, 0, 3396, 0, 99383, 0, 97496, 0, 95753, 0, 4297, 0,
    97231, 0, 97815, 97506, 65003, 66166, 66448, 0, 97266, 0, 65350, 0, 66011, 0, 66483, 0, 96934,
    0, 66040, 0, 65835, 97153, 64951, 65879, 67023, 0, 97088, 0, 65348, 0, 65816, 0, 66601, 0,
    97048, 0, 66111, 0, 65507,
];

const SMALL_COLUMNS: [u32; 31] = [
    2, 5, 6, 8, 9, 11, 12, 13, 14, 15, 16, 17, 18, 19, 20, 21, 22, 23, 24, 25, 26, 27, 28, 29, 30,
    31, 33, 34, 36, 37, 40,
];

const SMALL_ROWS: [u32; 14] = [2, 5, 6, 8, 9, 11, 12, 13, 14, 16, 17, 19, 20, 23];

const SMALL_QUARTER: [u32; 112] = [
    49872, 100000, 25576, 21063, 29086, 71994, 29095, 24321, 0, 21832, 30701, 35274, 34684, 30246,
    22826, 0, 73589, 75506, 26470, 50813, 24243, 49772, 25777, 24923, 28842, 22657, 27540, 23297,
    22842, 26990, 23604, 28582, 52072, 0, 0, 51477, 0, 270, 0, 12466, 29942, 12144, 1966, 0, 0,
    2034, 12819, 28760, 21700, 75709, 26055, 0, 23614, 50183, 25769, 11628, 0, 9879, 25637, 23443,
    23191, 24914, 10577, 0, 28003, 24150, 0, 20560, 5679, 21867, 2653, 13847, 0, 10869, 6188,
    12272, 10472, 6384, 12241, 0, 21597, 75612, 26178, 0, 23723, 50114, 25585, 12228, 0, 9180,
    26469, 23595, 22684, 25653, 10449, 0, 52088, 0, 0, 51371, 0, 194, 0, 12187, 29641, 12930, 1263,
    47, 0, 1533, 13384, 28177,
];

// The table of these lines and weights.
fn table(
    alloc: Global,
    columns: &[u32],
    rows: &[u32],
    quarter: &[u32],
) -> Result<Option<LineTable>, Memory> {
    LineTable::new(
        alloc,
        Vec::from_slice(alloc, columns)?,
        Vec::from_slice(alloc, rows)?,
        Vec::from_slice(alloc, quarter)?,
    )
}

// How many cases a climb finds on a pallet, from none on; None where no case fits.
fn climbed(
    alloc: Global,
    table: &LineTable,
    inst: Inst,
    most: u32,
    most_states: u32,
) -> Result<Option<u32>, Memory> {
    if !case_fits(inst) {
        return Ok(None);
    }
    match Layer::new(inst, Vec::new(alloc)) {
        Some(empty) => {
            let layer = climb(alloc, table, empty, most, most_states)?;
            Ok(Some(layer.count()))
        }
        None => Ok(None),
    }
}

// Only walks with exchanged axes that try standing cases first find the 67th case within 163 states and the 68th within
// 165.
#[test]
fn sixty_eight(rt: HostRuntime) -> Result<(), Fail> {
    let alloc = rt.alloc();
    let inst = Inst::new(104, 65, 19, 5).ok_or("sides")?;
    let table = table(alloc, &LARGE_COLUMNS, &LARGE_ROWS, &LARGE_QUARTER)?.ok_or("table")?;
    for (most_states, count) in [(157, 64), (162, 66), (163, 67), (164, 67), (165, 68)] {
        assert_eq!(rt; climbed(alloc, &table, inst, 68, most_states)?, Some(count));
    }
    Ok(())
}

#[test]
fn as_many_as_are_asked_for(rt: HostRuntime) -> Result<(), Fail> {
    let alloc = rt.alloc();
    let inst = Inst::new(43, 26, 7, 3).ok_or("sides")?;
    let table = table(alloc, &SMALL_COLUMNS, &SMALL_ROWS, &SMALL_QUARTER)?.ok_or("table")?;
    for most in [0, 7, 50] {
        assert_eq!(rt; climbed(alloc, &table, inst, most, 30_000)?, Some(most));
    }
    Ok(())
}

// The last case takes a steady walk within 1,140 states, and a whole one within 2,660.
#[test]
fn fifty_three(rt: HostRuntime) -> Result<(), Fail> {
    let alloc = rt.alloc();
    let inst = Inst::new(43, 26, 7, 3).ok_or("sides")?;
    let table = table(alloc, &SMALL_COLUMNS, &SMALL_ROWS, &SMALL_QUARTER)?.ok_or("table")?;
    for (most_states, count) in [
        (0, 0),
        (1, 0),
        (2, 1),
        (30, 29),
        (54, 48),
        (55, 49),
        (59, 51),
    ] {
        assert_eq!(rt; climbed(alloc, &table, inst, 53, most_states)?, Some(count));
    }
    for (most_states, count) in [(60, 52), (1139, 52), (1140, 53), (2660, 53)] {
        assert_eq!(rt; climbed(alloc, &table, inst, 54, most_states)?, Some(count));
    }
    Ok(())
}

// A case at the right end of this pallet weighs nothing.
#[test]
fn no_weight(rt: HostRuntime) -> Result<(), Fail> {
    let alloc = rt.alloc();
    let inst = Inst::new(4, 3, 3, 3).ok_or("sides")?;
    let table = table(alloc, &[0], &[1], &[1])?.ok_or("table")?;
    assert_eq!(rt; climbed(alloc, &table, inst, 9, 1000)?, Some(0));
    Ok(())
}
