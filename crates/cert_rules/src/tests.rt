ghost use Rattle.std.specs.Prelude.{IsTrue};
ghost use Rattle.plan_geometry.specs.Layout.{CaseFits};
ghost use Rattle.plan_geometry.specs.Weight.{WeighsAtLeast};
ghost use Rattle.weightings.specs.Weighting.{weight_of, IsLawfulWeighting};

use crate::{Skyline, Step, refutes};
use plan_geometry::{Inst, Spot, Way, case_fits};
use plan_memory::Memory;
use std::alloc::Global;
use std::test::Fail;
use weightings::{Mark, Marks, WeightTable, Weighting};

// Whether a tree can be asked for: a case fits, the weighting belongs, and each case weighs something.
fn can_start(inst: Inst, weighting: &Weighting) -> bool
    ensures fits { IsTrue result → CaseFits inst }
    ensures lawful { IsTrue result → IsLawfulWeighting inst weighting.now }
    ensures positive { IsTrue result → WeighsAtLeast (weight_of weighting.now) inst 1 }
{
    if !case_fits(inst) || !weighting.belongs(inst) {
        return false;
    }
    0 < weighting.least(inst)
}

// Makes a move, where the state has it.
fn go(sky: &mut Skyline, step: Step) -> Result<bool, Memory> {
    if sky.steps() < 500000 && sky.allows(step) {
        sky.advance(step)?;
        Ok(true)
    } else {
        Ok(false)
    }
}

// Takes a move off, where there is one.
fn back(sky: &mut Skyline) -> bool {
    if sky.steps() > 0 {
        sky.undo();
        true
    } else {
        false
    }
}

// Whether these letters are a tree that refutes n.
fn refuted(
    alloc: Global,
    inst: Inst,
    weighting: &Weighting,
    n: u32,
    letters: &[u8],
) -> Result<Option<bool>, Memory> {
    let mut marks = Vec::new(alloc);
    for letter in letters {
        marks.push(if *letter == b'B' {
            Mark::Branch
        } else {
            Mark::Leaf
        })?;
    }
    if marks.len() > 500000 || !can_start(inst, weighting) {
        return Ok(None);
    }
    let answer = refutes(alloc, inst, weighting, n, &Marks::new(marks))?;
    Ok(Some(answer))
}

// The table of five by five cells with a heavy cell in the third row.
fn heavy_cell(alloc: Global, weight: u32) -> Result<Option<WeightTable>, Memory> {
    let weights = [
        1, 1, 1, 0, 0, 0, 0, 1, 0, 0, 0, 0, weight, 0, 0, 0, 0, 0, 0, 0, 0, 0, 0, 0, 0,
    ];
    let cells = Vec::from_slice(alloc, weights.as_slice())?;
    Ok(WeightTable::new(5, 5, cells))
}

#[test]
fn steps_and_back(rt: HostRuntime) -> Result<(), Fail> {
    let inst = Inst::new(5, 5, 3, 2).ok_or("sides")?;
    let area = Weighting::Area;
    if !can_start(inst, &area) {
        return Err("no start".into());
    }
    let mut sky = Skyline::start(rt.alloc(), inst, &area)?;
    for step in [Step::Lying, Step::Standing, Step::Lying] {
        assert!(rt; go(&mut sky, step)?);
    }
    assert!(rt; !sky.allows(Step::Lying) && !sky.allows(Step::Standing));
    assert!(rt; sky.allows(Step::Waste));
    assert_eq!(rt; (sky.placed(), sky.steps()), (3, 3));
    assert_eq!(rt; (sky.is_leaf(3), sky.is_leaf(4)), (false, true));
    let spots = sky.spots(rt.alloc())?;
    let placed = [
        Spot {
            x: 0,
            y: 0,
            way: Way::Lying,
        },
        Spot {
            x: 3,
            y: 0,
            way: Way::Standing,
        },
        Spot {
            x: 0,
            y: 2,
            way: Way::Lying,
        },
    ];
    assert_eq!(rt; spots.as_slice(), placed.as_slice());
    assert!(rt; back(&mut sky) && back(&mut sky) && back(&mut sky));
    assert_eq!(rt; (sky.placed(), sky.steps()), (0, 0));
    Ok(())
}

#[test]
fn marks_of_a_tree(rt: HostRuntime) -> Result<(), Fail> {
    let inst = Inst::new(5, 5, 3, 3).ok_or("sides")?;
    let area = Weighting::Area;
    assert_eq!(rt; refuted(rt.alloc(), inst, &area, 1, b"BBB..")?, Some(true));
    assert_eq!(rt; refuted(rt.alloc(), inst, &area, 1, b"BBB.")?, Some(false));
    assert_eq!(rt;
        refuted(rt.alloc(), inst, &area, 1, b"BBB...")?,
        Some(false)
    );
    assert_eq!(rt; refuted(rt.alloc(), inst, &area, 1, b".")?, Some(false));
    assert_eq!(rt; refuted(rt.alloc(), inst, &area, 2, b".")?, Some(true));
    Ok(())
}

#[test]
fn leaves_by_weight(rt: HostRuntime) -> Result<(), Fail> {
    let inst = Inst::new(6, 6, 4, 1).ok_or("sides")?;
    let colour = Weighting::Colour { k: 4, c: 3 };
    assert_eq!(rt; refuted(rt.alloc(), inst, &colour, 8, b".")?, Some(true));
    assert_eq!(rt; refuted(rt.alloc(), inst, &colour, 7, b".")?, Some(false));
    let inst = Inst::new(5, 5, 3, 3).ok_or("sides")?;
    let five = Weighting::Table(heavy_cell(rt.alloc(), 5)?.ok_or("table")?);
    assert_eq!(rt; refuted(rt.alloc(), inst, &five, 1, b".")?, Some(true));
    let four = Weighting::Table(heavy_cell(rt.alloc(), 4)?.ok_or("table")?);
    assert_eq!(rt; refuted(rt.alloc(), inst, &four, 1, b".")?, Some(false));
    Ok(())
}
