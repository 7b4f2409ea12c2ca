ghost use Rattle.std.specs.Prelude.{IsTrue};
ghost use Rattle.plan_geometry.specs.Layout.{CaseFits};
ghost use Rattle.plan_geometry.specs.Weight.{WeighsAtLeast};
ghost use Rattle.weightings.specs.Weighting.{weight_of, IsLawfulWeighting};

use crate::{Walk, exhaust};
use plan_geometry::{Inst, Spot, Way, case_fits};
use plan_memory::Memory;
use std::alloc::Global;
use std::test::Fail;
use weightings::{Mark, Weighting};

// Whether a walk can be asked for: a case fits, the weighting belongs, and each case weighs something.
fn can_start(inst: Inst, weighting: &Weighting) -> bool
    ensures fits { IsTrue result → CaseFits inst }
    ensures lawful { IsTrue result → IsLawfulWeighting inst weighting.now }
    ensures positive { IsTrue result → WeighsAtLeast (weight_of weighting.now) inst 1 }
{
    if !case_fits(inst) || !weighting.belongs(inst) {
        return false;
    }
    0 < weighting.least(inst)
}

// The walk by the area, where it can be asked for.
fn walked(alloc: Global, inst: Inst, n: u32, budget: u32) -> Result<Option<Walk>, Memory> {
    let area = Weighting::Area;
    if !can_start(inst, &area) || n > 1000 || budget > 500000 {
        return Ok(None);
    }
    let walk = exhaust(alloc, inst, &area, n, budget)?;
    Ok(Some(walk))
}

fn spot(x: u32, y: u32, way: Way) -> Spot {
    Spot { x, y, way }
}

#[test]
fn refuted(rt: HostRuntime) -> Result<(), Fail> {
    let inst = Inst::new(5, 5, 3, 3).ok_or("sides")?;
    match walked(rt.alloc(), inst, 1, 500000)? {
        Some(Walk::Refuted { tree }) => {
            let marks = [
                Mark::Branch,
                Mark::Branch,
                Mark::Branch,
                Mark::Leaf,
                Mark::Leaf,
            ];
            assert_eq!(rt; tree.as_slice(), marks.as_slice());
        }
        _ => return Err("not refuted".into()),
    }
    let inst = Inst::new(14, 13, 5, 3).ok_or("sides")?;
    match walked(rt.alloc(), inst, 11, 500000)? {
        Some(Walk::Refuted { tree }) => assert_eq!(rt; tree.as_slice().len(), 300),
        _ => return Err("not refuted".into()),
    }
    Ok(())
}

#[test]
fn found(rt: HostRuntime) -> Result<(), Fail> {
    let inst = Inst::new(5, 5, 3, 2).ok_or("sides")?;
    match walked(rt.alloc(), inst, 3, 500000)? {
        Some(Walk::Found { layer }) => {
            let spots = [
                spot(0, 0, Way::Lying),
                spot(3, 0, Way::Standing),
                spot(0, 2, Way::Standing),
                spot(2, 3, Way::Lying),
            ];
            assert_eq!(rt; layer.spots(), spots.as_slice());
        }
        _ => return Err("not found".into()),
    }
    Ok(())
}

#[test]
fn spent(rt: HostRuntime) -> Result<(), Fail> {
    let inst = Inst::new(5, 5, 3, 2).ok_or("sides")?;
    match walked(rt.alloc(), inst, 3, 4)? {
        Some(Walk::Spent { nodes }) => assert_eq!(rt; nodes, 5),
        _ => return Err("not spent".into()),
    }
    Ok(())
}
