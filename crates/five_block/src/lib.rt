//! Five blocks: the best cut of the whole pallet into five grids, and the recursive five-block pattern.
#![tactic(auto)]

mod closing;
mod first_cuts;
mod first_level;
mod laws;
mod scanning;
mod sizes;

pub use closing::five_closure;
pub use first_level::level_one;
pub use laws::five_numbers_fit_in_cells;
pub use sizes::is_five_size;

#[cfg(test)]
mod tests {
    use crate::{five_closure, is_five_size, level_one};
    use plan_geometry::{Inst, Layer, Spot, Way};
    use raster_points::Points;
    use std::alloc::Global;
    use std::test::Fail;

    fn spot(x: u32, y: u32, way: Way) -> Spot {
        Spot { x, y, way }
    }

    // The layer of the greatest number of the closure.
    fn closed(alloc: Global, inst: Inst) -> Result<Layer, Fail> {
        let px = Points::of(alloc, inst.l_side, inst.long, inst.short)?;
        let py = Points::of(alloc, inst.w_side, inst.long, inst.short)?;
        if !is_five_size(&px, &py) {
            return Err("too many places".into());
        }
        let tree = five_closure(alloc, inst, &px, &py)?;
        Ok(tree.draw(alloc)?)
    }

    #[test]
    fn ten_by_ten(rt: HostRuntime) -> Result<(), Fail> {
        let inst = Inst::new(10, 10, 3, 2).ok_or("sides")?;
        let tree = level_one(rt.alloc(), inst)?;
        assert_eq!(rt; tree.held(), 16);
        assert_eq!(rt; tree.draw(rt.alloc())?.count(), 16);
        assert_eq!(rt; closed(rt.alloc(), inst)?.count(), 16);
        Ok(())
    }

    #[test]
    fn round_a_centre(rt: HostRuntime) -> Result<(), Fail> {
        let inst = Inst::new(5, 5, 3, 2).ok_or("sides")?;
        let layer = level_one(rt.alloc(), inst)?.draw(rt.alloc())?;
        let round = [
            spot(0, 0, Way::Lying),
            spot(3, 0, Way::Standing),
            spot(0, 2, Way::Standing),
            spot(2, 3, Way::Lying),
        ];
        assert!(rt; layer.spots() == round.as_slice());
        Ok(())
    }

    // The cut at 0 0 0 0 comes first, though other cuts hold as many cases in another layer.
    #[test]
    fn first_of_equal_cuts(rt: HostRuntime) -> Result<(), Fail> {
        let inst = Inst::new(3, 2, 2, 1).ok_or("sides")?;
        let layer = level_one(rt.alloc(), inst)?.draw(rt.alloc())?;
        let standing = [
            spot(0, 0, Way::Standing),
            spot(1, 0, Way::Standing),
            spot(2, 0, Way::Standing),
        ];
        assert!(rt; layer.spots() == standing.as_slice());
        Ok(())
    }

    #[test]
    fn more_by_recursion(rt: HostRuntime) -> Result<(), Fail> {
        let inst = Inst::new(71, 57, 13, 4).ok_or("sides")?;
        assert_eq!(rt; level_one(rt.alloc(), inst)?.held(), 76);
        assert_eq!(rt; closed(rt.alloc(), inst)?.count(), 77);
        Ok(())
    }
}
