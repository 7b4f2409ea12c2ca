//! A layer for an instance, by one pattern of blocks after another, up to a number that no layout exceeds.
#![tactic(auto)]

mod planning;

pub use planning::{layer_by_blocks, layer_by_regions};

#[cfg(test)]
mod tests {
    use crate::{layer_by_blocks, layer_by_regions};
    use plan_geometry::{Inst, Layer, Spot, Way, area_bound};
    use std::alloc::Global;
    use std::test::Fail;

    fn spot(x: u32, y: u32, way: Way) -> Spot {
        Spot { x, y, way }
    }

    #[test]
    fn round_a_centre(rt: HostRuntime) -> Result<(), Fail> {
        let inst = Inst::new(5, 5, 3, 2).ok_or("sides")?;
        let most = area_bound(inst);
        if most > 1000 {
            return Err("too many cases".into());
        }
        let layer = layer_by_blocks(rt.alloc(), inst, most)?;
        let round = [
            spot(0, 0, Way::Lying),
            spot(3, 0, Way::Standing),
            spot(0, 2, Way::Standing),
            spot(2, 3, Way::Lying),
        ];
        assert!(rt; layer.spots() == round.as_slice());
        Ok(())
    }

    // By the better grid, by four blocks, and below what the cells allow.
    #[test]
    fn counts(rt: HostRuntime) -> Result<(), Fail> {
        let instances = [
            ((1200, 800, 400, 300), 8),
            ((11, 10, 4, 3), 9),
            ((19, 12, 7, 2), 14),
        ];
        for ((l_side, w_side, long, short), count) in instances {
            let inst = Inst::new(l_side, w_side, long, short).ok_or("sides")?;
            let most = area_bound(inst);
            if most > 1000 {
                return Err("too many cases".into());
            }
            let layer = layer_by_blocks(rt.alloc(), inst, most)?;
            assert_eq!(rt; layer.count(), count);
        }
        Ok(())
    }

    // The layer by blocks, and then by L-regions.
    fn layer_of(alloc: Global, inst: Inst) -> Result<Layer, Fail> {
        let most = area_bound(inst);
        if most > 1000 {
            return Err("too many cases".into());
        }
        let layer = layer_by_blocks(alloc, inst, most)?;
        let layer = layer_by_regions(alloc, inst, most, layer)?;
        Ok(layer)
    }

    // No five blocks hold 53 cases here, and the cells allow no more.
    #[test]
    fn of_ell_regions(rt: HostRuntime) -> Result<(), Fail> {
        let inst = Inst::new(43, 26, 7, 3).ok_or("sides")?;
        assert_eq!(rt; layer_of(rt.alloc(), inst)?.count(), 53);
        Ok(())
    }

    // With 203 normal places along x no pattern of regions or blocks is tried: one row of cases is left.
    #[test]
    fn too_many_places(rt: HostRuntime) -> Result<(), Fail> {
        let inst = Inst::new(405, 3, 2, 2).ok_or("sides")?;
        assert_eq!(rt; layer_of(rt.alloc(), inst)?.count(), 202);
        Ok(())
    }
}
