//! Four blocks: the recursive four-block pattern, by prefix maxima.
#![tactic(auto)]

mod closing;
mod laws;
mod scanning;
mod sizes;

pub use closing::four_closure;
pub use laws::four_numbers_fit_in_cells;
pub use sizes::is_four_size;

#[cfg(test)]
mod tests {
    use crate::{four_closure, is_four_size};
    use plan_geometry::{Inst, Layer};
    use raster_points::Points;
    use std::alloc::Global;
    use std::test::Fail;

    // The layer of the greatest number of the closure.
    fn closed(alloc: Global, inst: Inst) -> Result<Layer, Fail> {
        let px = Points::of(alloc, inst.l_side, inst.long, inst.short)?;
        let py = Points::of(alloc, inst.w_side, inst.long, inst.short)?;
        if !is_four_size(&px, &py) {
            return Err("too many places".into());
        }
        let tree = four_closure(alloc, inst, &px, &py)?;
        let layer = tree.draw(alloc)?;
        if layer.count() != tree.held() {
            return Err("not drawn whole".into());
        }
        Ok(layer)
    }

    #[test]
    fn few_places(rt: HostRuntime) -> Result<(), Fail> {
        let five = Inst::new(5, 5, 3, 2).ok_or("sides")?;
        assert_eq!(rt; closed(rt.alloc(), five)?.count(), 4);
        let ten = Inst::new(10, 10, 3, 2).ok_or("sides")?;
        assert_eq!(rt; closed(rt.alloc(), ten)?.count(), 16);
        let eleven = Inst::new(11, 10, 4, 3).ok_or("sides")?;
        assert_eq!(rt; closed(rt.alloc(), eleven)?.count(), 9);
        Ok(())
    }

    #[test]
    fn more_places(rt: HostRuntime) -> Result<(), Fail> {
        let inst = Inst::new(71, 57, 13, 4).ok_or("sides")?;
        assert_eq!(rt; closed(rt.alloc(), inst)?.count(), 76);
        Ok(())
    }
}
