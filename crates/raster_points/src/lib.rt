//! The normal places and the raster places of a side of the pallet, after Scheithauer and Terno.
#![tactic(auto)]

mod laws;
mod places;
mod points;

pub use laws::{one_greatest_normal_place, raster_places_round_back};
pub use points::Points;

#[cfg(test)]
mod tests {
    use crate::Points;
    use std::test::Fail;

    #[test]
    fn ten(rt: HostRuntime) -> Result<(), Fail> {
        let points = Points::of(rt.alloc(), 10, 3, 2)?;
        assert_eq!(rt; points.normal(), [0, 2, 3, 4, 5, 6, 7, 8, 9, 10].as_slice());
        let raster = points.raster(rt.alloc(), 10)?;
        assert_eq!(rt; raster.as_slice(), [0, 2, 3, 4, 5, 6, 7, 8, 10].as_slice());
        assert_eq!(rt; points.down(1), 0);
        assert_eq!(rt; points.next(9), 10);
        assert_eq!(rt; points.next(10), 10);
        Ok(())
    }

    #[test]
    fn five(rt: HostRuntime) -> Result<(), Fail> {
        let points = Points::of(rt.alloc(), 5, 3, 2)?;
        assert_eq!(rt; points.normal(), [0, 2, 3, 4, 5].as_slice());
        let raster = points.raster(rt.alloc(), 5)?;
        assert_eq!(rt; raster.as_slice(), [0, 2, 3, 5].as_slice());
        Ok(())
    }
}
