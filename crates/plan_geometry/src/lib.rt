//! Spots, layouts and layers of equal cases on a pallet, and the bounds on how many cases a layout holds.
#![tactic(auto)]

mod areas;
mod gaps;
mod instances;
mod laws;
mod layers;
mod layouts;
mod spots;

pub use areas::{area_bound, weight_bound};
pub use gaps::{gap_layout, swollen};
pub use instances::Inst;
pub use laws::{cases_weigh_at_most_the_total, fewer_are_admitted, one_order};
pub use layers::{Layer, uniform};
pub use layouts::{
    are_apart, case_fits, extent_along, is_inside, is_lawful, is_layout, side_along, start_along,
};
pub use plan_memory::Memory;
pub use spots::{Axis, Spot, Way};

#[cfg(test)]
mod tests {
    use crate::{
        Axis, Inst, Layer, Spot, Way, are_apart, area_bound, case_fits, extent_along, gap_layout,
        is_inside, is_lawful, is_layout, side_along, start_along, swollen, uniform, weight_bound,
    };
    use std::test::Fail;

    fn spot(x: u32, y: u32, way: Way) -> Spot {
        Spot { x, y, way }
    }

    #[test]
    fn a_layer_sorts_its_cases(rt: HostRuntime) -> Result<(), Fail> {
        let inst = Inst::new(4, 3, 3, 1).ok_or("sides")?;
        let mut spots = Vec::new(rt.alloc());
        spots.push(spot(0, 1, Way::Lying))?;
        spots.push(spot(3, 0, Way::Standing))?;
        spots.push(spot(0, 0, Way::Lying))?;
        assert!(rt; is_layout(inst, &spots));
        let layer = Layer::new(inst, spots).ok_or("no layout")?;
        assert_eq!(rt; layer.count(), 3);
        assert_eq!(rt; layer.inst().long, 3);
        assert_eq!(rt; layer.spot(1), spot(3, 0, Way::Standing));
        assert_eq!(rt; layer.spots()[2], spot(0, 1, Way::Lying));
        Ok(())
    }

    #[test]
    fn cases_beside_each_other(rt: HostRuntime) -> Result<(), Fail> {
        let inst = Inst::new(5, 5, 3, 2).ok_or("sides")?;
        let lying = spot(0, 0, Way::Lying);
        assert!(rt; are_apart(inst, lying, spot(3, 0, Way::Standing)));
        assert!(rt; !are_apart(inst, lying, spot(2, 1, Way::Standing)));
        assert!(rt; is_inside(inst, spot(2, 3, Way::Lying)));
        assert!(rt; !is_inside(inst, spot(3, 3, Way::Lying)));
        assert!(rt; is_lawful(inst, Way::Standing));
        assert_eq!(rt; extent_along(Axis::Y, inst, Way::Standing), 3);
        assert_eq!(rt; side_along(Axis::X, inst), 5);
        assert_eq!(rt; start_along(Axis::Y, spot(2, 3, Way::Lying)), 3);
        Ok(())
    }

    #[test]
    fn a_gap_between_cases(rt: HostRuntime) -> Result<(), Fail> {
        let inst = Inst::new(5, 5, 2, 2).ok_or("sides")?;
        let wide = swollen(inst, 1).ok_or("too wide")?;
        assert_eq!(rt;
            (wide.l_side, wide.w_side, wide.long, wide.short),
            (6, 6, 3, 3)
        );
        let near = [spot(0, 0, Way::Lying), spot(2, 0, Way::Lying)];
        let far = [spot(0, 0, Way::Lying), spot(3, 0, Way::Lying)];
        assert!(rt; is_layout(inst, &near));
        assert!(rt; !gap_layout(inst, 1, &near));
        assert!(rt; gap_layout(inst, 1, &far));
        Ok(())
    }

    #[test]
    fn the_better_grid(rt: HostRuntime) -> Result<(), Fail> {
        let standing = Inst::new(12, 8, 4, 3).ok_or("sides")?;
        let layer = uniform(rt.alloc(), standing)?;
        assert_eq!(rt; layer.count(), 8);
        assert_eq!(rt; layer.spot(7), spot(9, 4, Way::Standing));
        let lying = Inst::new(10, 10, 3, 2).ok_or("sides")?;
        let layer = uniform(rt.alloc(), lying)?;
        assert_eq!(rt; layer.count(), 15);
        assert_eq!(rt; layer.spot(1), spot(3, 0, Way::Lying));
        Ok(())
    }

    #[test]
    fn bounds_by_area(rt: HostRuntime) -> Result<(), Fail> {
        let inst = Inst::new(5, 5, 3, 2).ok_or("sides")?;
        assert!(rt; case_fits(inst));
        assert_eq!(rt; area_bound(inst), 4);
        assert_eq!(rt; weight_bound(17, 4), 4);
        let narrow = Inst::new(3, 10, 11, 4).ok_or("sides")?;
        assert!(rt; !case_fits(narrow));
        Ok(())
    }
}
