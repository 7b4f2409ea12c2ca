//! The chain map of a layout onto an instance with the same sides.
#![tactic(auto)]

mod laws;
mod map;

pub use laws::{
    chain_map_exists, chain_map_is_a_layout, chain_map_is_normal, chain_map_is_one,
    chains_are_lists, layouts_have_a_normal_form, same_sides_admit_alike, same_sides_bound_alike,
};
pub use map::{map_layer, normalise};

#[cfg(test)]
mod tests {
    use crate::{map_layer, normalise};
    use partitions::same_sides;
    use plan_geometry::{Inst, Layer, Spot, Way};
    use std::test::Fail;

    #[test]
    fn maps(rt: HostRuntime) -> Result<(), Fail> {
        let from = Inst::new(5, 5, 3, 3).ok_or("sides")?;
        let to = Inst::new(1, 1, 1, 1).ok_or("sides")?;
        let mut spots = Vec::new(rt.alloc());
        spots.push(Spot {
            x: 2,
            y: 1,
            way: Way::Lying,
        })?;
        let layer = Layer::new(from, spots).ok_or("no layer")?;
        assert!(rt; same_sides(layer.inst(), to));
        let mapped = map_layer(rt.alloc(), &layer, to)?;
        let s = mapped.spots();
        assert_eq!(rt; s.len(), 1);
        assert_eq!(rt; (s[0].x, s[0].y, s[0].way), (0, 0, Way::Lying));
        Ok(())
    }

    #[test]
    fn normalises(rt: HostRuntime) -> Result<(), Fail> {
        let inst = Inst::new(6, 6, 4, 1).ok_or("sides")?;
        let mut spots = Vec::new(rt.alloc());
        for y in [1, 3] {
            spots.push(Spot {
                x: 1,
                y,
                way: Way::Lying,
            })?;
        }
        let layer = Layer::new(inst, spots).ok_or("no layer")?;
        let normal = normalise(rt.alloc(), &layer)?;
        let s = normal.spots();
        assert_eq!(rt; s.len(), 2);
        assert_eq!(rt; (s[0].x, s[0].y, s[0].way), (0, 0, Way::Lying));
        assert_eq!(rt; (s[1].x, s[1].y, s[1].way), (0, 1, Way::Lying));
        Ok(())
    }
}
