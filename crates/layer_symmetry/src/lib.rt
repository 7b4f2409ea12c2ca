//! The moves that bring a pallet onto itself, and the variants of a layer that they give.
#![tactic(auto)]

mod images;
mod symmetries;
mod turns;

pub use images::variants;
pub use symmetries::{Move, moves};
pub use turns::turned;

#[cfg(test)]
mod tests {
    use crate::{Move, moves, turned, variants};
    use plan_geometry::{Inst, Layer, Spot, Way};
    use std::alloc::Global;
    use std::test::Fail;

    fn crosses_threads<T: Send + Sync>() {}

    // Four cases of 3 by 2 on a pallet of 5 by 5.
    fn pinwheel(alloc: Global) -> Result<Layer, Fail> {
        let inst = Inst::new(5, 5, 3, 2).ok_or("sides")?;
        let mut spots = Vec::new(alloc);
        spots.push(Spot {
            x: 0,
            y: 0,
            way: Way::Lying,
        })?;
        spots.push(Spot {
            x: 3,
            y: 0,
            way: Way::Standing,
        })?;
        spots.push(Spot {
            x: 0,
            y: 2,
            way: Way::Standing,
        })?;
        spots.push(Spot {
            x: 2,
            y: 3,
            way: Way::Lying,
        })?;
        Ok(Layer::new(inst, spots).ok_or("no layout")?)
    }

    #[test]
    fn threads(_rt: HostRuntime) -> Result<(), Fail> {
        crosses_threads::<Move>();
        crosses_threads::<Layer>();
        crosses_threads::<(Move, Layer)>();
        Ok(())
    }

    #[test]
    fn two_variants(rt: HostRuntime) -> Result<(), Fail> {
        let layer = pinwheel(rt.alloc())?;
        let all = variants(rt.alloc(), &layer)?;
        assert_eq!(rt; all.len(), 2);
        assert!(rt; all[0].0 == Move::Same && all[1].0 == Move::MirrorX);
        let image = all[1].1.spots();
        assert_eq!(rt; image.len(), 4);
        assert_eq!(rt;
            (image[0].x, image[0].y, image[0].way),
            (0, 0, Way::Standing)
        );
        assert_eq!(rt; (image[1].x, image[1].y, image[1].way), (2, 0, Way::Lying));
        assert_eq!(rt;
            (image[2].x, image[2].y, image[2].way),
            (3, 2, Way::Standing)
        );
        assert_eq!(rt; (image[3].x, image[3].y, image[3].way), (0, 3, Way::Lying));
        Ok(())
    }

    #[test]
    fn half_turn(rt: HostRuntime) -> Result<(), Fail> {
        let layer = pinwheel(rt.alloc())?;
        let image = turned(rt.alloc(), &layer, Move::HalfTurn)?;
        assert!(rt; image.spots() == layer.spots());
        Ok(())
    }

    #[test]
    fn names(rt: HostRuntime) -> Result<(), Fail> {
        let inst = Inst::new(5, 4, 3, 2).ok_or("sides")?;
        let lawful = moves(inst);
        assert_eq!(rt; lawful.len(), 4);
        let text = format!(in rt.alloc(); "{}", Move::HalfTurn)?;
        assert!(rt; text.as_str() == "half-turn");
        assert!(rt; Move::of_name(b"mirror-y") == Some(Move::MirrorY));
        assert!(rt; Move::of_name(b"Same").is_none());
        Ok(())
    }
}
