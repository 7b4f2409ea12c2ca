//! A layer as text: a character for each cell of its pallet.
#![tactic(auto)]

mod cells;
mod puts;

pub use plan_memory::Memory;
pub use puts::put_drawing;

#[cfg(test)]
mod tests {
    use crate::put_drawing;
    use plan_geometry::{Inst, Layer, Spot, Way};
    use std::test::Fail;

    fn spot(x: u32, y: u32, way: Way) -> Spot {
        Spot { x, y, way }
    }

    #[test]
    fn four_cases(rt: HostRuntime) -> Result<(), Fail> {
        let inst = Inst::new(5, 5, 3, 2).ok_or("sides")?;
        let spots = [
            spot(0, 0, Way::Lying),
            spot(3, 0, Way::Standing),
            spot(0, 2, Way::Standing),
            spot(2, 3, Way::Lying),
        ];
        let spots = Vec::from_slice(rt.alloc(), spots.as_slice())?;
        let layer = Layer::new(inst, spots).ok_or("no layout")?;
        let mut out = Vec::new(rt.alloc());
        put_drawing(rt.alloc(), &mut out, &layer)?;
        assert_eq!(rt;
            out.as_slice(),
            b"drawing 5 5\nccddd\nccddd\ncc.bb\naaabb\naaabb\n".as_slice()
        );
        Ok(())
    }

    #[test]
    fn many_cases(rt: HostRuntime) -> Result<(), Fail> {
        let inst = Inst::new(54, 1, 1, 1).ok_or("sides")?;
        let mut spots = Vec::new(rt.alloc());
        for x in 0..54 {
            spots.push(spot(x, 0, Way::Lying))?;
        }
        let layer = Layer::new(inst, spots).ok_or("no layout")?;
        let mut out = Vec::new(rt.alloc());
        put_drawing(rt.alloc(), &mut out, &layer)?;
        assert_eq!(rt;
            out.as_slice(),
            b"drawing 54 1\nabcdefghijklmnopqrstuvwxyzABCDEFGHIJKLMNOPQRSTUVWXYZab\n".as_slice()
        );
        Ok(())
    }

    #[test]
    fn large_pallet(rt: HostRuntime) -> Result<(), Fail> {
        let inst = Inst::new(401, 100, 1, 1).ok_or("sides")?;
        let layer = Layer::new(inst, Vec::new(rt.alloc())).ok_or("no layout")?;
        let mut out = Vec::new(rt.alloc());
        put_drawing(rt.alloc(), &mut out, &layer)?;
        assert_eq!(rt; out.as_slice(), b"drawing none\n".as_slice());
        Ok(())
    }
}
