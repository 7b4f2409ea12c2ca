//! Tables of the greatest numbers of cases that block patterns reach, from small blocks to large ones, and
//! the trees that are built from them.
#![tactic(auto)]

mod building;
mod filling;
mod laws;
mod patterns;
mod tables;

pub use building::{better_way, five_nodes, tree_of};
pub use filling::{Filling, empty_filling, places_of, write_block};
pub use laws::{numbers_are_admitted, numbers_fit_in_cells};
pub use patterns::Pattern;
pub use tables::{Best, Job, Split, Table, look_at, look_from, row_of, uniform_of};

#[cfg(test)]
mod tests {
    use crate::{Pattern, better_way, empty_filling, look_at, row_of, uniform_of};
    use plan_geometry::{Inst, Way};
    use raster_points::Points;
    use std::test::Fail;

    #[test]
    fn grids(rt: HostRuntime) -> Result<(), Fail> {
        let inst = Inst::new(10, 10, 3, 2).ok_or("sides")?;
        assert_eq!(rt; uniform_of(inst, 5, 3), 2);
        assert_eq!(rt; better_way(inst, 5, 3), Way::Standing);
        assert_eq!(rt; better_way(inst, 6, 6), Way::Lying);
        Ok(())
    }

    #[test]
    fn nothing_known(rt: HostRuntime) -> Result<(), Fail> {
        let inst = Inst {
            l_side: 5,
            w_side: 5,
            long: 3,
            short: 2,
        };
        let px = Points::of(rt.alloc(), 5, 3, 2)?;
        let py = Points::of(rt.alloc(), 5, 3, 2)?;
        if px.normal().len() > 200 || py.normal().len() > 200 {
            return Err("too many places".into());
        }
        let f = empty_filling(rt.alloc(), Pattern::Five, inst, &px, &py)?;
        assert_eq!(rt; look_at(&f.table, 5, 4), 0);
        assert_eq!(rt; row_of(&f.table, 4), 15);
        Ok(())
    }
}
