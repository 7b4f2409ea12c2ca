//! Patterns of L-regions: a pallet cut again and again into two L-regions, and the search for the greatest
//! number of cases that this reaches.
#![tactic(auto)]

mod answers;
mod building;
mod cuts;
mod knowledge;
mod laws;
mod parts;
mod running;
mod sides;
mod stepping;
mod trying;

pub use answers::{EllAnswer, ell_search, ell_search_within, is_search_size};
pub use laws::{
    cuts_are_numbered, ell_numbers_are_admitted, ell_numbers_fit_in_cells,
    whole_parts_give_nothing_greater,
};

#[cfg(test)]
mod tests {
    use crate::{EllAnswer, ell_search, ell_search_within, is_search_size};
    use plan_geometry::Inst;
    use raster_points::Points;
    use std::alloc::Global;
    use std::test::Fail;

    // The answer of a search within a limit.
    fn within(alloc: Global, inst: Inst, limit: u32) -> Result<EllAnswer, Fail> {
        let px = Points::of(alloc, inst.l_side, inst.long, inst.short)?;
        let py = Points::of(alloc, inst.w_side, inst.long, inst.short)?;
        if !is_search_size(&px, &py) || limit > 300_000 {
            return Err("too many places".into());
        }
        Ok(ell_search_within(alloc, inst, &px, &py, limit)?)
    }

    #[test]
    fn four_round_a_centre(rt: HostRuntime) -> Result<(), Fail> {
        let inst = Inst::new(5, 5, 3, 2).ok_or("sides")?;
        let px = Points::of(rt.alloc(), 5, 3, 2)?;
        let py = Points::of(rt.alloc(), 5, 3, 2)?;
        if !is_search_size(&px, &py) {
            return Err("too many places".into());
        }
        let answer = ell_search(rt.alloc(), inst, &px, &py)?;
        assert!(rt; answer.complete);
        assert_eq!(rt; answer.tree.held(), 4);
        Ok(())
    }

    #[test]
    fn no_region_may_be_tried(rt: HostRuntime) -> Result<(), Fail> {
        let inst = Inst::new(5, 5, 3, 2).ok_or("sides")?;
        let answer = within(rt.alloc(), inst, 0)?;
        assert!(rt; !answer.complete);
        assert_eq!(rt; answer.tree.held(), 2);
        Ok(())
    }

    #[test]
    fn fifty_three_cases(rt: HostRuntime) -> Result<(), Fail> {
        let inst = Inst::new(43, 26, 7, 3).ok_or("sides")?;
        let answer = within(rt.alloc(), inst, 300_000)?;
        assert!(rt; answer.complete);
        assert_eq!(rt; answer.tree.held(), 53);
        assert_eq!(rt; answer.tree.draw(rt.alloc())?.count(), 53);
        Ok(())
    }

    #[test]
    fn gives_up_at_its_limit(rt: HostRuntime) -> Result<(), Fail> {
        let inst = Inst::new(43, 26, 7, 3).ok_or("sides")?;
        let answer = within(rt.alloc(), inst, 100)?;
        assert!(rt; !answer.complete);
        assert!(rt; answer.tree.held() >= 48);
        Ok(())
    }
}
