//! The least instance whose sides have the same partitions, after Martins and Dell 2007.
#![tactic(auto)]

mod laws;
mod least_sides;
mod reduction;

pub use laws::{one_reduced_instance, same_sides_have_small_areas};
pub use reduction::reduce;

#[cfg(test)]
mod tests {
    use crate::reduce;
    use plan_geometry::{Inst, case_fits};
    use std::test::Fail;

    fn reduced(l_side: u32, w_side: u32, long: u32, short: u32) -> Option<(u32, u32, u32, u32)> {
        let given = Inst::new(l_side, w_side, long, short)?;
        if !case_fits(given) {
            return None;
        }
        let least = reduce(given);
        Some((least.l_side, least.w_side, least.long, least.short))
    }

    #[test]
    fn least(rt: HostRuntime) -> Result<(), Fail> {
        assert_eq!(rt; reduced(1000, 1000, 300, 200), Some((10, 10, 3, 2)));
        assert_eq!(rt; reduced(5, 5, 3, 3), Some((1, 1, 1, 1)));
        assert_eq!(rt; reduced(4, 11, 11, 4), Some((1, 2, 2, 1)));
        assert_eq!(rt; reduced(1200, 800, 400, 300), Some((12, 8, 4, 3)));
        assert_eq!(rt; reduced(5, 5, 4, 3), Some((1, 1, 1, 1)));
        Ok(())
    }
}
