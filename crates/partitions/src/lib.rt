//! Partitions of a side of the pallet into sides of the case, after Martins and Dell 2007.
#![tactic(auto)]

mod laws;
mod sides;

pub use laws::{
    same_sides_fit_alike, same_sides_is_an_equivalence, same_sides_share_maximal_partitions,
};
pub use sides::{maximal_from, most_short, same_sides};

#[cfg(test)]
mod tests {
    use crate::{maximal_from, most_short, same_sides};
    use plan_geometry::Inst;
    use std::test::Fail;

    #[test]
    fn partitions(rt: HostRuntime) -> Result<(), Fail> {
        assert_eq!(rt; most_short(10, 3, 2, 1), 3);
        assert_eq!(rt; maximal_from(10, 3, 2, 0), Some((0, 5)));
        assert_eq!(rt; maximal_from(10, 3, 2, 1), Some((1, 3)));
        assert_eq!(rt; maximal_from(10, 3, 2, 2), Some((2, 2)));
        assert_eq!(rt; maximal_from(10, 3, 2, 3), Some((3, 0)));
        assert_eq!(rt; maximal_from(10, 3, 2, 4), None);
        Ok(())
    }

    #[test]
    fn sides(rt: HostRuntime) -> Result<(), Fail> {
        let given = Inst::new(1000, 1000, 300, 200).ok_or("sides")?;
        let same = Inst::new(10, 10, 3, 2).ok_or("sides")?;
        let other = Inst::new(10, 8, 3, 2).ok_or("sides")?;
        assert!(rt; same_sides(given, same));
        assert!(rt; !same_sides(given, other));
        Ok(())
    }
}
