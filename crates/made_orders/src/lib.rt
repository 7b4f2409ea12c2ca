//! Orders that are made from a number, for a trial of the whole program, and the text of what a trial found.
#![tactic(auto)]

mod generator;
mod made;
mod summaries;

pub use made::made_rows;
pub use plan_memory::Memory;
pub use summaries::{Summary, put_summary};

#[cfg(test)]
mod tests {
    use crate::{Summary, made_rows, put_summary};
    use order_reader::Row;
    use std::test::Fail;

    #[test]
    fn made_from_one(rt: HostRuntime) -> Result<(), Fail> {
        let alloc = rt.alloc();
        let rows = made_rows(alloc, 1)?;
        assert_eq!(rt; rows.len(), 16);
        let made = [
            (
                0,
                "t1",
                [17, 13, 5, 4, 100, 1000, 1000, 1_000_000, 60, 1, 100, 0],
            ),
            (
                8,
                "t9",
                [30, 26, 6, 4, 100, 1000, 1000, 1_000_000, 60, 1, 100, 0],
            ),
            (
                9,
                "t10",
                [31, 19, 6, 3, 100, 1000, 1000, 1_000_000, 60, 1, 100, 0],
            ),
            (
                15,
                "t16",
                [38, 26, 6, 4, 100, 1000, 1000, 1_000_000, 60, 1, 100, 0],
            ),
        ];
        for (place, id, numbers) in made {
            let Some(Row::Order(order)) = rows.get(place) else {
                return Err(Fail::from("no order"));
            };
            assert_eq!(rt; order.id(), id.as_bytes());
            assert_eq!(rt; order.numbers(), numbers);
        }
        Ok(())
    }

    #[test]
    fn made_from_a_million(rt: HostRuntime) -> Result<(), Fail> {
        let rows = made_rows(rt.alloc(), 1_000_000)?;
        let Some(Row::Order(order)) = rows.get(15) else {
            return Err(Fail::from("no order"));
        };
        assert_eq!(rt;
            order.numbers(),
            [12, 14, 4, 3, 100, 1000, 1000, 1_000_000, 60, 1, 100, 0]
        );
        Ok(())
    }

    #[test]
    fn a_summary(rt: HostRuntime) -> Result<(), Fail> {
        let mut text = Vec::new(rt.alloc());
        let summary = Summary {
            number: 1_000_000,
            rows: 16,
            planned: 16,
            cases: 16000,
            optimal: 15,
            stacks: 0,
            yes: 14,
        };
        put_summary(&mut text, &summary)?;
        assert_eq!(rt;
            text.as_slice(),
            b"trial 1000000\nrows 16\nplanned 16\ncases 16000\noptimal 15\nstacks 0\nyes 14\n".as_slice()
        );
        Ok(())
    }
}
