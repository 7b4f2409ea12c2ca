//! The words after the program's name, read as the command line of one simple `clap` command.
#![tactic(auto)]

mod arguments;
mod modes;
mod reading;

pub use modes::Mode;
pub use plan_memory::Memory;
pub use reading::mode_of;

#[cfg(test)]
mod tests {
    use crate::{Mode, mode_of};
    use std::alloc::Global;
    use std::test::Fail;

    // What the words of a line ask for; an empty line has no words.
    fn asked(alloc: Global, line: &str) -> Result<Option<Mode>, Fail> {
        let mut words = Vec::new(alloc);
        for word in line.split_whitespace() {
            words.push(String::from_str(alloc, word)?)?;
        }
        Ok(mode_of(alloc, &words)?)
    }

    fn plan(draw: bool, workers: u32) -> Mode {
        Mode::Plan { draw, workers }
    }

    #[test]
    fn accepted_words(rt: HostRuntime) -> Result<(), Fail> {
        let lines = [
            ("plan", plan(false, 1)),
            ("plan --draw", plan(true, 1)),
            ("--draw plan", plan(true, 1)),
            ("--draw -- plan", plan(true, 1)),
            ("plan --workers 4", plan(false, 4)),
            ("--workers 16 --draw plan", plan(true, 16)),
            ("check", Mode::Check { workers: 1 }),
            ("check --workers 16", Mode::Check { workers: 16 }),
            ("--workers=+4 check", Mode::Check { workers: 4 }),
            ("check --workers 04", Mode::Check { workers: 4 }),
            ("upgrade", Mode::Upgrade),
            ("choose", Mode::Choose),
            ("check-choice", Mode::CheckChoice),
            ("design", Mode::Design { workers: 1 }),
            ("--workers 3 design", Mode::Design { workers: 3 }),
            ("floor", Mode::Floor),
            ("check-floor", Mode::CheckFloor),
            ("trial --number 1", Mode::Trial { number: 1 }),
            ("trial --number=007", Mode::Trial { number: 7 }),
            ("trial --number 1000000", Mode::Trial { number: 1_000_000 }),
        ];
        for (line, mode) in lines {
            assert_eq!(rt; asked(rt.alloc(), line)?, Some(mode));
        }
        Ok(())
    }

    #[test]
    fn refused_words(rt: HostRuntime) -> Result<(), Fail> {
        let lines = [
            "",
            "draw",
            "Plan",
            "plan plan",
            "plan --workers 0",
            "plan --workers 17",
            "plan --draw --draw",
            "plan --draw=true",
            "plan -d",
            "plan --number 1",
            "check --draw",
            "check --workers",
            "check --workers 0",
            "check --workers 17",
            "check --workers 2 --workers 2",
            "check --workers -1",
            "check --number 1",
            "upgrade --draw",
            "upgrade --workers 1",
            "upgrade --number 1",
            "choose --draw",
            "choose --workers 2",
            "choose --number 1",
            "choose choose",
            "choice",
            "check-choice --draw",
            "check-choice --workers 2",
            "check-choice --number 1",
            "check_choice",
            "design --draw",
            "design --workers 17",
            "design --number 1",
            "designs",
            "floor --draw",
            "floor --workers 2",
            "check-floor --workers 2",
            "check-floor --number 1",
            "trial",
            "trial --number 0",
            "trial --number 1000001",
            "trial --number 1.5",
            "trial --number 1 --workers 1",
            "trial --number 1 --draw",
            "help",
            "--help",
            "plan --help",
            "plan -h",
            "--version",
            "plan -V",
        ];
        for line in lines {
            assert_eq!(rt; asked(rt.alloc(), line)?, None);
        }
        Ok(())
    }
}
