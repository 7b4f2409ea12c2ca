// What a program says on standard error.
use run_parts::{Answer, Code};
use std::fmt;

/// What is said of a run on standard error: a line without its end. Of a run that found nothing there is nothing to say.
#[derive(Clone, Copy)]
pub struct Remark<'a> {
    /// The program's name.
    pub program: &'a str,
    /// The words that it accepts, behind `usage: `.
    pub usage: &'a str,
    pub answer: Answer,
}

impl fmt::Display for Remark<'_> {
    fn fmt<W: fmt::Write>(&self, f: &mut fmt::Formatter<W>) -> fmt::Result {
        let what = match self.answer.code {
            Code::Done => return Ok(()),
            Code::Usage => {
                let usage = self.usage;
                return write!(f, "usage: {usage}");
            }
            Code::BadReport => {
                let (program, line) = (self.program, self.answer.line);
                return write!(f, "{program}: not a report, line {line}");
            }
            Code::Findings => "some rows or entries were not accepted",
            Code::TooLong => "input too long",
            Code::NoHeader => "no header",
            Code::TooManyRows => "too many rows",
            Code::ReadFault => "reading failed",
            Code::WriteFault => "writing failed",
            Code::Memory => "out of memory",
        };
        let program = self.program;
        write!(f, "{program}: {what}")
    }
}

#[cfg(test)]
mod tests {
    use crate::remarks::Remark;
    use run_parts::{Answer, Code};
    use std::test::Fail;

    // The exit status of each code, and the line on standard error.
    #[test]
    fn lines(rt: HostRuntime) -> Result<(), Fail> {
        let lines = [
            (Code::Done, 0, ""),
            (
                Code::Findings,
                1,
                "pallet: some rows or entries were not accepted",
            ),
            (Code::Usage, 2, "usage: pallet plan [--draw] | check"),
            (Code::TooLong, 3, "pallet: input too long"),
            (Code::NoHeader, 4, "pallet: no header"),
            (Code::TooManyRows, 5, "pallet: too many rows"),
            (Code::BadReport, 6, "pallet: not a report, line 26"),
            (Code::ReadFault, 7, "pallet: reading failed"),
            (Code::WriteFault, 8, "pallet: writing failed"),
            (Code::Memory, 9, "pallet: out of memory"),
        ];
        for (code, status, line) in lines {
            let remark = Remark {
                program: "pallet",
                usage: "pallet plan [--draw] | check",
                answer: Answer { code, line: 26 },
            };
            let text = format!(in rt.alloc(); "{remark}")?;
            assert_eq!(rt; text.as_str(), line);
            assert_eq!(rt; code as u8, status);
        }
        Ok(())
    }

    // Each line bears the name of the program that ran.
    #[test]
    fn names(rt: HostRuntime) -> Result<(), Fail> {
        let lines = [
            (Code::Usage, "usage: pallet-page"),
            (Code::BadReport, "pallet-page: not a report, line 3"),
            (Code::Memory, "pallet-page: out of memory"),
        ];
        for (code, line) in lines {
            let remark = Remark {
                program: "pallet-page",
                usage: "pallet-page",
                answer: Answer { code, line: 3 },
            };
            let text = format!(in rt.alloc(); "{remark}")?;
            assert_eq!(rt; text.as_str(), line);
        }
        Ok(())
    }
}
