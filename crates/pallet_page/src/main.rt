//! Writes the page of a report: reads standard input, and writes standard output.
#![tactic(auto)]

use page_mode::{Answer, Code, run_on};
use program_parts::{Remark, words};
use std::process::ExitCode;

fn main(rt: HostRuntime) -> ExitCode {
    let answer = match words(&rt) {
        Ok(words) => run_on(rt.alloc(), &words, rt.stdin(), rt.stdout()).answer,
        Err(code) => Answer { code, line: 0 },
    };
    if answer.code != Code::Done {
        let remark = Remark {
            program: "pallet-page",
            usage: "pallet-page",
            answer,
        };
        let _ = eprintln!(rt; "{remark}");
    }
    ExitCode::from(answer.code as u8)
}
