//! Plans layers of cases on a pallet: reads standard input, and writes standard output.
#![tactic(auto)]

use pallet_top::{Answer, Code, run_on};
use program_parts::{Remark, words};
use std::process::ExitCode;

/// The words that the program accepts.
const USAGE: &str =
    "pallet plan [--draw] [--workers N] | check [--workers N] | upgrade | choose | check-choice | design [--workers N] | floor | check-floor | trial --number N";

fn main(rt: HostRuntime) -> ExitCode {
    let answer = match words(&rt) {
        Ok(words) => run_on(&rt, rt.alloc(), &words, rt.stdin(), rt.stdout()).answer,
        Err(code) => Answer { code, line: 0 },
    };
    if answer.code != Code::Done {
        let remark = Remark {
            program: "pallet",
            usage: USAGE,
            answer,
        };
        let _ = eprintln!(rt; "{remark}");
    }
    ExitCode::from(answer.code as u8)
}
