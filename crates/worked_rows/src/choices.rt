use crate::runs::{changed, file, ran};
use pallet_top::Code;
use std::alloc::Global;
use std::test::Fail;
use std::thread::Threads;

/// A choice of two entries: four cases on 5 by 5, and eight on 6 by 6 with a bound of nine, so that the chosen entry is its
/// own rival.
const OWN_RIVAL: &str = "\
    pallet-choice 1\n\
    entry 1\n\
    id A\n\
    order 5 5 3 2 1 10 2 1000 100 1 20 0\n\
    reduced 5 5 3 2\n\
    count 4\n\
    bound 4\n\
    status optimal\n\
    cert weighted\n\
    weighting area\n\
    tree .\n\
    layers 2\n\
    layer 1 same\n\
    0 0 L\n\
    3 0 S\n\
    0 2 S\n\
    2 3 L\n\
    layer 2 mirror-x\n\
    0 0 S\n\
    2 0 L\n\
    3 2 S\n\
    0 3 L\n\
    allowed 2\n\
    stack 1 2\n\
    end\n\
    entry 2\n\
    id B\n\
    order 6 6 4 1 1 1 1 1000 0 0 100 0\n\
    reduced 6 6 4 1\n\
    count 8\n\
    bound 9\n\
    status open\n\
    cert weighted\n\
    weighting area\n\
    tree .\n\
    layers 2\n\
    layer 1 same\n\
    0 0 L\n\
    4 0 S\n\
    5 0 S\n\
    0 1 L\n\
    0 2 S\n\
    1 2 S\n\
    2 4 L\n\
    2 5 L\n\
    layer 2 mirror-x\n\
    0 0 S\n\
    1 0 S\n\
    2 0 L\n\
    2 1 L\n\
    4 2 S\n\
    5 2 S\n\
    0 4 L\n\
    0 5 L\n\
    allowed 1\n\
    stack 1\n\
    end\n\
    chosen 2 count 8\n\
    rival 2 bound 9\n\
    done 2\n";

/// What is written of it where its tail is right, and where it is not.
const RIGHT: &str = "entry 1 yes\nentry 2 yes\nchoice yes\ndone 2\n";

const WRONG: &str = "entry 1 yes\nentry 2 yes\nchoice no\ndone 2\n";

// What `choose` writes of these rows: the entries that `plan` writes, and this behind them.
fn chooses<R: Threads + Sync>(
    rt: &R,
    alloc: Global,
    rows: &str,
    tail: &str,
    verdicts: &str,
) -> Result<bool, Fail> {
    let orders = file(alloc, rows)?;
    let planned = ran(rt, alloc, "plan", &orders)?;
    let Ok(report) = str::from_utf8(&planned.written) else {
        return Err("no text".into());
    };
    let (_, entries) = report.split_once("pallet-report 2\n").ok_or("no head")?;
    let (entries, _) = entries.split_once("done ").ok_or("no end")?;
    let text = format!(in alloc; "pallet-choice 1\n{entries}{tail}")?;
    let chosen = ran(rt, alloc, "choose", &orders)?;
    let judged = ran(rt, alloc, "check-choice", &chosen.written)?;
    Ok(
        chosen.code == planned.code
            && chosen.written.as_slice() == text.as_bytes()
            && judged.code == Code::Done
            && judged.written.as_slice() == verdicts.as_bytes(),
    )
}

#[test]
fn chosen(rt: HostRuntime) -> Result<(), Fail> {
    let alloc = rt.alloc();
    let cases = [
        // Eight cases of 4 by 1 on 6 by 6 are more than four of 3 by 2 on 5 by 5, and 11 by 4 does not fit on 3 by 10.
        (
            "\nA,5,5,3,2,1,10,1,1000,0,0,100\nB,6,6,4,1,1,10,1,1000,0,0,100\nC,3,10,11,4,1,10,1,1000,0,0,100",
            "chosen 2 count 8\ndone 3\n",
            "entry 1 yes\nentry 2 yes\nentry 3 refused\nchoice yes\ndone 3\n",
        ),
        // Of two equal rows the first is chosen, and none is a rival.
        (
            "\nA,5,5,3,2,1,10,1,1000,0,0,100\nA,5,5,3,2,1,10,1,1000,0,0,100",
            "chosen 1 count 4\ndone 2\n",
            "entry 1 yes\nentry 2 yes\nchoice yes\ndone 2\n",
        ),
        (
            "\nC,3,10,11,4,1,10,1,1000,0,0,100",
            "chosen none\ndone 1\n",
            "entry 1 refused\nchoice yes\ndone 1\n",
        ),
        ("", "chosen none\ndone 0\n", "choice yes\ndone 0\n"),
    ];
    for (rows, tail, verdicts) in cases {
        assert!(rt; chooses(&rt, alloc, rows, tail, verdicts)?, "{rows}");
    }
    Ok(())
}

// A choice that names another entry, another count or other rivals is none, and so is one beside a verdict no.
#[test]
fn judged(rt: HostRuntime) -> Result<(), Fail> {
    let alloc = rt.alloc();
    let right = ran(&rt, alloc, "check-choice", OWN_RIVAL.as_bytes())?;
    assert!(rt; right.code == Code::Done && right.written.as_slice() == RIGHT.as_bytes());
    let cases = [
        ("rival 2 bound 9\n", ""),
        ("rival 2 bound 9\n", "rival 1 bound 9\n"),
        ("rival 2 bound 9\n", "rival 2 bound 10\n"),
        ("chosen 2 count 8", "chosen 1 count 8"),
        ("chosen 2 count 8", "chosen 2 count 7"),
        ("chosen 2 count 8", "chosen 3 count 8"),
        ("chosen 2 count 8", "chosen none"),
    ];
    for (part, other) in cases {
        let text = changed(alloc, OWN_RIVAL, part, other)?;
        let judged = ran(&rt, alloc, "check-choice", &text)?;
        assert!(rt; judged.code == Code::Findings && judged.written.as_slice() == WRONG.as_bytes());
    }
    let text = changed(alloc, OWN_RIVAL, "allowed 2", "allowed 1")?;
    let judged = ran(&rt, alloc, "check-choice", &text)?;
    assert!(rt; judged.code == Code::Findings);
    assert!(rt;
        judged.written.as_slice()
            == b"entry 1 no allowed 0\nentry 2 yes\nchoice no\ndone 2\n".as_slice()
    );
    Ok(())
}

// Each choice that ends too early is none, at the line behind its last whole one; and a report is none from its first line.
#[test]
fn prefixes(rt: HostRuntime) -> Result<(), Fail> {
    let alloc = rt.alloc();
    let mut whole = 1;
    for (length, byte) in OWN_RIVAL.bytes().enumerate() {
        let text = OWN_RIVAL.as_bytes().get(..length).ok_or("no prefix")?;
        let ran = ran(&rt, alloc, "check-choice", text)?;
        assert!(rt; ran.code == Code::BadReport && ran.line == whole && ran.written.is_empty());
        if byte == b'\n' {
            whole = whole.saturating_add(1);
        }
    }
    assert_eq!(rt; whole, 61);
    let report = ran(&rt, alloc, "check-choice", b"pallet-report 2\ndone 0\n")?;
    assert!(rt; report.code == Code::BadReport && report.line == 1);
    let choice = ran(&rt, alloc, "check", OWN_RIVAL.as_bytes())?;
    assert!(rt; choice.code == Code::BadReport && choice.line == 1);
    Ok(())
}
