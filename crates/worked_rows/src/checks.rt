use crate::runs::{TWO_LAYERS, changed, ran};
use pallet_top::Code;
use std::test::Fail;

/// A report of one case of 3 by 3 on 5 by 5, in the old form, without the lines of its certificate.
const ONE_CASE: &str = "\
    pallet-report 1\n\
    entry 1\n\
    id A\n\
    order 5 5 3 3 1 10 1 1000 0 0 100\n\
    reduced 5 5 3 3\n\
    count 1\n\
    bound 1\n\
    status optimal\n\
    CERT\n\
    layers 4\n\
    layer 1 same\n\
    0 0 L\n\
    layer 2 mirror-x\n\
    2 0 L\n\
    layer 3 mirror-y\n\
    0 2 L\n\
    layer 4 half-turn\n\
    2 2 L\n\
    allowed 1\n\
    stack 1\n\
    end\n\
    done 1\n";

#[test]
fn certificates(rt: HostRuntime) -> Result<(), Fail> {
    let certs = [
        ("cert weighted\nweighting area\ntree BBB..", true),
        ("cert weighted\nweighting area\ntree BBB.", false),
        ("cert weighted\nweighting area\ntree BBB...", false),
        ("cert weighted\nweighting area\ntree .", false),
        ("cert weighted\nweighting comb 3 2 3 2\ntree .", true),
        ("cert weighted\nweighting colour 3 2\ntree .", false),
        (
            "cert strip 3\ncut 0 x 0 1 1\ncut 1 x 1 1 1\ncut 2 x 1 0 1",
            true,
        ),
        (
            "cert strip 3\ncut 0 x 0 1 1\ncut 1 x 1 1 2\ncut 2 x 1 0 1",
            false,
        ),
        (
            "cert strip 3\ncut 0 x 0 1 1\ncut 1 x 1 1 0\ncut 2 x 1 0 1",
            false,
        ),
        ("cert strip 2\ncut 0 x 0 1 1\ncut 1 x 1 1 1", false),
        ("cert given-area", false),
    ];
    for (cert, accepted) in certs {
        let alloc = rt.alloc();
        let ran = ran(
            &rt,
            alloc,
            "check",
            &changed(alloc, ONE_CASE, "CERT", cert)?,
        )?;
        if accepted {
            assert!(rt; ran.code == Code::Done);
            assert!(rt; ran.written.as_slice() == b"entry 1 yes\ndone 1\n".as_slice());
        } else {
            assert!(rt; ran.code == Code::Findings);
            assert!(rt; ran.written.as_slice() == b"entry 1 no bound 0\ndone 1\n".as_slice());
        }
    }
    Ok(())
}

// A table of weights whose total is 9 and whose least case weighs 5 shows the bound 1; with one weight less it does not.
// The old form has no tables.
#[test]
fn tables(rt: HostRuntime) -> Result<(), Fail> {
    let alloc = rt.alloc();
    let table =
        "cert weighted\nweighting table 5 5\nrow 1 1 1 0 0\nrow 0 0 1 0 0\nrow 0 0 5 0 0\nrow 0 0 0 0 0\nrow 0 0 0 0 0\ntree .";
    let old = changed(alloc, ONE_CASE, "CERT", table)?;
    let answer = ran(&rt, alloc, "check", &old)?;
    assert!(rt; answer.code == Code::BadReport && answer.line == 10);
    let Ok(text) = str::from_utf8(&old) else {
        return Err("no text".into());
    };
    let form = changed(alloc, text, "pallet-report 1", "pallet-report 2")?;
    let Ok(text) = str::from_utf8(&form) else {
        return Err("no text".into());
    };
    let new = changed(alloc, text, " 0 0 100\n", " 0 0 100 0\n")?;
    let answer = ran(&rt, alloc, "check", &new)?;
    assert!(rt; answer.code == Code::Done);
    assert!(rt; answer.written.as_slice() == b"entry 1 yes\ndone 1\n".as_slice());
    let Ok(text) = str::from_utf8(&new) else {
        return Err("no text".into());
    };
    let less = changed(alloc, text, "row 0 0 5 0 0", "row 0 0 4 0 0")?;
    let answer = ran(&rt, alloc, "check", &less)?;
    assert!(rt; answer.written.as_slice() == b"entry 1 no bound 0\ndone 1\n".as_slice());
    Ok(())
}

// Each change of a report makes one clause fail.
#[test]
fn verdicts(rt: HostRuntime) -> Result<(), Fail> {
    let changes = [
        ("status optimal", "status open", "no status 0"),
        ("stack 1 2", "stack 1 1", "no stack 0"),
        ("stack 1 2", "stack 1", "no stack 0"),
        ("3 0 S\n0 2 S", "2 0 S\n0 2 S", "no layout 1"),
        ("3 2 S\n0 3 L", "2 2 S\n0 3 L", "no layout 2"),
        ("layer 2 mirror-x", "layer 2 mirror-y", "no variants 2"),
        ("allowed 2", "allowed 3", "no allowed 0"),
    ];
    for (part, other, verdict) in changes {
        let alloc = rt.alloc();
        let ran = ran(
            &rt,
            alloc,
            "check",
            &changed(alloc, TWO_LAYERS, part, other)?,
        )?;
        let wanted = format!(in alloc; "entry 1 {verdict}\ndone 1\n")?;
        assert!(rt; ran.code == Code::Findings);
        assert!(rt; ran.written.as_slice() == wanted.as_bytes());
    }
    Ok(())
}

// What is changed of the bound, of its certificate or of the instance that was planned is accepted or not.
#[test]
fn bounds(rt: HostRuntime) -> Result<(), Fail> {
    let changes = [
        ("bound 4\nstatus optimal", "bound 3\nstatus open", false),
        ("bound 4\nstatus optimal", "bound 5\nstatus open", true),
        ("tree .", "tree B...", true),
        ("tree .", "tree B....", false),
        ("tree .", "tree B..", false),
    ];
    for (part, other, accepted) in changes {
        let alloc = rt.alloc();
        let ran = ran(
            &rt,
            alloc,
            "check",
            &changed(alloc, TWO_LAYERS, part, other)?,
        )?;
        if accepted {
            assert!(rt; ran.written.as_slice() == b"entry 1 yes\ndone 1\n".as_slice());
        } else {
            assert!(rt; ran.written.as_slice() == b"entry 1 no bound 0\ndone 1\n".as_slice());
        }
    }
    Ok(())
}

// Another instance with the same sides is accepted, and one with other sides is not; a variant may not be left out.
#[test]
fn instances(rt: HostRuntime) -> Result<(), Fail> {
    let alloc = rt.alloc();
    let text = changed(alloc, TWO_LAYERS, "reduced 5 5 3 2", "reduced 10 10 6 4")?;
    let answer = ran(&rt, alloc, "check", &text)?;
    assert!(rt; answer.written.as_slice() == b"entry 1 yes\ndone 1\n".as_slice());
    let text = changed(alloc, TWO_LAYERS, "reduced 5 5 3 2", "reduced 5 4 3 2")?;
    let answer = ran(&rt, alloc, "check", &text)?;
    assert!(rt; answer.written.as_slice() == b"entry 1 no reduced 0\ndone 1\n".as_slice());
    let two =
        "layers 2\nlayer 1 same\n0 0 L\n3 0 S\n0 2 S\n2 3 L\nlayer 2 mirror-x\n0 0 S\n2 0 L\n3 2 S\n0 3 L\nallowed 2\nstack 1 2";
    let one = "layers 1\nlayer 1 same\n0 0 L\n3 0 S\n0 2 S\n2 3 L\nallowed 2\nstack 1 1";
    let answer = ran(&rt, alloc, "check", &changed(alloc, TWO_LAYERS, two, one)?)?;
    assert!(rt; answer.written.as_slice() == b"entry 1 no variants 2\ndone 1\n".as_slice());
    Ok(())
}

// The first line with which no report goes on.
#[test]
fn lines_at_fault(rt: HostRuntime) -> Result<(), Fail> {
    let changes = [
        ("pallet-report 2\n", "pallet-report 2\r\n", 1),
        ("1000 100 1 20 0", "1000 101 1 20 0", 4),
        ("count 4", "count 1001", 6),
        ("count 4", "count 04", 6),
        ("count 4", "count  4", 6),
        ("count 4", "count 5", 18),
        ("bound 4", "bound 0", 7),
        ("tree .", "tree ", 11),
        ("0 0 L\n3 0 S", "00 0 L\n3 0 S", 14),
        ("stack 1 2", "stack 1 3", 24),
        ("entry 1", "entry 2", 2),
        ("done 1", "done 2", 26),
        ("done 1\n", "done 1\nx", 27),
        ("done 1\n", "done 1", 26),
    ];
    for (part, other, line) in changes {
        let alloc = rt.alloc();
        let ran = ran(
            &rt,
            alloc,
            "check",
            &changed(alloc, TWO_LAYERS, part, other)?,
        )?;
        assert!(rt; ran.code == Code::BadReport && ran.line == line && ran.written.is_empty());
    }
    Ok(())
}

// Each text that ends too early is no report, at the line behind its last whole one.
#[test]
fn prefixes(rt: HostRuntime) -> Result<(), Fail> {
    let mut whole = 1;
    for (length, byte) in TWO_LAYERS.bytes().enumerate() {
        let text = TWO_LAYERS.as_bytes().get(..length).ok_or("no prefix")?;
        let ran = ran(&rt, rt.alloc(), "check", text)?;
        assert!(rt; ran.code == Code::BadReport && ran.line == whole && ran.written.is_empty());
        if byte == b'\n' {
            whole = whole.saturating_add(1);
        }
    }
    assert_eq!(rt; whole, 27);
    Ok(())
}

#[test]
fn many_branches(rt: HostRuntime) -> Result<(), Fail> {
    let alloc = rt.alloc();
    let tree = String::from_utf8(vec![in alloc; b'B'; 500_000]?);
    let Ok(tree) = tree else {
        return Err("no text".into());
    };
    let line = format!(in alloc; "tree {tree}")?;
    let ran = ran(
        &rt,
        alloc,
        "check",
        &changed(alloc, TWO_LAYERS, "tree .", &line)?,
    )?;
    assert!(rt; ran.code == Code::Findings);
    assert!(rt; ran.written.as_slice() == b"entry 1 no bound 0\ndone 1\n".as_slice());
    Ok(())
}

// Reports of the old form are judged as they are, and rewritten in today's.
#[test]
fn old_reports(rt: HostRuntime) -> Result<(), Fail> {
    let alloc = rt.alloc();
    let old = changed(alloc, TWO_LAYERS, "pallet-report 2", "pallet-report 1")?;
    let Ok(text) = str::from_utf8(&old) else {
        return Err("no text".into());
    };
    let old = changed(alloc, text, " 1 20 0\n", " 1 20\n")?;
    let answer = ran(&rt, alloc, "check", &old)?;
    assert!(rt; answer.written.as_slice() == b"entry 1 yes\ndone 1\n".as_slice());
    let answer = ran(&rt, alloc, "upgrade", &old)?;
    assert!(rt; answer.code == Code::Done && answer.written.as_slice() == TWO_LAYERS.as_bytes());
    let Ok(text) = str::from_utf8(&old) else {
        return Err("no text".into());
    };
    let answer = ran(
        &rt,
        alloc,
        "check",
        &changed(alloc, text, "count 4", "count 401")?,
    )?;
    assert!(rt; answer.code == Code::BadReport && answer.line == 6);
    Ok(())
}
