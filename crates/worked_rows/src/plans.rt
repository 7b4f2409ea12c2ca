use crate::runs::{file, ran};
use pallet_top::Code;
use std::test::Fail;
use std::thread::Threads;

// Whether the report of one row has all these lines, one behind the other somewhere.
fn planned<R: Threads + Sync>(
    rt: &R,
    alloc: std::alloc::Global,
    row: &str,
    parts: &[&str],
) -> Result<bool, Fail> {
    let ran = ran(rt, alloc, "plan", &file(alloc, row)?)?;
    let Ok(text) = str::from_utf8(&ran.written) else {
        return Err("no text".into());
    };
    let mut all = ran.code == Code::Done;
    for part in parts {
        all = all && text.contains(*part);
    }
    Ok(all)
}

#[test]
fn bounds(rt: HostRuntime) -> Result<(), Fail> {
    let rows: [(&str, &[&str]); 5] = [
        (
            "\nA,6,6,4,1,1,10,1,1000,0,0,100",
            &[
                "\nreduced 6 6 4 1\ncount 8\nbound 8\nstatus optimal\ncert weighted\nweighting colour 4 3\ntree .\n",
                "\n0 0 L\n0 1 L\n0 2 S\n1 2 S\n2 2 S\n3 2 S\n4 2 S\n5 2 S\n",
            ],
        ),
        (
            "\nA,5,5,3,3,1,10,1,1000,0,0,100",
            &[
                "\nreduced 1 1 1 1\ncount 1\nbound 1\nstatus optimal\n",
                "\nlayers 4\nlayer 1 same\n0 0 L\nlayer 2 mirror-x\n2 0 L\nlayer 3 mirror-y\n0 2 L\nlayer 4 half-turn\n2 2 L\n",
            ],
        ),
        (
            "\nA,1000,1000,300,200,1,10,1,1000,0,0,100",
            &[
                "\nreduced 10 10 3 2\ncount 16\nbound 16\nstatus optimal\ncert weighted\nweighting area\ntree .\nlayers ",
            ],
        ),
        (
            "\nA,4,11,11,4,1,10,1,1000,0,0,100",
            &[
                "\nreduced 1 2 2 1\ncount 1\nbound 1\n",
                "\nlayers 1\nlayer 1 same\n0 0 S\n",
            ],
        ),
        (
            "\nA,9,8,5,2,1,10,1,1000,0,0,100",
            &["\ncount 6\nbound 6\nstatus optimal\ncert strip 8\ncut 0 "],
        ),
    ];
    for (row, parts) in rows {
        assert!(rt; planned(&rt, rt.alloc(), row, parts)?);
    }
    Ok(())
}

// Whether both places of a case line are multiples of a hundred; None for any other line.
fn stands_at_hundreds(line: &str) -> Option<bool> {
    let (places, way) = line.rsplit_once(' ')?;
    if way != "L" && way != "S" {
        return None;
    }
    let (x, y) = places.split_once(' ')?;
    Some((x == "0" || x.ends_with("00")) && (y == "0" || y.ends_with("00")))
}

// Where each side is a multiple of a hundred, so is each place of the sixteen cases of each form.
#[test]
fn places_at_hundreds(rt: HostRuntime) -> Result<(), Fail> {
    let alloc = rt.alloc();
    let row = "\nA,1000,1000,300,200,1,10,1,1000,0,0,100";
    let ran = ran(&rt, alloc, "plan", &file(alloc, row)?)?;
    let Ok(text) = str::from_utf8(&ran.written) else {
        return Err("no text".into());
    };
    let mut forms: u32 = 0;
    let mut cases: u32 = 0;
    for line in text.lines() {
        if line.starts_with("layer ") {
            forms = forms.saturating_add(1);
        }
        if let Some(hundreds) = stands_at_hundreds(line) {
            assert!(rt; hundreds, "{line}");
            cases = cases.saturating_add(1);
        }
    }
    assert!(rt; 0 < forms);
    assert_eq!(rt; cases, forms.saturating_mul(16));
    Ok(())
}

#[test]
fn stacks(rt: HostRuntime) -> Result<(), Fail> {
    let rows: [(&str, &[&str]); 7] = [
        (
            "\nA,5,5,3,2,1,10,2,1000,100,1,19",
            &[
                "\nallowed 2\nunmet\nrule contact together\nrule support together\nrule cut alone\nend\n",
            ],
        ),
        (
            "\nE,2,2,2,2,1,1,3,1000,0,1,100",
            &[
                "\nlayers 1\n",
                "\nallowed 3\nunmet\nrule support alone\nend\n",
            ],
        ),
        (
            "\nE,2,2,2,2,1,1,1,1000,0,1,100",
            &["\nallowed 1\nstack 1\nend\n"],
        ),
        (
            "\nA,5,5,3,2,1,10,3,95,0,0,100",
            &["\nallowed 2\nstack 1 1\nend\n"],
        ),
        (
            "\nA,5,5,3,2,1,10,3,39,0,0,100",
            &["\nallowed 0\nstack\nend\n"],
        ),
        (
            "\nEUR-400,1200,800,400,300,220,8000,1600,1000000,70,0,100",
            &[
                "\nreduced 12 8 4 3\ncount 8\nbound 8\n",
                "\nallowed 7\nstack 1 1 1 1 1 1 1\nend\n",
            ],
        ),
        (
            "\nEUR-400,1200,800,400,300,220,8000,1600,1000000,70,1,100",
            &["\nunmet\nrule contact together\nrule support alone\nend\n"],
        ),
    ];
    for (row, parts) in rows {
        assert!(rt; planned(&rt, rt.alloc(), row, parts)?);
    }
    Ok(())
}

#[test]
fn gaps(rt: HostRuntime) -> Result<(), Fail> {
    let rows: [(&str, &[&str]); 3] = [
        (
            ",gap\nA,5,5,2,2,1,10,1,1000,0,0,100,1",
            &[
                "\nreduced 2 2 1 1\ncount 4\nbound 4\n",
                "\nlayers 1\nlayer 1 same\n0 0 L\n3 0 L\n0 3 L\n3 3 L\n",
            ],
        ),
        (
            ",gap\nA,5,5,2,2,1,10,1,1000,0,0,100,2",
            &[
                "\nreduced 1 1 1 1\ncount 1\nbound 1\n",
                "\nlayers 4\nlayer 1 same\n0 0 L\nlayer 2 mirror-x\n3 0 L\nlayer 3 mirror-y\n0 3 L\nlayer 4 half-turn\n3 3 L\n",
            ],
        ),
        (
            ",gap\nA,5,5,2,2,1,10,2,1000,100,1,99,1",
            &["\nunmet\nrule contact together\nrule support alone\nrule cut alone\nend\n"],
        ),
    ];
    for (row, parts) in rows {
        assert!(rt; planned(&rt, rt.alloc(), row, parts)?);
    }
    Ok(())
}

// Orders whose layer neither the area nor the strips show to be the greatest: a table of weights does.
#[test]
fn tables(rt: HostRuntime) -> Result<(), Fail> {
    let rows = [
        (
            "\nT,12,11,7,2,1,1,1,1,0,0,100",
            "\ncount 8\nbound 8\nstatus optimal\n",
        ),
        (
            "\nT,19,12,7,2,1,1,1,1,0,0,100",
            "\ncount 14\nbound 14\nstatus optimal\n",
        ),
    ];
    for (row, counts) in rows {
        let parts = [
            counts,
            "\ncert weighted\nweighting lines ",
            "\ntree .\nlayers ",
        ];
        assert!(rt; planned(&rt, rt.alloc(), row, parts.as_slice())?);
    }
    Ok(())
}

#[test]
fn refused(rt: HostRuntime) -> Result<(), Fail> {
    let rows = [
        ("\nA,3,10,11,4,1,10,1,1000,0,0,100", "DoesNotFit"),
        ("\nA,1001,1,1,1,1,10,1,1000,0,0,100", "TooManyCases"),
        ("\nA,5,5,3,2,07,10,1,1000,0,0,100", "BadNumber case_z"),
        ("\nA,5,5,3,2,+7,10,1,1000,0,0,100", "BadNumber case_z"),
        ("\nA,5,5,3,2,,10,1,1000,0,0,100", "BadNumber case_z"),
        ("\nA,4001,5,3,2,1,10,1,1000,0,0,100", "OutOfRange pallet_x"),
        ("\nA,0,5,3,2,1,10,1,1000,0,0,100", "OutOfRange pallet_x"),
        ("\nA,5,5,3,2,1,10,1,1000,0,0", "FieldCount"),
        (
            ",gap\nA,3950,10,100,10,1,10,1,1000,0,0,100,51",
            "OutOfRange gap",
        ),
    ];
    for (row, fault) in rows {
        let alloc = rt.alloc();
        let ran = ran(&rt, alloc, "plan", &file(alloc, row)?)?;
        let wanted = format!(in alloc; "pallet-report 2\nentry 1\nrefused {fault}\nend\ndone 1\n")?;
        assert!(rt; ran.code == Code::Findings && ran.written.as_slice() == wanted.as_bytes());
    }
    Ok(())
}

// Equal ids, a quoted id with a comma, line ends of two bytes, and a byte order mark.
#[test]
fn records(rt: HostRuntime) -> Result<(), Fail> {
    let alloc = rt.alloc();
    let rows = file(
        alloc,
        "\r\nA,2,2,1,1,1,1,1,1,0,0,100\r\n\"A,1\",2,2,1,1,1,1,1,1,0,0,100\r\n\r\nA,2,2,1,1,1,1,1,1,0,0,100",
    )?;
    let mut marked = vec![in alloc; 0xEF, 0xBB, 0xBF]?;
    marked.extend_from_slice(&rows)?;
    let ran = ran(&rt, alloc, "plan", &marked)?;
    let Ok(text) = str::from_utf8(&ran.written) else {
        return Err("no text".into());
    };
    assert!(rt; ran.code == Code::Done);
    assert!(rt; text.contains("\nentry 1\nid A\n") && text.contains("\nentry 2\nid A,1\n"));
    assert!(rt; text.contains("\nentry 3\nid A\n") && text.ends_with("\ndone 3\n"));
    Ok(())
}
