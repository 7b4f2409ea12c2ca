use crate::{CertFault, Form, get_cert, is_in_range, put_cert};
use line_tables::LineTable;
use std::test::Fail;
use weightings::{Cert, Mark, Marks, StripCert, StripCut, WeightTable, Weighting};

// The line of the fault, or 0 where a certificate was got.
fn line_of(rt: &HostRuntime, bytes: &[u8], form: Form) -> u32 {
    match get_cert(rt.alloc(), bytes, form) {
        Err(CertFault::Line(line)) => line,
        Err(CertFault::Memory) => 1_000_000,
        Ok(_) => 0,
    }
}

#[test]
fn faults(rt: HostRuntime) {
    let two = Form::Two;
    assert_eq!(rt;
        line_of(
            &rt,
            b"cert weighted\nweighting area\ntree .\nlayers 1\n",
            two
        ),
        0
    );
    assert_eq!(rt;
        line_of(&rt, b"cert weighted\nweighting area\ntree \n", two),
        3
    );
    assert_eq!(rt;
        line_of(&rt, b"cert weighted\nweighting area \ntree .\n", two),
        2
    );
    assert_eq!(rt;
        line_of(&rt, b"cert weighted\nweighting colour 4 4\ntree .\n", two),
        2
    );
    assert_eq!(rt;
        line_of(&rt, b"cert weighted\nweighting colour 4 03\ntree .\n", two),
        2
    );
    assert_eq!(rt; line_of(&rt, b"cert weighted", two), 1);
    assert_eq!(rt; line_of(&rt, b"", two), 1);
    assert_eq!(rt; line_of(&rt, b"cert strip 402\n", Form::One), 2);
    assert_eq!(rt; line_of(&rt, b"cert strip 403\n", Form::One), 1);
    assert_eq!(rt; line_of(&rt, b"cert strip 1002\n", two), 2);
    assert_eq!(rt; line_of(&rt, b"cert strip 1003\n", two), 1);
    assert_eq!(rt; line_of(&rt, b"cert given-area\r\n", two), 1);
}

#[test]
fn cuts(rt: HostRuntime) {
    let two = Form::Two;
    assert_eq!(rt; line_of(&rt, b"cert strip 2\ncut 0 area\n", two), 3);
    assert_eq!(rt;
        line_of(&rt, b"cert strip 2\ncut 0 area\ncut 2 area\n", two),
        3
    );
    assert_eq!(rt;
        line_of(
            &rt,
            b"cert strip 2\ncut 0 area\ncut 1 x 4000 0 9999999999\n",
            two
        ),
        0
    );
}

#[test]
fn table_lines(rt: HostRuntime) {
    let two = Form::Two;
    let table = b"cert weighted\nweighting table 2 2\nrow 1 100000\nrow 0 2\ntree B.\n".as_slice();
    assert_eq!(rt; line_of(&rt, table, two), 0);
    assert_eq!(rt; line_of(&rt, table, Form::One), 2);
    assert_eq!(rt;
        line_of(
            &rt,
            b"cert weighted\nweighting table 2 2\nrow 1 1\nrow 1\ntree .\n",
            two
        ),
        4
    );
    assert_eq!(rt;
        line_of(
            &rt,
            b"cert weighted\nweighting table 2 2\nrow 1 100001\nrow 0 2\n",
            two
        ),
        3
    );
    assert_eq!(rt;
        line_of(&rt, b"cert weighted\nweighting table 2 0\n", two),
        2
    );
    assert_eq!(rt;
        line_of(&rt, b"cert weighted\nweighting table 4000 11\n", two),
        2
    );
}

#[test]
fn large_tree(rt: HostRuntime) -> Result<(), Fail> {
    let mut marks = Vec::new(rt.alloc());
    for k in 0..500_000 {
        marks.push(if k % 2 == 0 { Mark::Branch } else { Mark::Leaf })?;
    }
    let cert = Cert::Weighted {
        weighting: Weighting::Colour { k: 4, c: 3 },
        tree: Marks::new(marks),
    };
    let mut out = Vec::new(rt.alloc());
    assert!(rt; is_in_range(&cert, Form::Two));
    put_cert(&mut out, &cert)?;
    assert_eq!(rt; out.len(), 14 + 21 + 5 + 500_000 + 1);
    let (_, len) = get_cert(rt.alloc(), &out, Form::One)?;
    assert_eq!(rt; len, out.len());
    Ok(())
}

#[test]
fn texts(rt: HostRuntime) -> Result<(), Fail> {
    let cells = Vec::from_slice(rt.alloc(), [1, 2, 3, 0, 0, 100_000].as_slice())?;
    let table = WeightTable::new(3, 2, cells).ok_or("table")?;
    let marks = Vec::from_slice(rt.alloc(), [Mark::Leaf].as_slice())?;
    let cert = Cert::Weighted {
        weighting: Weighting::Table(table),
        tree: Marks::new(marks),
    };
    let mut out = Vec::new(rt.alloc());
    assert!(rt; !is_in_range(&cert, Form::One));
    assert!(rt; is_in_range(&cert, Form::Two));
    put_cert(&mut out, &cert)?;
    assert_eq!(rt;
        out.as_slice(),
        b"cert weighted\nweighting table 3 2\nrow 1 2 3\nrow 0 0 100000\ntree .\n".as_slice()
    );
    let cut = StripCut::Y { a: 1, b: 0, q: 7 };
    let cuts = Vec::from_slice(rt.alloc(), [StripCut::Area, cut].as_slice())?;
    let strip = Cert::Strip(StripCert::new(cuts));
    let mut out = Vec::new(rt.alloc());
    assert!(rt; is_in_range(&strip, Form::Two));
    put_cert(&mut out, &strip)?;
    assert_eq!(rt;
        out.as_slice(),
        b"cert strip 2\ncut 0 area\ncut 1 y 1 0 7\n".as_slice()
    );
    Ok(())
}

// Whether the table of these columns, rows and weights has this text, which is read, and in today's form alone.
fn has_text(rt: &HostRuntime, lines: (&[u32], &[u32], &[u32]), text: &[u8]) -> Result<bool, Fail> {
    let alloc = rt.alloc();
    let columns = Vec::from_slice(alloc, lines.0)?;
    let rows = Vec::from_slice(alloc, lines.1)?;
    let quarter = Vec::from_slice(alloc, lines.2)?;
    let table = LineTable::new(alloc, columns, rows, quarter)?.ok_or("table")?;
    let marks = Vec::from_slice(alloc, [Mark::Leaf].as_slice())?;
    let cert = Cert::Weighted {
        weighting: Weighting::Lines(table),
        tree: Marks::new(marks),
    };
    if is_in_range(&cert, Form::One) || !is_in_range(&cert, Form::Two) {
        return Ok(false);
    }
    let mut out = Vec::new(alloc);
    put_cert(&mut out, &cert)?;
    let (_, len) = get_cert(alloc, text, Form::Two)?;
    Ok(out.as_slice() == text && len == text.len())
}

#[test]
fn tables_on_lines(rt: HostRuntime) -> Result<(), Fail> {
    // On 5 by 5 with a case of 3 by 3.
    let middle = has_text(
        &rt,
        ([2].as_slice(), [2].as_slice(), [1].as_slice()),
        b"cert weighted\nweighting lines 1 1\ncolumns 2\nrows 2\nrow 1\ntree .\n",
    )?;
    assert!(rt; middle);
    let uneven = has_text(
        &rt,
        (
            [0, 7, 3999].as_slice(),
            [4, 5].as_slice(),
            [0, 100_000].as_slice(),
        ),
        b"cert weighted\nweighting lines 3 2\ncolumns 0 7 3999\nrows 4 5\nrow 0 100000\ntree .\n",
    )?;
    assert!(rt; uneven);
    // On 7 by 7 with a case of 4 by 2.
    let odd = has_text(
        &rt,
        (
            [1, 3, 5].as_slice(),
            [1, 3, 5].as_slice(),
            [0, 1, 1, 0].as_slice(),
        ),
        b"cert weighted\nweighting lines 3 3\ncolumns 1 3 5\nrows 1 3 5\nrow 0 1\nrow 1 0\ntree .\n",
    )?;
    assert!(rt; odd);
    Ok(())
}

// The line of the fault in the text of a certificate with these lines of a table, or 0.
fn table_line_of(rt: &HostRuntime, table: &[u8], form: Form) -> Result<u32, Fail> {
    let mut text = Vec::from_slice(rt.alloc(), b"cert weighted\nweighting lines ".as_slice())?;
    text.extend_from_slice(table)?;
    text.extend_from_slice(b"\ntree .\n")?;
    Ok(line_of(rt, text.as_slice(), form))
}

#[test]
fn faults_of_counts(rt: HostRuntime) -> Result<(), Fail> {
    let two = Form::Two;
    let table = b"1 1\ncolumns 2\nrows 2\nrow 1".as_slice();
    assert_eq!(rt; table_line_of(&rt, table, two)?, 0);
    assert_eq!(rt; table_line_of(&rt, table, Form::One)?, 2);
    assert_eq!(rt; table_line_of(&rt, b"0 1", two)?, 2);
    assert_eq!(rt; table_line_of(&rt, b"1 4001", two)?, 2);
    // 200 by 200 crossings, and 201 by 200.
    assert_eq!(rt; table_line_of(&rt, b"400 399", two)?, 3);
    assert_eq!(rt; table_line_of(&rt, b"401 399", two)?, 2);
    // 13 by 3077 crossings are 40001.
    assert_eq!(rt; table_line_of(&rt, b"25 6153", two)?, 2);
    Ok(())
}

#[test]
fn faults_of_lines(rt: HostRuntime) -> Result<(), Fail> {
    let two = Form::Two;
    assert_eq!(rt;
        table_line_of(&rt, b"2 1\ncolumns 2 2\nrows 2\nrow 1", two)?,
        3
    );
    assert_eq!(rt;
        table_line_of(&rt, b"2 1\ncolumns 3 2\nrows 2\nrow 1", two)?,
        3
    );
    assert_eq!(rt;
        table_line_of(&rt, b"2 1\ncolumns 3 4000\nrows 2\nrow 1", two)?,
        3
    );
    assert_eq!(rt;
        table_line_of(&rt, b"2 1\ncolumns 3\nrows 2\nrow 1", two)?,
        3
    );
    assert_eq!(rt;
        table_line_of(&rt, b"2 1\ncolumns 3 4 5\nrows 2\nrow 1", two)?,
        3
    );
    assert_eq!(rt;
        table_line_of(&rt, b"2 1\nrows 3 4\nrows 2\nrow 1", two)?,
        3
    );
    assert_eq!(rt;
        table_line_of(&rt, b"2 1\ncolumns 3 4\nrows 2 3\nrow 1", two)?,
        4
    );
    assert_eq!(rt;
        table_line_of(&rt, b"2 1\ncolumns 3 4\nrows 2\nrow 1 1", two)?,
        5
    );
    assert_eq!(rt;
        table_line_of(&rt, b"2 1\ncolumns 3 4\nrows 2\nrow 100001", two)?,
        5
    );
    assert_eq!(rt;
        table_line_of(&rt, b"2 2\ncolumns 3 4\nrows 2 3\nrow 1\nrow 1", two)?,
        6
    );
    assert_eq!(rt;
        table_line_of(&rt, b"2 3\ncolumns 3 4\nrows 2 3 4\nrow 1", two)?,
        6
    );
    Ok(())
}
