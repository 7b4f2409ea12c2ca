ghost use Rattle.std.specs.Prelude.{IsTrue};
ghost use Rattle.bound_checker.specs.Accepts.{HasFewMarks};

use crate::check_bound;
use plan_geometry::{Inst, case_fits};
use plan_memory::Memory;
use std::alloc::Global;
use std::test::Fail;
use weightings::{Cert, Mark, Marks, StripCert, StripCut, WeightTable, Weighting};

// An instance of these four numbers.
fn inst(numbers: [u32; 4]) -> Result<Inst, Fail> {
    let [l_side, w_side, long, short] = numbers;
    let inst = Inst::new(l_side, w_side, long, short).ok_or("sides")?;
    Ok(inst)
}

// Whether the tree of the certificate is small enough to be read.
fn has_few_marks(cert: &Cert) -> bool
    ensures { IsTrue result → HasFewMarks cert.now }
{
    match *cert {
        Cert::Weighted { ref tree, .. } => tree.as_slice().len() <= 500000,
        Cert::Strip(_) => true,
        Cert::GivenArea => true,
    }
}

// What the checker says of the certificate, where it can be asked.
fn says(
    alloc: Global,
    given: Inst,
    reduced: Inst,
    cert: &Cert,
    n: u32,
) -> Result<Option<bool>, Memory> {
    if !case_fits(given) || 1000 < n || !has_few_marks(cert) {
        return Ok(None);
    }
    let answer = check_bound(alloc, given, reduced, cert, n)?;
    Ok(Some(answer))
}

// A weighting with the marks that these letters stand for.
fn weighted(alloc: Global, weighting: Weighting, letters: &[u8]) -> Result<Cert, Memory> {
    let mut marks = Vec::new(alloc);
    for letter in letters {
        marks.push(if *letter == b'B' {
            Mark::Branch
        } else {
            Mark::Leaf
        })?;
    }
    Ok(Cert::Weighted {
        weighting,
        tree: Marks::new(marks),
    })
}

// The lines of three pairs along x, with the second one's number as it is written.
fn strip(alloc: Global, second: u64) -> Result<Cert, Memory> {
    let mut cuts = Vec::new(alloc);
    cuts.push(StripCut::X { a: 0, b: 1, q: 1 })?;
    cuts.push(StripCut::X {
        a: 1,
        b: 1,
        q: second,
    })?;
    cuts.push(StripCut::X { a: 1, b: 0, q: 1 })?;
    Ok(Cert::Strip(StripCert::new(cuts)))
}

// A table for five by five cells with this weight in the middle, with a single leaf.
fn table(alloc: Global, weight: u32) -> Result<Option<Cert>, Memory> {
    let weights = [
        1, 1, 1, 0, 0, 0, 0, 1, 0, 0, 0, 0, weight, 0, 0, 0, 0, 0, 0, 0, 0, 0, 0, 0, 0,
    ];
    let cells = Vec::from_slice(alloc, weights.as_slice())?;
    match WeightTable::new(5, 5, cells) {
        Some(table) => {
            let cert = weighted(alloc, Weighting::Table(table), b".")?;
            Ok(Some(cert))
        }
        None => Ok(None),
    }
}

#[test]
fn strips_and_areas(rt: HostRuntime) -> Result<(), Fail> {
    let a = rt.alloc();
    let i = inst([5, 5, 3, 3])?;
    let cert = strip(a, 1)?;
    assert_eq!(rt; says(a, i, i, &cert, 1)?, Some(true));
    assert_eq!(rt; says(a, i, i, &cert, 2)?, Some(false));
    let other = strip(a, 2)?;
    assert_eq!(rt; says(a, i, i, &other, 1)?, Some(false));
    assert_eq!(rt; says(a, i, i, &Cert::GivenArea, 2)?, Some(true));
    assert_eq!(rt; says(a, i, i, &Cert::GivenArea, 1)?, Some(false));
    Ok(())
}

#[test]
fn trees(rt: HostRuntime) -> Result<(), Fail> {
    let a = rt.alloc();
    let four = inst([5, 5, 3, 2])?;
    let leaf = weighted(a, Weighting::Area, b".")?;
    assert_eq!(rt; says(a, four, four, &leaf, 4)?, Some(true));
    assert_eq!(rt; says(a, four, four, &leaf, 3)?, Some(false));
    let one = inst([5, 5, 3, 3])?;
    let tree = weighted(a, Weighting::Area, b"BBB..")?;
    let short = weighted(a, Weighting::Area, b"BBB.")?;
    let long = weighted(a, Weighting::Area, b"BBB...")?;
    assert_eq!(rt; says(a, one, one, &tree, 1)?, Some(true));
    assert_eq!(rt; says(a, one, one, &short, 1)?, Some(false));
    assert_eq!(rt; says(a, one, one, &long, 1)?, Some(false));
    Ok(())
}

#[test]
fn tables(rt: HostRuntime) -> Result<(), Fail> {
    let a = rt.alloc();
    let i = inst([5, 5, 3, 3])?;
    let heavy = table(a, 5)?.ok_or("table")?;
    let light = table(a, 4)?.ok_or("table")?;
    assert_eq!(rt; says(a, i, i, &heavy, 1)?, Some(true));
    assert_eq!(rt; says(a, i, i, &light, 1)?, Some(false));
    Ok(())
}

#[test]
fn reduced_instances(rt: HostRuntime) -> Result<(), Fail> {
    let a = rt.alloc();
    let leaf = weighted(a, Weighting::Area, b".")?;
    let one = inst([1, 1, 1, 1])?;
    assert_eq!(rt; says(a, inst([5, 5, 3, 3])?, one, &leaf, 1)?, Some(true));
    let given = inst([5, 5, 3, 2])?;
    let other = inst([5, 4, 3, 2])?;
    assert_eq!(rt; says(a, given, other, &leaf, 4)?, Some(false));
    assert_eq!(rt; says(a, given, other, &Cert::GivenArea, 4)?, Some(false));
    Ok(())
}
