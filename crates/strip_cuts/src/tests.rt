use crate::{accepts_strip, greatest, is_true_cut, meets_cut};
use plan_geometry::{Axis, Inst};
use std::test::Fail;
use weightings::{StripCert, StripCut};

// Whether the pair meets the cut, where the cut is true.
fn met(inst: Inst, cut: StripCut, h: u32, v: u32) -> Option<bool> {
    if h <= 10001 && v <= 10001 && is_true_cut(inst, cut) {
        Some(meets_cut(inst, cut, h, v))
    } else {
        None
    }
}

#[test]
fn greatest_values(rt: HostRuntime) -> Result<(), Fail> {
    let inst = Inst::new(10, 7, 3, 2).ok_or("sides")?;
    assert_eq!(rt; greatest(inst, Axis::X, 1, 0), 3);
    assert_eq!(rt; greatest(inst, Axis::X, 3, 2), 10);
    assert_eq!(rt; greatest(inst, Axis::Y, 0, 1), 3);
    assert_eq!(rt; greatest(inst, Axis::Y, 5, 2), 10);
    Ok(())
}

#[test]
fn pairs(rt: HostRuntime) -> Result<(), Fail> {
    let inst = Inst::new(5, 4, 3, 1).ok_or("sides")?;
    assert_eq!(rt; met(inst, StripCut::Area, 4, 2), Some(true));
    assert_eq!(rt; met(inst, StripCut::Area, 4, 3), Some(false));
    let rows = StripCut::X { a: 1, b: 0, q: 1 };
    assert_eq!(rt; met(inst, rows, 4, 9), Some(true));
    assert_eq!(rt; met(inst, rows, 5, 0), Some(false));
    let columns = StripCut::Y { a: 1, b: 0, q: 1 };
    assert_eq!(rt; met(inst, columns, 9, 5), Some(true));
    assert_eq!(rt; met(inst, columns, 0, 6), Some(false));
    assert_eq!(rt; met(inst, StripCut::Y { a: 1, b: 0, q: 2 }, 0, 0), None);
    Ok(())
}

#[test]
fn certificates(rt: HostRuntime) -> Result<(), Fail> {
    let inst = Inst::new(5, 5, 3, 3).ok_or("sides")?;
    let mut cuts = Vec::new(rt.alloc());
    for (a, b) in [(0, 1), (1, 1), (1, 0)] {
        cuts.push(StripCut::X { a, b, q: 1 })?;
    }
    let cert = StripCert::new(cuts);
    assert!(rt; accepts_strip(inst, &cert, 1));
    assert!(rt; !accepts_strip(inst, &cert, 2));
    Ok(())
}
