use crate::strip;
use plan_geometry::{Inst, area_bound, case_fits};
use plan_memory::Memory;
use std::alloc::Global;
use std::test::Fail;
use weightings::{StripCert, StripCut};

// The certificate, where there is one to ask for.
fn certificate(alloc: Global, inst: Inst) -> Result<Option<StripCert>, Memory> {
    if !case_fits(inst) || 10000 < area_bound(inst) {
        return Ok(None);
    }
    let cert = strip(alloc, inst)?;
    Ok(Some(cert))
}

#[test]
fn lines_of_equal_sides(rt: HostRuntime) -> Result<(), Fail> {
    let inst = Inst::new(5, 5, 3, 3).ok_or("sides")?;
    let cert = certificate(rt.alloc(), inst)?.ok_or("fits")?;
    let cuts = cert.cuts();
    assert_eq!(rt; cuts.len(), 3);
    assert_eq!(rt; cuts[0], StripCut::X { a: 0, b: 1, q: 1 });
    assert_eq!(rt; cuts[1], StripCut::X { a: 1, b: 1, q: 1 });
    assert_eq!(rt; cuts[2], StripCut::X { a: 1, b: 0, q: 1 });
    Ok(())
}

#[test]
fn area_alone(rt: HostRuntime) -> Result<(), Fail> {
    let inst = Inst::new(6, 6, 4, 1).ok_or("sides")?;
    let cert = certificate(rt.alloc(), inst)?.ok_or("fits")?;
    let cuts = cert.cuts();
    assert_eq!(rt; cuts.len(), 11);
    for cut in cuts {
        assert_eq!(rt; *cut, StripCut::Area);
    }
    Ok(())
}

#[test]
fn fewer_than_by_area(rt: HostRuntime) -> Result<(), Fail> {
    let inst = Inst::new(9, 8, 5, 2).ok_or("sides")?;
    assert_eq!(rt; area_bound(inst), 7);
    let cert = certificate(rt.alloc(), inst)?.ok_or("fits")?;
    assert_eq!(rt; cert.cuts().len(), 8);
    Ok(())
}
