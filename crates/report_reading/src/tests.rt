use crate::{bad_report, entries_of, next_entry, plain, read_bytes};
use plan_io::MemSource;
use run_parts::{Answer, Code};
use std::test::Fail;

// A refused row, and a plan of one case.
static TWO: &[u8] = b"\
    pallet-report 2\n\
    entry 1\n\
    refused DoesNotFit\n\
    end\n\
    entry 2\n\
    id B\n\
    order 5 5 3 3 1 1 1 1 0 0 100 0\n\
    reduced 1 1 1 1\n\
    count 1\n\
    bound 2\n\
    status open\n\
    cert given-area\n\
    layers 1\n\
    layer 1 same\n\
    0 0 L\n\
    allowed 1\n\
    stack 1\n\
    end\n\
    done 2\n";

// The entries come one after another, and then none.
#[test]
fn entries(rt: HostRuntime) -> Result<(), Fail> {
    let alloc = rt.alloc();
    let mut source = MemSource::new(TWO.to_vec(alloc)?, 50, Vec::new(alloc));
    let Ok(bytes) = read_bytes(alloc, &mut source) else {
        return Err("not read".into());
    };
    assert!(rt; bytes.as_slice() == TWO);
    let Ok(mut entries) = entries_of(alloc, &bytes) else {
        return Err("no report".into());
    };
    assert_eq!(rt; entries.left(), 2);
    let Ok(Some(first)) = next_entry(alloc, &mut entries) else {
        return Err("no first entry".into());
    };
    assert!(rt; first.is_refused() && first.number() == 1);
    let Ok(Some(second)) = next_entry(alloc, &mut entries) else {
        return Err("no second entry".into());
    };
    assert!(rt; !second.is_refused() && second.number() == 2);
    assert!(rt; matches!(next_entry(alloc, &mut entries), Ok(None)));
    Ok(())
}

// What is no report is told by its line, and a read that fails by its code.
#[test]
fn none(rt: HostRuntime) -> Result<(), Fail> {
    let alloc = rt.alloc();
    for (text, line) in [
        (b"".as_slice(), 1),
        (b"pallet-report 3\n".as_slice(), 1),
        (b"pallet-report 2\ndone 1\n".as_slice(), 2),
    ] {
        let answer = entries_of(alloc, text).err();
        assert_eq!(rt; answer, Some(bad_report(line)));
        assert_eq!(rt;
            answer,
            Some(Answer {
                code: Code::BadReport,
                line
            })
        );
    }
    let mut source = MemSource::new(TWO.to_vec(alloc)?, 50, vec![in alloc; 3]?);
    let answer = read_bytes(alloc, &mut source).err();
    assert_eq!(rt; answer, Some(plain(Code::ReadFault)));
    Ok(())
}
