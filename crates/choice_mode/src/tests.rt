use crate::{check_choice, choose};
use plan_io::{MemSink, MemSource};
use run_parts::{Answer, Code};
use std::alloc::Global;
use std::test::Fail;

const HEADER: &str =
    "id,pallet_x,pallet_y,case_x,case_y,case_z,weight,max_height,max_weight,contact,support,cut\n";

// A layer of four cases, one of eight, and a case that is wider than the pallet.
const FOUR: &str = "A,5,5,3,2,1,1,1,100,0,0,100\n";

const EIGHT: &str = "B,6,6,4,1,1,1,1,100,0,0,100\n";

const REFUSED: &str = "C,3,10,11,4,1,1,1,100,0,0,100\n";

// The header, and these rows.
fn file_of(alloc: Global, rows: &[&str]) -> Result<Vec<u8>, Fail> {
    let mut file = HEADER.as_bytes().to_vec(alloc)?;
    for row in rows {
        file.extend_from_slice(row.as_bytes())?;
    }
    Ok(file)
}

// More bytes than any text here has.
const ROOM: usize = 10_000;

// The code of a run of `choose` over a file, and what it wrote. The sink has room for so many bytes, and fails at the calls
// of these numbers.
fn chosen(
    alloc: Global,
    file: Vec<u8>,
    room: usize,
    failing: Vec<u64>,
) -> Result<(Code, Vec<u8>), Fail> {
    let mut source = MemSource::new(file, 50, Vec::new(alloc));
    let mut sink = MemSink::new(alloc, room, 64, failing)?;
    let code = choose(alloc, &mut source, &mut sink);
    Ok((code, sink.written().to_vec(alloc)?))
}

#[test]
fn chosen_rows(rt: HostRuntime) -> Result<(), Fail> {
    let alloc = rt.alloc();
    let file = file_of(alloc, [FOUR, EIGHT, REFUSED].as_slice())?;
    let (code, written) = chosen(alloc, file, ROOM, Vec::new(alloc))?;
    assert!(rt; code == Code::Findings);
    assert!(rt; written.starts_with(b"pallet-choice 1\nentry 1\nid A\n".as_slice()));
    assert!(rt;
        written.ends_with(
            b"end\nentry 3\nrefused DoesNotFit\nend\nchosen 2 count 8\ndone 3\n".as_slice()
        )
    );
    let file = file_of(alloc, [FOUR, FOUR].as_slice())?;
    let (code, written) = chosen(alloc, file, ROOM, Vec::new(alloc))?;
    assert!(rt; code == Code::Done);
    assert!(rt; written.ends_with(b"\nend\nchosen 1 count 4\ndone 2\n".as_slice()));
    Ok(())
}

#[test]
fn none_chosen(rt: HostRuntime) -> Result<(), Fail> {
    let alloc = rt.alloc();
    let file = file_of(alloc, [REFUSED].as_slice())?;
    let (code, written) = chosen(alloc, file, ROOM, Vec::new(alloc))?;
    assert!(rt; code == Code::Findings);
    assert_eq!(rt;
        written.as_slice(),
        b"pallet-choice 1\nentry 1\nrefused DoesNotFit\nend\nchosen none\ndone 1\n".as_slice()
    );
    let file = file_of(alloc, [].as_slice())?;
    let (code, written) = chosen(alloc, file, ROOM, Vec::new(alloc))?;
    assert!(rt; code == Code::Done);
    assert_eq!(rt;
        written.as_slice(),
        b"pallet-choice 1\nchosen none\ndone 0\n".as_slice()
    );
    Ok(())
}

#[test]
fn no_rows(rt: HostRuntime) -> Result<(), Fail> {
    let alloc = rt.alloc();
    let (code, written) = chosen(alloc, Vec::new(alloc), ROOM, Vec::new(alloc))?;
    assert!(rt; code == Code::NoHeader && written.is_empty());
    let many = file_of(alloc, [REFUSED; 257].as_slice())?;
    let (code, written) = chosen(alloc, many, ROOM, Vec::new(alloc))?;
    assert!(rt; code == Code::TooManyRows && written.is_empty());
    let long = vec![in alloc; b'A'; 262_145]?;
    let (code, written) = chosen(alloc, long, ROOM, Vec::new(alloc))?;
    assert!(rt; code == Code::TooLong && written.is_empty());
    Ok(())
}

// The first line, an entry and the end are a piece each: of calls that take all that they are given the third is the last.
#[test]
fn pieces_of_choices(rt: HostRuntime) -> Result<(), Fail> {
    let alloc = rt.alloc();
    let wanted = [
        b"".as_slice(),
        b"pallet-choice 1\n".as_slice(),
        b"pallet-choice 1\nentry 1\nrefused DoesNotFit\nend\n".as_slice(),
    ];
    for (place, text) in wanted.iter().enumerate() {
        let failing = vec![in alloc; place as u64 + 1]?;
        let file = file_of(alloc, [REFUSED].as_slice())?;
        let (code, written) = chosen(alloc, file, ROOM, failing)?;
        assert!(rt; code == Code::WriteFault);
        assert_eq!(rt; written.as_slice(), *text);
    }
    let file = file_of(alloc, [REFUSED].as_slice())?;
    let (code, _) = chosen(alloc, file, ROOM, vec![in alloc; 4]?)?;
    assert!(rt; code == Code::Findings);
    Ok(())
}

#[test]
fn short_rooms(rt: HostRuntime) -> Result<(), Fail> {
    let alloc = rt.alloc();
    let file = file_of(alloc, [REFUSED].as_slice())?;
    let (code, written) = chosen(alloc, file, 20, Vec::new(alloc))?;
    assert!(rt; code == Code::WriteFault);
    assert_eq!(rt; written.as_slice(), b"pallet-choice 1\nentr".as_slice());
    let file = file_of(alloc, [REFUSED].as_slice())?;
    let (code, written) = chosen(alloc, file, 59, Vec::new(alloc))?;
    assert!(rt; code == Code::WriteFault);
    assert_eq!(rt;
        written.as_slice(),
        b"pallet-choice 1\nentry 1\nrefused DoesNotFit\nend\nchosen none\n".as_slice()
    );
    Ok(())
}

// The whole plan of the first row.
const FIRST: &str =
    "pallet-choice 1\nentry 1\nid A\norder 5 5 3 2 1 1 1 100 0 0 100 0\nreduced 5 5 3 2\ncount 4\nbound 4\nstatus optimal\ncert weighted\nweighting area\ntree .\nlayers 2\nlayer 1 same\n0 0 L\n3 0 S\n0 2 S\n2 3 L\nlayer 2 mirror-x\n0 0 S\n2 0 L\n3 2 S\n0 3 L\nallowed 1\nstack 1\nend\n";

// The plan of the second row but for its bound: eight cases around a hole of two by two.
const SECOND: &str = "entry 2\nid B\norder 6 6 4 1 1 1 1 100 0 0 100 0\nreduced 6 6 4 1\ncount 8\n";

const LAYERS: &str =
    "tree .\nlayers 2\nlayer 1 same\n0 0 L\n4 0 S\n5 0 S\n0 1 L\n0 2 S\n1 2 S\n2 4 L\n2 5 L\nlayer 2 mirror-x\n0 0 S\n1 0 S\n2 0 L\n2 1 L\n4 2 S\n5 2 S\n0 4 L\n0 5 L\nallowed 1\nstack 1\nend\n";

// Eight cells are of the last of four colours, and each case covers one of each colour.
const BOUND_8: &str = "bound 8\nstatus optimal\ncert weighted\nweighting colour 4 3\n";

// The area of 36 has nine cases of four at most.
const BOUND_9: &str = "bound 9\nstatus open\ncert weighted\nweighting area\n";

// No certificate shows so low a bound.
const BOUND_7: &str = "bound 7\nstatus open\ncert weighted\nweighting area\n";

const THIRD: &str = "entry 3\nrefused DoesNotFit\nend\n";

// The text of a choice among the three, with this bound of the second.
fn text_of(alloc: Global, bound: &str, tail: &str) -> Result<Vec<u8>, Fail> {
    let mut text = FIRST.as_bytes().to_vec(alloc)?;
    for part in [SECOND, bound, LAYERS, THIRD, tail, "done 3\n"] {
        text.extend_from_slice(part.as_bytes())?;
    }
    Ok(text)
}

// The answer of a run of `check_choice` over a text, and what it wrote. The sink fails at the calls of these numbers.
fn judged(alloc: Global, text: Vec<u8>, failing: Vec<u64>) -> Result<(Answer, Vec<u8>), Fail> {
    let mut source = MemSource::new(text, 100, Vec::new(alloc));
    let mut sink = MemSink::new(alloc, 1000, 64, failing)?;
    let answer = check_choice(alloc, &mut source, &mut sink);
    Ok((answer, sink.written().to_vec(alloc)?))
}

static ALL_YES: &[u8] = b"entry 1 yes\nentry 2 yes\nentry 3 refused\nchoice yes\ndone 3\n";

static CHOICE_NO: &[u8] = b"entry 1 yes\nentry 2 yes\nentry 3 refused\nchoice no\ndone 3\n";

#[test]
fn right_choices(rt: HostRuntime) -> Result<(), Fail> {
    let alloc = rt.alloc();
    let right = [
        (BOUND_8, "chosen 2 count 8\n"),
        (BOUND_9, "chosen 2 count 8\nrival 2 bound 9\n"),
    ];
    for (bound, tail) in right {
        let text = text_of(alloc, bound, tail)?;
        let (answer, written) = judged(alloc, text, Vec::new(alloc))?;
        assert!(rt; answer.code == Code::Done && answer.line == 0);
        assert_eq!(rt; written.as_slice(), ALL_YES);
    }
    let refused = b"pallet-choice 1\nentry 1\nrefused BadId\nend\nchosen none\ndone 1\n";
    let text = refused.as_slice().to_vec(alloc)?;
    let (answer, written) = judged(alloc, text, Vec::new(alloc))?;
    assert!(rt; answer.code == Code::Done);
    assert_eq!(rt;
        written.as_slice(),
        b"entry 1 refused\nchoice yes\ndone 1\n".as_slice()
    );
    Ok(())
}

#[test]
fn wrong_choices(rt: HostRuntime) -> Result<(), Fail> {
    let alloc = rt.alloc();
    let wrong = [
        // A rival is left out, or is none, or has another bound.
        (BOUND_9, "chosen 2 count 8\n"),
        (BOUND_8, "chosen 2 count 8\nrival 2 bound 9\n"),
        (BOUND_9, "chosen 2 count 8\nrival 2 bound 10\n"),
        // Another is chosen, or one that is not there, or none, or with another count.
        (BOUND_8, "chosen 1 count 8\n"),
        (BOUND_8, "chosen 4 count 8\n"),
        (BOUND_8, "chosen none\n"),
        (BOUND_8, "chosen 2 count 9\n"),
    ];
    for (bound, tail) in wrong {
        let text = text_of(alloc, bound, tail)?;
        let (answer, written) = judged(alloc, text, Vec::new(alloc))?;
        assert!(rt; answer.code == Code::Findings && answer.line == 0);
        assert_eq!(rt; written.as_slice(), CHOICE_NO);
    }
    // The choice would be right of entries that are.
    let text = text_of(alloc, BOUND_7, "chosen 2 count 8\n")?;
    let (answer, written) = judged(alloc, text, Vec::new(alloc))?;
    assert!(rt; answer.code == Code::Findings);
    assert_eq!(rt;
        written.as_slice(),
        b"entry 1 yes\nentry 2 no bound 0\nentry 3 refused\nchoice no\ndone 3\n".as_slice()
    );
    Ok(())
}

#[test]
fn no_choices(rt: HostRuntime) -> Result<(), Fail> {
    let alloc = rt.alloc();
    let texts = [
        (b"".as_slice(), 1),
        (b"pallet-report 2\ndone 0\n".as_slice(), 1),
        (b"pallet-choice 1\ndone 0\n".as_slice(), 2),
        (b"pallet-choice 1\nchosen none\n".as_slice(), 3),
        (b"pallet-choice 1\nchosen none\ndone 0\n\n".as_slice(), 4),
    ];
    for (text, line) in texts {
        let (answer, written) = judged(alloc, text.to_vec(alloc)?, Vec::new(alloc))?;
        assert!(rt; answer.code == Code::BadReport && answer.line == line);
        assert!(rt; written.is_empty());
    }
    Ok(())
}

// Each verdict and the end are a piece each.
#[test]
fn pieces_of_judgements(rt: HostRuntime) -> Result<(), Fail> {
    let alloc = rt.alloc();
    let wanted = [
        b"".as_slice(),
        b"entry 1 yes\n".as_slice(),
        b"entry 1 yes\nentry 2 yes\n".as_slice(),
        b"entry 1 yes\nentry 2 yes\nentry 3 refused\n".as_slice(),
    ];
    for (place, lines) in wanted.iter().enumerate() {
        let failing = vec![in alloc; place as u64 + 1]?;
        let text = text_of(alloc, BOUND_8, "chosen 2 count 8\n")?;
        let (answer, written) = judged(alloc, text, failing)?;
        assert!(rt; answer.code == Code::WriteFault && answer.line == 0);
        assert_eq!(rt; written.as_slice(), *lines);
    }
    let text = text_of(alloc, BOUND_8, "chosen 2 count 8\n")?;
    let (answer, _) = judged(alloc, text, vec![in alloc; 5]?)?;
    assert!(rt; answer.code == Code::Done);
    Ok(())
}

#[test]
fn choices_are_judged_right(rt: HostRuntime) -> Result<(), Fail> {
    let alloc = rt.alloc();
    let file = file_of(alloc, [FOUR, EIGHT, REFUSED].as_slice())?;
    let (_, text) = chosen(alloc, file, ROOM, Vec::new(alloc))?;
    let (answer, written) = judged(alloc, text, Vec::new(alloc))?;
    assert!(rt; answer.code == Code::Done);
    assert_eq!(rt; written.as_slice(), ALL_YES);
    Ok(())
}
