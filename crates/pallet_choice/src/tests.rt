use crate::{Choice, Score, Tail, TailFault, choose, get_choice, put_choice, tail_from};
use std::alloc::Global;
use std::test::Fail;
use texts::Stop;

fn score(number: u32, count: u32, bound: u32) -> Score {
    Score {
        number,
        count,
        bound,
    }
}

// The text of the choice among entries.
fn choice_text(alloc: Global, scores: &[Score]) -> Result<Vec<u8>, Fail> {
    let choice = choose(alloc, scores)?;
    let mut out = Vec::new(alloc);
    put_choice(&mut out, &choice)?;
    Ok(out)
}

#[test]
fn chosen_entries(rt: HostRuntime) -> Result<(), Fail> {
    let choice = choose(rt.alloc(), [score(1, 4, 4), score(2, 8, 8)].as_slice())?;
    assert!(rt; choice.chosen == Some(score(2, 8, 8)));
    assert_eq!(rt; choice.rivals.len(), 0);
    let alike = [
        score(1, 8, 8),
        score(3, 8, 9),
        score(4, 7, 10),
        score(6, 8, 8),
    ];
    let choice = choose(rt.alloc(), alike.as_slice())?;
    assert!(rt; choice.chosen == Some(score(1, 8, 8)));
    assert!(rt; choice.rivals.as_slice() == [score(3, 8, 9), score(4, 7, 10)].as_slice());
    let choice = choose(rt.alloc(), [].as_slice())?;
    assert!(rt; choice.chosen.is_none());
    assert_eq!(rt; choice.rivals.len(), 0);
    Ok(())
}

#[test]
fn texts_of_choices(rt: HostRuntime) -> Result<(), Fail> {
    let alloc = rt.alloc();
    let text = choice_text(alloc, [score(1, 4, 4), score(2, 8, 8)].as_slice())?;
    assert_eq!(rt; text.as_slice(), b"chosen 2 count 8\n".as_slice());
    let text = choice_text(alloc, [score(1, 4, 4), score(2, 8, 9)].as_slice())?;
    assert_eq!(rt;
        text.as_slice(),
        b"chosen 2 count 8\nrival 2 bound 9\n".as_slice()
    );
    let all = [
        score(1, 900, 1_000),
        score(17, 999, 999),
        score(256, 1, 1_000),
    ];
    let text = choice_text(alloc, all.as_slice())?;
    assert_eq!(rt;
        text.as_slice(),
        b"chosen 17 count 999\nrival 1 bound 1000\nrival 256 bound 1000\n".as_slice()
    );
    let text = choice_text(alloc, [].as_slice())?;
    assert_eq!(rt; text.as_slice(), b"chosen none\n".as_slice());
    Ok(())
}

#[test]
fn appended(rt: HostRuntime) -> Result<(), Fail> {
    let mut out = Vec::from_slice(rt.alloc(), b"entry 1\n".as_slice())?;
    let choice = Choice {
        chosen: Some(score(3, 10, 12)),
        rivals: Vec::from_slice(rt.alloc(), [score(3, 10, 12)].as_slice())?,
    };
    put_choice(&mut out, &choice)?;
    assert_eq!(rt;
        out.as_slice(),
        b"entry 1\nchosen 3 count 10\nrival 3 bound 12\n".as_slice()
    );
    Ok(())
}

// The length of the tail in front, or 0 where there is none.
fn tail_len(alloc: Global, bytes: &[u8]) -> usize {
    match get_choice(alloc, bytes) {
        Ok((_, len)) => len,
        Err(TailFault::NoTail) => 0,
        Err(TailFault::Memory) => 1_000_000,
    }
}

#[test]
fn tails(rt: HostRuntime) -> Result<(), Fail> {
    let text = b"chosen 2 count 8\nrival 1 bound 1000\nrival 256 bound 9\ndone 2\n".as_slice();
    let (tail, len) = get_choice(rt.alloc(), text)?;
    assert!(rt; tail.chosen == Some((2, 8)));
    assert!(rt; tail.rivals.as_slice() == [(1, 1_000), (256, 9)].as_slice());
    assert_eq!(rt; len, 17 + 19 + 18);
    let (none, len) = get_choice(rt.alloc(), b"chosen none\n")?;
    assert!(rt; none.chosen.is_none());
    assert_eq!(rt; none.rivals.len(), 0);
    assert_eq!(rt; len, 12);
    Ok(())
}

// Texts in which only the first line, of 17 bytes, is of the tail: the next is cut off, out of range, or spelled
// otherwise.
const OTHER_RIVALS: [&[u8]; 12] = [
    b"chosen 2 count 8\nrival 3 bound 9",
    b"chosen 2 count 8\nrival 3 bo",
    b"chosen 2 count 8\nrival 0 bound 9\n",
    b"chosen 2 count 8\nrival 257 bound 9\n",
    b"chosen 2 count 8\nrival 3 bound 0\n",
    b"chosen 2 count 8\nrival 3 bound 1001\n",
    b"chosen 2 count 8\nrival 3 bound 9\r\n",
    b"chosen 2 count 8\nrival 03 bound 9\n",
    b"chosen 2 count 8\nrival 3 bound 9 \n",
    b"chosen 2 count 8\nrival 3  bound 9\n",
    b"chosen 2 count 8\nrival 3 count 9\n",
    b"chosen 2 count 8\n\nrival 3 bound 9\n",
];

// Texts in which no tail is in front.
const OTHER_FIRST_LINES: [&[u8]; 14] = [
    b"",
    b"chosen none",
    b"chosen none \n",
    b"chosen none count 8\n",
    b"chosen 2 count 8",
    b"chosen 2 count 8\r\n",
    b"chosen 02 count 8\n",
    b"chosen 0 count 8\n",
    b"chosen 257 count 8\n",
    b"chosen 2 count 0\n",
    b"chosen 2 count 1001\n",
    b"Chosen 2 count 8\n",
    b"rival 2 bound 9\n",
    b"\nchosen 2 count 8\n",
];

#[test]
fn longest_prefixes(rt: HostRuntime) {
    for text in OTHER_RIVALS {
        assert_eq!(rt; tail_len(rt.alloc(), text), 17);
    }
    for text in OTHER_FIRST_LINES {
        assert_eq!(rt; tail_len(rt.alloc(), text), 0);
    }
}

#[test]
fn rising_rivals(rt: HostRuntime) {
    let less = b"chosen 2 count 8\nrival 3 bound 9\nrival 2 bound 9\n".as_slice();
    assert_eq!(rt; tail_len(rt.alloc(), less), 17 + 16);
    let same = b"chosen 2 count 8\nrival 3 bound 9\nrival 3 bound 9\n".as_slice();
    assert_eq!(rt; tail_len(rt.alloc(), same), 17 + 16);
}

// How many lines were left at the fault, or 1,000 where a tail was read.
fn lines_left(alloc: Global, bytes: &[u8]) -> usize {
    match tail_from(alloc, bytes) {
        Err(Stop::Left(left)) => left,
        Err(Stop::Memory) => 2_000,
        Ok(_) => 1_000,
    }
}

#[test]
fn bytes_after_tails(rt: HostRuntime) -> Result<(), Fail> {
    let text = b"chosen 2 count 8\nrival 2 bound 9\ndone 2\nrest".as_slice();
    let (tail, rest): (Tail, &[u8]) = tail_from(rt.alloc(), text)?;
    assert_eq!(rt; tail.rivals.len(), 1);
    assert_eq!(rt; rest, b"done 2\nrest".as_slice());
    assert_eq!(rt;
        lines_left(rt.alloc(), b"chosen 2 count 1001\nrival 2 bound 9\n"),
        2
    );
    assert_eq!(rt; lines_left(rt.alloc(), b"chosen 2 count 8"), 0);
    Ok(())
}
