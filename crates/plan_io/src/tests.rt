use crate::{
    Failed, MemSink, MemSource, ReadFail, Sink, StdSink, StdSource, WriteFail, get_number,
    number_of, put_number, read_all, write_all,
};
use std::io;
use std::io::{Read, Write};
use std::test::Fail;

#[test]
fn numbers(rt: HostRuntime) -> Result<(), Fail> {
    let mut text = Vec::new(rt.alloc());
    put_number(&mut text, 0)?;
    put_number(&mut text, 9999999999)?;
    assert_eq!(rt; text.as_slice(), b"09999999999".as_slice());
    assert_eq!(rt; get_number(b"07", 0), None);
    assert_eq!(rt; get_number(b"7,", 0), Some((7, 1)));
    assert_eq!(rt; get_number(b"12345678901", 0), None);
    assert_eq!(rt; number_of(b"7,"), None);
    Ok(())
}

#[test]
fn memory(rt: HostRuntime) -> Result<(), Fail> {
    let mut source = MemSource::new(vec![in rt.alloc(); 1, 2, 3]?, 2, vec![in rt.alloc(); 3]?);
    assert_eq!(rt;
        read_all(rt.alloc(), &mut source, 2),
        Err(ReadFail::TooLong)
    );
    assert_eq!(rt; read_all(rt.alloc(), &mut source, 2), Err(ReadFail::Fault));
    let mut sink = MemSink::new(rt.alloc(), 5, 3, Vec::new(rt.alloc()))?;
    assert_eq!(rt; write_all(&mut sink, b"four"), Ok(()));
    assert_eq!(rt;
        write_all(&mut sink, b"two"),
        Err(WriteFail::Fault { sent: 1 })
    );
    assert_eq!(rt; sink.written(), b"fourt".as_slice());
    Ok(())
}

#[test]
fn std_source(rt: HostRuntime) -> Result<(), Fail> {
    let mut source = StdSource::new(&b"all of it"[..]);
    let all = read_all(rt.alloc(), &mut source, 9)?;
    assert_eq!(rt; all.as_slice(), b"all of it".as_slice());
    Ok(())
}

#[test]
fn std_sink(rt: HostRuntime) -> Result<(), Fail> {
    let mut room = [0; 6];
    let mut sink = StdSink::new(&mut room[..]);
    assert_eq!(rt;
        write_all(&mut sink, b"all of it"),
        Err(WriteFail::Fault { sent: 6 })
    );
    assert_eq!(rt; room, *b"all of");
    Ok(())
}

// Gives its bytes one a call, and fails at one of its calls.
#[derive(Drop)]
struct FailsOnce {
    bytes: &'static [u8],
    fails_at: usize,
    calls: usize,
}

impl Read for FailsOnce {
    fn read(&mut self, into: &mut [u8]) -> io::Result<usize> {
        self.calls = self.calls.saturating_add(1);
        if self.calls == self.fails_at {
            return Err(io::ErrorKind::Other.into());
        }
        match (self.bytes.split_first(), into.first_mut()) {
            (Some((byte, rest)), Some(place)) => {
                *place = *byte;
                self.bytes = rest;
                Ok(1)
            }
            _ => Ok(0),
        }
    }
}

// "abc" and its end are four reads. Where one of them fails, what follows is read on, and no read is left out: a
// source fails only where its reader does.
#[test]
fn reads_that_fail(rt: HostRuntime) -> Result<(), Fail> {
    for fails_at in 1..5usize {
        let mut source = StdSource::new(FailsOnce {
            bytes: b"abc",
            fails_at,
            calls: 0,
        });
        assert_eq!(rt; read_all(rt.alloc(), &mut source, 3), Err(ReadFail::Fault));
        let rest = read_all(rt.alloc(), &mut source, 3)?;
        assert_eq!(rt; Some(rest.as_slice()), b"abc".get(fails_at - 1..));
        assert_eq!(rt; source.into_input().calls, 5);
    }
    Ok(())
}

// Takes the bytes for a room of three one a call, and fails at one of its calls.
#[derive(Drop)]
struct TakesOne {
    bytes: [u8; 3],
    taken: usize,
    fails_at: usize,
    calls: usize,
}

impl Write for TakesOne {
    fn write(&mut self, piece: &[u8]) -> io::Result<usize> {
        self.calls = self.calls.saturating_add(1);
        if self.calls == self.fails_at {
            return Err(io::ErrorKind::Other.into());
        }
        match (piece.first(), self.bytes.get_mut(self.taken)) {
            (Some(byte), Some(place)) => {
                *place = *byte;
                self.taken = self.taken.saturating_add(1);
                Ok(1)
            }
            _ => Ok(0),
        }
    }

    fn flush(&mut self) -> io::Result<()> {
        Ok(())
    }
}

// "abc" is three writes. Where one of them fails, the bytes before it stand, and those behind it are written on.
#[test]
fn writes_that_fail(rt: HostRuntime) -> Result<(), Fail> {
    for fails_at in 1..4usize {
        let mut sink = StdSink::new(TakesOne {
            bytes: [0; 3],
            taken: 0,
            fails_at,
            calls: 0,
        });
        let sent = fails_at - 1;
        assert_eq!(rt;
            write_all(&mut sink, b"abc"),
            Err(WriteFail::Fault { sent })
        );
        assert_eq!(rt;
            write_all(&mut sink, b"abc".get(sent..).ok_or("no rest")?),
            Ok(())
        );
        let writer = sink.into_output();
        assert_eq!(rt; writer.bytes, *b"abc");
        assert_eq!(rt; writer.calls, 4);
    }
    Ok(())
}

// A writer that takes nothing has failed.
#[test]
fn no_room(rt: HostRuntime) -> Result<(), Fail> {
    let mut room = [0; 2];
    let mut sink = StdSink::new(&mut room[..]);
    assert_eq!(rt; sink.write(b"abc"), Ok(2));
    assert_eq!(rt; sink.write(b"c"), Err(Failed));
    assert_eq!(rt; sink.write(b""), Ok(0));
    Ok(())
}
