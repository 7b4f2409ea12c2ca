// A source over a reader and a sink over a writer of std.
ghost use Rattle.std.specs.Prelude.{◌≡◌};
ghost use Rattle.std.specs.Io.{ReadsAtMost};
ghost use Rattle.std.specs.Io.KnownBytes.{ReadConsumes, WriteAppends};
ghost use Rattle.plan_io.specs.Streams.{TakesSome, after_read, after_write};

use crate::passed::Passed;
use crate::streams::is_end;
use crate::{Failed, Sink, Source};
use std::io::{Read, Write};

/// A source over a reader of std, as standard input.
#[derive(Drop)]
pub struct StdSource<I> {
    input: I,
    passed: Passed,
    ended: bool,
    failures: u64,
}

impl<I: Read> StdSource<I> {
    ghost use Rattle.plan_io.specs.Streams.{new_intake};
    ghost use Rattle.plan_io.specs.StdStreams.{source_past, source_input};

    /// A source over this reader, of which nothing was asked yet.
    pub fn new(input: I) -> StdSource<I>
        ensures fresh { source_past result ≡ new_intake }
        ensures over { source_input result ≡ input }
    {
        StdSource {
            input,
            passed: Passed::new(),
            ended: false,
            failures: 0,
        }
    }

    /// The reader.
    pub fn into_input(self) -> I
        ensures { result ≡ source_input self }
    {
        self.input
    }
}

impl<I: Read> Source for StdSource<I> {
    ghost use Rattle.plan_io.specs.StdStreams.{source_past, source_input};

    ghost past = { λ s. source_past s };

    /// One read of the reader. Each of its errors is `Failed`.
    fn read(&mut self, into: &mut [u8]) -> Result<usize, Failed>
        ensures bound { ReadsAtMost result into.new }
        ensures past { source_past self.new ≡ after_read (source_past self.old) into.new result }
        ensures told { ReadConsumes (I.remaining (source_input self.old)) (I.remaining (source_input self.new))
            result into.new }
    {
        match self.input.read(into) {
            Ok(count) => {
                self.passed.add(&into[..count]);
                self.ended = is_end(count, into);
                Ok(count)
            }
            Err(_) => {
                self.ended = false;
                self.failures = self.failures.saturating_add(1);
                Err(Failed)
            }
        }
    }
}

/// A sink over a writer of std, as standard output.
#[derive(Drop)]
pub struct StdSink<O> {
    output: O,
    passed: Passed,
    failures: u64,
}

impl<O: Write> StdSink<O> {
    ghost use Rattle.plan_io.specs.Streams.{new_outlet};
    ghost use Rattle.plan_io.specs.StdStreams.{sink_past, sink_output};

    /// A sink over this writer, to which nothing was given yet.
    pub fn new(output: O) -> StdSink<O>
        ensures fresh { sink_past result ≡ new_outlet }
        ensures over { sink_output result ≡ output }
    {
        StdSink {
            output,
            passed: Passed::new(),
            failures: 0,
        }
    }

    /// The writer.
    pub fn into_output(self) -> O
        ensures { result ≡ sink_output self }
    {
        self.output
    }
}

impl<O: Write> Sink for StdSink<O> {
    ghost use Rattle.plan_io.specs.StdStreams.{sink_past, sink_output};

    ghost past = { λ s. sink_past s };

    /// One write of the writer. Each of its errors is `Failed`, and so is a write that takes nothing of a piece that is
    /// not empty.
    fn write(&mut self, piece: &[u8]) -> Result<usize, Failed>
        ensures bound { TakesSome result piece.now }
        ensures past { sink_past self.new ≡ after_write (sink_past self.old) piece.now result }
        ensures told { WriteAppends (O.contents (sink_output self.old)) (O.contents (sink_output self.new))
            result piece.now }
    {
        match self.output.write(piece) {
            Ok(count) if count > 0 || piece.is_empty() => {
                self.passed.add(&piece[..count]);
                Ok(count)
            }
            _ => {
                self.failures = self.failures.saturating_add(1);
                Err(Failed)
            }
        }
    }
}
