// The streams of a run, tied to what the reader had left and the writer held when it began, where these tell it.
ghost use Rattle.plan_io.specs.StdStreams.{source_past, source_input, sink_past, sink_output};
ghost use Rattle.program_parts.specs.Ties.{WasFed, HasFed};

use plan_io::{Failed, Sink, Source, StdSink, StdSource};
use run_parts::Answer;
use std::io::{Read, Write};
use std::marker::{Brand, PhantomData};

/// Names a moment: what a reader had left then, and what a writer held.
pub trait Moment {
    ghost use Rattle.std.specs.Prelude.{List, ℕ, Option};

    ghost left: { Option (List ℕ) };

    ghost held: { Option (List ℕ) };
}

impl Moment for Brand {
    ghost use Rattle.std.specs.Prelude.{None};

    ghost left = { None };

    ghost held = { None };
}

/// A source over a reader of std, tied to what the reader had left at a moment.
#[derive(Drop)]
pub struct TiedSource<I: Read, M: Moment> {
    source: StdSource<I>,
    of: PhantomData<M>,
    ghost fed: { ∥ WasFed M.left (I.remaining (source_input source)) (source_past source) ∥₁ },
}

impl<I: Read, M: Moment> TiedSource<I, M> {
    ghost use Rattle.std.specs.Prelude.{◌≡◌};
    ghost use Rattle.plan_io.specs.Streams.{new_intake};
    ghost use Rattle.plan_io.specs.StdStreams.{source_past, source_input};
    ghost use Rattle.program_parts.specs.Ties.{WasFed};

    pub fn new(input: I) -> TiedSource<I, M>
        requires { M.left ≡ I.remaining input }
        ensures fresh { source_past (result.source) ≡ new_intake }
        ensures over { source_input (result.source) ≡ input }
    {
        TiedSource {
            source: StdSource::new(input),
            of: PhantomData,
        }
    }

    pub fn into_source(self) -> StdSource<I>
        ensures is { result ≡ self.source }
        ensures fed { ∥ WasFed M.left (I.remaining (source_input result)) (source_past result) ∥₁ }
    {
        self.source
    }
}

impl<I: Read, M: Moment> Source for TiedSource<I, M> {
    ghost use Rattle.plan_io.specs.StdStreams.{source_past};

    ghost past = { λ s. source_past (s.source) };

    fn read(&mut self, into: &mut [u8]) -> Result<usize, Failed> {
        self.source.read(into)
    }
}

/// A sink over a writer of std, tied to what the writer held at a moment.
#[derive(Drop)]
pub struct TiedSink<O: Write, M: Moment> {
    sink: StdSink<O>,
    of: PhantomData<M>,
    ghost fed: { ∥ HasFed M.held (O.contents (sink_output sink)) (sink_past sink) ∥₁ },
}

impl<O: Write, M: Moment> TiedSink<O, M> {
    ghost use Rattle.std.specs.Prelude.{◌≡◌};
    ghost use Rattle.plan_io.specs.Streams.{new_outlet};
    ghost use Rattle.plan_io.specs.StdStreams.{sink_past, sink_output};
    ghost use Rattle.program_parts.specs.Ties.{HasFed};

    pub fn new(output: O) -> TiedSink<O, M>
        requires { M.held ≡ O.contents output }
        ensures fresh { sink_past result.sink ≡ new_outlet }
        ensures over { sink_output result.sink ≡ output }
    {
        TiedSink {
            sink: StdSink::new(output),
            of: PhantomData,
        }
    }

    pub fn into_sink(self) -> StdSink<O>
        ensures is { result ≡ self.sink }
        ensures fed { ∥ HasFed M.held (O.contents (sink_output result)) (sink_past result) ∥₁ }
    {
        self.sink
    }
}

impl<O: Write, M: Moment> Sink for TiedSink<O, M> {
    ghost use Rattle.plan_io.specs.StdStreams.{sink_past};

    ghost past = { λ s. sink_past s.sink };

    fn write(&mut self, piece: &[u8]) -> Result<usize, Failed> {
        self.sink.write(piece)
    }
}

/// A run on a reader and a writer of std that is over: its answer, and both with their history.
#[derive(Drop)]
pub struct Finished<I, O> {
    pub answer: Answer,
    pub input: StdSource<I>,
    pub output: StdSink<O>,
}
