// The program's run.
ghost use Rattle.std.specs.Prelude.{◌≡◌, ◌≢◌, []};
ghost use Rattle.plan_io.specs.Streams.{new_intake, new_outlet};
ghost use Rattle.plan_io.specs.StdStreams.{source_past, source_input, sink_past, sink_output};
ghost use Rattle.run_parts.specs.Codes.{WritesNothing};
ghost use Rattle.program_parts.specs.Ties.{WasFed, HasFed};
ghost use Rattle.page_mode.specs.Pages.{PageRan};

use crate::pages::page;
use plan_io::{Sink, Source};
use program_parts::{Finished, Moment, TiedSink, TiedSource};
use report_reading::plain;
use run_parts::{Answer, Code};
use std::alloc::Global;
use std::io::{Read, Write};
use std::marker::Brand;

/// Does all that the program does, for the words after its name, of which none is accepted. What it did, from the history of
/// its streams before to that after, is said by its code and line.
pub fn run<S: Source, K: Sink>(
    alloc: Global,
    words: &[String],
    source: &mut S,
    sink: &mut K,
) -> Answer
    ensures usage { result.code ≡ Code.Usage → words.now ≢ [] }
    ensures not_accepted { words.now ≢ [] → (result.code ≡ Code.Usage) × (result.line ≡ 0) }
    ensures unread { words.now ≢ [] → source.new ≡ source.old }
    ensures unwritten { words.now ≢ [] → sink.new ≡ sink.old }
    ensures ran { words.now ≡ [] → PageRan (S.past source.old) (K.past sink.old) result.code result.line
        (S.past source.new) (K.past sink.new) }
    ensures nothing { WritesNothing result.code → sink.new ≡ sink.old }
{
    if !words.is_empty() {
        return plain(Code::Usage);
    }
    page(alloc, source, sink)
}

/// `run` on a reader and a writer of std, as standard input and standard output. The history begins with the run. Where
/// the reader tells its bytes, those given are the first that it had, and all of them where the end of input was found;
/// where the writer tells its bytes, those taken stand after those that it held.
pub fn run_on<I: Read, O: Write>(
    alloc: Global,
    words: &[String],
    input: I,
    output: O,
) -> Finished<I, O>
    ensures usage { result.answer.code ≡ Code.Usage → words.now ≢ [] }
    ensures not_accepted { words.now ≢ [] → (result.answer.code ≡ Code.Usage) × (result.answer.line ≡ 0) }
    ensures unread { words.now ≢ [] → (source_past result.input ≡ new_intake) × (source_input result.input ≡ input) }
    ensures unwritten { words.now ≢ [] → (sink_past result.output ≡ new_outlet) × (sink_output result.output ≡ output) }
    ensures ran { words.now ≡ [] → PageRan new_intake new_outlet result.answer.code result.answer.line
        (source_past result.input) (sink_past result.output) }
    ensures nothing { WritesNothing result.answer.code → sink_output result.output ≡ output }
    ensures read { ∥ WasFed (I.remaining input) (I.remaining (source_input result.input)) (source_past result.input) ∥₁ }
    ensures wrote { ∥ HasFed (O.contents output) (O.contents (sink_output result.output)) (sink_past result.output) ∥₁ }
{
    run_from::<I, O, Brand>(alloc, words, input, output)
}

// The same, from a moment that has a name.
fn run_from<I: Read, O: Write, M: Moment>(
    alloc: Global,
    words: &[String],
    input: I,
    output: O,
) -> Finished<I, O>
    requires left { M.left ≡ I.remaining input }
    requires held { M.held ≡ O.contents output }
    ensures usage { result.answer.code ≡ Code.Usage → words.now ≢ [] }
    ensures not_accepted { words.now ≢ [] → (result.answer.code ≡ Code.Usage) × (result.answer.line ≡ 0) }
    ensures unread { words.now ≢ [] → (source_past result.input ≡ new_intake) × (source_input result.input ≡ input) }
    ensures unwritten { words.now ≢ [] → (sink_past result.output ≡ new_outlet) × (sink_output result.output ≡ output) }
    ensures ran { words.now ≡ [] → PageRan new_intake new_outlet result.answer.code result.answer.line
        (source_past result.input) (sink_past result.output) }
    ensures nothing { WritesNothing result.answer.code → sink_output result.output ≡ output }
    ensures read { ∥ WasFed M.left (I.remaining (source_input result.input)) (source_past result.input) ∥₁ }
    ensures wrote { ∥ HasFed M.held (O.contents (sink_output result.output)) (sink_past result.output) ∥₁ }
{
    let mut source = TiedSource::<I, M>::new(input);
    let mut sink = TiedSink::<O, M>::new(output);
    let answer = run(alloc, words, &mut source, &mut sink);
    Finished {
        answer,
        input: source.into_source(),
        output: sink.into_sink(),
    }
}
