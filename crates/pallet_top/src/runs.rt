// The program's run.
ghost use Rattle.std.specs.Prelude.{◌≡◌, ◌⊎◌, ℕ, map};
ghost use Rattle.std.specs.String.{string_bytes};
ghost use Rattle.plan_io.specs.Streams.{new_intake, new_outlet};
ghost use Rattle.plan_io.specs.StdStreams.{source_past, source_input, sink_past, sink_output};
ghost use Rattle.run_parts.specs.Codes.{WritesNothing};
ghost use Rattle.command_words.specs.Accepted.{IsInRange};
ghost use Rattle.pallet_top.specs.Words.{Asks, AsksNothing};
ghost use Rattle.pallet_top.specs.Runs.{Ran};
ghost use Rattle.program_parts.specs.Ties.{WasFed, HasFed};

use command_words::{Mode, mode_of};
use par_judge::{Gate, OpenGate};
use plan_io::{Sink, Source};
use program_parts::{Finished, Moment, TiedSink, TiedSource};
use run_parts::{Answer, Code};
use std::alloc::Global;
use std::io::{Read, Write};
use std::marker::Brand;
use std::thread::Threads;

/// Does all that the program does, for the words after its name. What it did, from the history of its streams before to
/// that after, is said by its code and line, for the mode that the words ask for.
pub fn run<R: Threads + Sync, S: Source, K: Sink>(
    rt: &R,
    alloc: Global,
    words: &[String],
    source: &mut S,
    sink: &mut K,
) -> Answer
    ensures usage { result.code ≡ Code.Usage → AsksNothing (map string_bytes words.now) }
    ensures not_accepted { AsksNothing (map string_bytes words.now)
        → ((result.code ≡ Code.Usage) ⊎ (result.code ≡ Code.Memory)) × (result.line ≡ 0) }
    ensures unread { AsksNothing (map string_bytes words.now) → source.new ≡ source.old }
    ensures unwritten { AsksNothing (map string_bytes words.now) → sink.new ≡ sink.old }
    ensures ran { (mode : Mode) → Asks (map string_bytes words.now) mode
        → Ran mode (S.past source.old) (K.past sink.old) result.code result.line (S.past source.new) (K.past sink.new) }
    ensures trial_unread { (number : ℕ) → Asks (map string_bytes words.now) (Mode.Trial number)
        → source.new ≡ source.old }
    ensures nothing { WritesNothing result.code → sink.new ≡ sink.old }
{
    run_gated(rt, alloc, &OpenGate, words, source, sink)
}

/// `run`, where the gate is told of each entry before `check` judges it, and of each order before `plan` or `design` plans it. No
/// clause says anything of the gate, nor of the number of workers.
pub fn run_gated<R: Threads + Sync, G: Gate + Sync, S: Source, K: Sink>(
    rt: &R,
    alloc: Global,
    gate: &G,
    words: &[String],
    source: &mut S,
    sink: &mut K,
) -> Answer
    ensures usage { result.code ≡ Code.Usage → AsksNothing (map string_bytes words.now) }
    ensures not_accepted { AsksNothing (map string_bytes words.now)
        → ((result.code ≡ Code.Usage) ⊎ (result.code ≡ Code.Memory)) × (result.line ≡ 0) }
    ensures unread { AsksNothing (map string_bytes words.now) → source.new ≡ source.old }
    ensures unwritten { AsksNothing (map string_bytes words.now) → sink.new ≡ sink.old }
    ensures ran { (mode : Mode) → Asks (map string_bytes words.now) mode
        → Ran mode (S.past source.old) (K.past sink.old) result.code result.line (S.past source.new) (K.past sink.new) }
    ensures trial_unread { (number : ℕ) → Asks (map string_bytes words.now) (Mode.Trial number)
        → source.new ≡ source.old }
    ensures nothing { WritesNothing result.code → sink.new ≡ sink.old }
{
    match mode_of(alloc, words) {
        Err(_) => plain(Code::Memory),
        Ok(None) => plain(Code::Usage),
        Ok(Some(mode)) => run_mode(rt, alloc, gate, mode, source, sink),
    }
}

// A run of this mode.
fn run_mode<R: Threads + Sync, G: Gate + Sync, S: Source, K: Sink>(
    rt: &R,
    alloc: Global,
    gate: &G,
    mode: Mode,
    source: &mut S,
    sink: &mut K,
) -> Answer
    requires in_range { IsInRange mode }
    ensures ran { Ran mode (S.past source.old) (K.past sink.old) result.code result.line (S.past source.new) (K.past sink.new) }
    ensures trial_unread { (number : ℕ) → mode ≡ Mode.Trial number → source.new ≡ source.old }
    ensures nothing { WritesNothing result.code → sink.new ≡ sink.old }
{
    match mode {
        Mode::Plan { draw, workers } => plain(plan_mode::plan(
            rt, alloc, gate, workers, draw, source, sink,
        )),
        Mode::Check { workers } => check_mode::check(rt, alloc, gate, workers, source, sink),
        Mode::Upgrade => check_mode::upgrade(alloc, source, sink),
        Mode::Choose => plain(choice_mode::choose(alloc, source, sink)),
        Mode::CheckChoice => choice_mode::check_choice(alloc, source, sink),
        Mode::Design { workers } => plain(design_mode::design(
            rt, alloc, gate, workers, source, sink,
        )),
        Mode::Floor => plain(floor_mode::floor(alloc, source, sink)),
        Mode::CheckFloor => floor_mode::check_floor(alloc, source, sink),
        Mode::Trial { number } => plain(trial_mode::trial(alloc, number, sink)),
    }
}

// The answer of this code, without a line.
fn plain(code: Code) -> Answer
    ensures code { result.code ≡ code }
    ensures line { result.line ≡ 0 }
{
    Answer { code, line: 0 }
}

/// `run` on a reader and a writer of std, as standard input and standard output. The history begins with the run. Where
/// the reader tells its bytes, those given are the first that it had, and all of them where the end of input was found;
/// where the writer tells its bytes, those taken stand after those that it held.
pub fn run_on<R: Threads + Sync, I: Read, O: Write>(
    rt: &R,
    alloc: Global,
    words: &[String],
    input: I,
    output: O,
) -> Finished<I, O>
    ensures usage { result.answer.code ≡ Code.Usage → AsksNothing (map string_bytes words.now) }
    ensures not_accepted { AsksNothing (map string_bytes words.now)
        → ((result.answer.code ≡ Code.Usage) ⊎ (result.answer.code ≡ Code.Memory)) × (result.answer.line ≡ 0) }
    ensures unread { AsksNothing (map string_bytes words.now)
        → (source_past result.input ≡ new_intake) × (source_input result.input ≡ input) }
    ensures unwritten { AsksNothing (map string_bytes words.now)
        → (sink_past result.output ≡ new_outlet) × (sink_output result.output ≡ output) }
    ensures ran { (mode : Mode) → Asks (map string_bytes words.now) mode
        → Ran mode new_intake new_outlet result.answer.code result.answer.line
        (source_past result.input) (sink_past result.output) }
    ensures trial_unread { (number : ℕ) → Asks (map string_bytes words.now) (Mode.Trial number)
        → source_input result.input ≡ input }
    ensures nothing { WritesNothing result.answer.code → sink_output result.output ≡ output }
    ensures read { ∥ WasFed (I.remaining input) (I.remaining (source_input result.input)) (source_past result.input) ∥₁ }
    ensures wrote { ∥ HasFed (O.contents output) (O.contents (sink_output result.output)) (sink_past result.output) ∥₁ }
{
    run_from::<R, I, O, Brand>(rt, alloc, words, input, output)
}

// The same, from a moment that has a name.
fn run_from<R: Threads + Sync, I: Read, O: Write, M: Moment>(
    rt: &R,
    alloc: Global,
    words: &[String],
    input: I,
    output: O,
) -> Finished<I, O>
    requires left { M.left ≡ I.remaining input }
    requires held { M.held ≡ O.contents output }
    ensures usage { result.answer.code ≡ Code.Usage → AsksNothing (map string_bytes words.now) }
    ensures not_accepted { AsksNothing (map string_bytes words.now)
        → ((result.answer.code ≡ Code.Usage) ⊎ (result.answer.code ≡ Code.Memory)) × (result.answer.line ≡ 0) }
    ensures unread { AsksNothing (map string_bytes words.now)
        → (source_past result.input ≡ new_intake) × (source_input result.input ≡ input) }
    ensures unwritten { AsksNothing (map string_bytes words.now)
        → (sink_past result.output ≡ new_outlet) × (sink_output result.output ≡ output) }
    ensures ran { (mode : Mode) → Asks (map string_bytes words.now) mode
        → Ran mode new_intake new_outlet result.answer.code result.answer.line
        (source_past result.input) (sink_past result.output) }
    ensures trial_unread { (number : ℕ) → Asks (map string_bytes words.now) (Mode.Trial number)
        → source_input result.input ≡ input }
    ensures nothing { WritesNothing result.answer.code → sink_output result.output ≡ output }
    ensures read { ∥ WasFed M.left (I.remaining (source_input result.input)) (source_past result.input) ∥₁ }
    ensures wrote { ∥ HasFed M.held (O.contents (sink_output result.output)) (sink_past result.output) ∥₁ }
{
    let mut source = TiedSource::<I, M>::new(input);
    let mut sink = TiedSink::<O, M>::new(output);
    let answer = run(rt, alloc, words, &mut source, &mut sink);
    Finished {
        answer,
        input: source.into_source(),
        output: sink.into_sink(),
    }
}
