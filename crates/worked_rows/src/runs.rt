use pallet_top::{Code, run};
use plan_io::{MemSink, MemSource};
use std::alloc::Global;
use std::test::Fail;
use std::thread::Threads;

pub const HEADER: &str =
    "id,pallet_x,pallet_y,case_x,case_y,case_z,weight,max_height,max_weight,contact,support,cut";

/// A report of two layers, one upon the other, in today's form.
pub const TWO_LAYERS: &str = "\
    pallet-report 2\n\
    entry 1\n\
    id A\n\
    order 5 5 3 2 1 10 2 1000 100 1 20 0\n\
    reduced 5 5 3 2\n\
    count 4\n\
    bound 4\n\
    status optimal\n\
    cert weighted\n\
    weighting area\n\
    tree .\n\
    layers 2\n\
    layer 1 same\n\
    0 0 L\n\
    3 0 S\n\
    0 2 S\n\
    2 3 L\n\
    layer 2 mirror-x\n\
    0 0 S\n\
    2 0 L\n\
    3 2 S\n\
    0 3 L\n\
    allowed 2\n\
    stack 1 2\n\
    end\n\
    done 1\n";

/// What a run gave.
#[derive(Drop)]
pub struct Outcome {
    pub code: Code,
    pub line: u32,
    pub written: Vec<u8>,
}

/// Runs the program with the words of a line, on an input in pieces of at most 4,096 bytes.
pub fn ran<R: Threads + Sync>(
    rt: &R,
    alloc: Global,
    line: &str,
    input: &[u8],
) -> Result<Outcome, Fail> {
    let source = MemSource::new(input.to_vec(alloc)?, 4096, Vec::new(alloc));
    let mut sink = MemSink::new(alloc, 1_000_000, 4096, Vec::new(alloc))?;
    let (code, line) = ran_on(rt, alloc, line, source, &mut sink)?;
    Ok(Outcome {
        code,
        line,
        written: sink.written().to_vec(alloc)?,
    })
}

/// Runs the program with the words of a line, on this source and this sink.
pub fn ran_on<R: Threads + Sync>(
    rt: &R,
    alloc: Global,
    line: &str,
    mut source: MemSource,
    sink: &mut MemSink,
) -> Result<(Code, u32), Fail> {
    let words = words_of(alloc, line)?;
    let answer = run(rt, alloc, &words, &mut source, sink);
    Ok((answer.code, answer.line))
}

/// The words of a line.
pub fn words_of(alloc: Global, line: &str) -> Result<Vec<String>, Fail> {
    let mut words = Vec::new(alloc);
    for word in line.split_whitespace() {
        words.push(String::from_str(alloc, word)?)?;
    }
    Ok(words)
}

/// An orders file of these rows, each of which stands behind a line end, under the header without the gap.
pub fn file(alloc: Global, rows: &str) -> Result<Vec<u8>, Fail> {
    let text = format!(in alloc; "{HEADER}{rows}\n")?;
    Ok(text.as_bytes().to_vec(alloc)?)
}

/// A text with one part of it changed.
pub fn changed(alloc: Global, text: &str, part: &str, other: &str) -> Result<Vec<u8>, Fail> {
    let (before, after) = text.split_once(part).ok_or("no such part")?;
    let text = format!(in alloc; "{before}{other}{after}")?;
    Ok(text.as_bytes().to_vec(alloc)?)
}

/// How many lines of a text are this one.
pub fn count_lines(text: &str, line: &str) -> u32 {
    let mut count: u32 = 0;
    for here in text.lines() {
        if here == line {
            count = count.saturating_add(1);
        }
    }
    count
}
