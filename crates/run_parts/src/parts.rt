// Reading an input whole, and writing a text that stands whole.
ghost use Rattle.std.specs.Prelude.{◌≡◌, ◌≤◌, ◌+◌, length, IfOk, IfErr, OnOk, OnErr, IsErrOf};
ghost use Rattle.plan_io.specs.Causes.{Rose};
ghost use Rattle.plan_io.specs.Streams.{at_end, with_bytes, GaveCount, GaveAtMost};
ghost use Rattle.run_parts.specs.Codes.{IsReadingCode};
ghost use Rattle.run_parts.specs.Written.{WrotePart};

use crate::codes::Code;
use plan_io::{ReadFail, Sink, Source, read_all, write_all};
use std::alloc::Global;

/// Why a text was not written to its end.
#[derive(Clone, Copy, PartialEq, Eq, Debug)]
pub enum WriteStop {
    /// The sink failed.
    Fault,
    /// Memory was refused.
    Memory,
}

/// The input, read to its end, of which there are at most `most` bytes, at most 268,435,456; or the code of the run where
/// it has none.
pub fn read_input<S: Source>(alloc: Global, source: &mut S, most: usize) -> Result<Vec<u8>, Code>
    requires { most ≤ 268435456 }
    ensures read { IfOk result (λ bytes. S.past source.new ≡ at_end (S.past source.old) bytes.items) }
    ensures few { IfOk result (λ bytes. length bytes.items ≤ most) }
    ensures too_long { IsErrOf result Code.TooLong → GaveCount (S.past source.old) (S.past source.new) (most + 1) }
    ensures read_fault { IsErrOf result Code.ReadFault → Rose (S.past source.old).faults (S.past source.new).faults }
    ensures read_part { IsErrOf result Code.ReadFault → GaveAtMost (S.past source.old) (S.past source.new) most }
    ensures memory { IsErrOf result Code.Memory → GaveAtMost (S.past source.old) (S.past source.new) (most + 1) }
    ensures no_fault_long { IsErrOf result Code.TooLong → (S.past source.new).faults ≡ (S.past source.old).faults }
    ensures no_fault_memory { IsErrOf result Code.Memory → (S.past source.new).faults ≡ (S.past source.old).faults }
    ensures other { IfErr result (λ code. IsReadingCode code) }
    ensures later { (S.past source.old).faults ≤ (S.past source.new).faults }
{
    match read_all(alloc, source, most) {
        Ok(bytes) => Ok(bytes),
        Err(ReadFail::TooLong) => Err(Code::TooLong),
        Err(ReadFail::Fault) => Err(Code::ReadFault),
        Err(ReadFail::Memory) => Err(Code::Memory),
    }
}

/// Writes a text that stands whole in memory.
pub fn send<K: Sink>(sink: &mut K, text: &[u8]) -> Result<(), WriteStop>
    ensures ok { OnOk result (K.past sink.new ≡ with_bytes (K.past sink.old) text.now) }
    ensures part { OnErr result (WrotePart (K.past sink.old) (K.past sink.new) text.now) }
    ensures fault { IsErrOf result WriteStop.Fault → Rose (K.past sink.old).faults (K.past sink.new).faults }
    ensures only { IsErrOf result WriteStop.Memory → ⊥ }
    ensures later { (K.past sink.old).faults ≤ (K.past sink.new).faults }
{
    match write_all(sink, text) {
        Ok(()) => Ok(()),
        Err(_) => Err(WriteStop::Fault),
    }
}
