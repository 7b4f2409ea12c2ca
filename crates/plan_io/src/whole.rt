// Reading a whole source and writing a whole text.
ghost use Rattle.std.specs.Prelude.{◌≡◌, ◌≤◌, ◌+◌, ◌++◌, true, length, take, IfOk, IfErr, OnOk, IsErrOf};
ghost use Rattle.plan_io.specs.Causes.{Rose};
ghost use Rattle.plan_io.specs.Sent.{sent_of};
ghost use Rattle.plan_io.specs.Streams.{at_end, with_bytes, broken_off, GaveCount, GaveAtMost};

use crate::{Sink, Source};
use std::alloc::Global;

/// Why an input was not read to its end.
#[derive(Clone, Copy, Debug, PartialEq, Eq)]
pub enum ReadFail {
    /// It has more bytes than the limit: one more than that was taken.
    TooLong,
    /// A read failed.
    Fault,
    /// Memory was refused.
    Memory,
}

/// Why a whole text was not written.
#[derive(Clone, Copy, Debug, PartialEq, Eq)]
pub enum WriteFail {
    /// A write failed, when the first `sent` bytes had been written.
    Fault { sent: usize },
}

// How many bytes a read asks for at most.
const PIECE: usize = 4096;

/// All bytes up to the end of input, of which there are at most `limit`. `TooLong` exactly where `limit + 1` bytes were
/// given, and `Fault` only where the count of faults rose; then at most `limit` bytes were given.
pub fn read_all<S: Source>(alloc: Global, source: &mut S, limit: usize) -> Result<Vec<u8>, ReadFail>
    requires { limit ≤ 268435456 }
    ensures all { IfOk result (λ v. S.past source.new ≡ at_end (S.past source.old) v.items) }
    ensures within { IfOk result (λ v. length v.items ≤ limit) }
    ensures too_long { IsErrOf result ReadFail.TooLong → GaveCount (S.past source.old) (S.past source.new) (limit + 1) }
    ensures fault { IsErrOf result ReadFail.Fault → Rose (S.past source.old).faults (S.past source.new).faults }
    ensures short { IsErrOf result ReadFail.Fault → GaveAtMost (S.past source.old) (S.past source.new) limit }
    ensures memory { IsErrOf result ReadFail.Memory → GaveAtMost (S.past source.old) (S.past source.new) (limit + 1) }
    ensures no_fault_long { IsErrOf result ReadFail.TooLong → (S.past source.new).faults ≡ (S.past source.old).faults }
    ensures no_fault_memory { IsErrOf result ReadFail.Memory → (S.past source.new).faults ≡ (S.past source.old).faults }
    ensures later { (S.past source.old).faults ≤ (S.past source.new).faults }
{
    let mut all = Vec::new(alloc);
    let mut buffer = [0u8; PIECE];
    while all.len() <= limit {
        let room = PIECE.min(limit + 1 - all.len());
        let Ok(count) = source.read(&mut buffer[..room]) else {
            return Err(ReadFail::Fault);
        };
        if count == 0 {
            return Ok(all);
        }
        if all.extend_from_slice(&buffer[..count]).is_err() {
            return Err(ReadFail::Memory);
        }
    }
    Err(ReadFail::TooLong)
}

/// Writes all bytes, in as many writes as the sink takes them in. `Fault` only where a write failed; then exactly the
/// first `sent` bytes were taken.
pub fn write_all<K: Sink>(sink: &mut K, bytes: &[u8]) -> Result<(), WriteFail>
    ensures ok { OnOk result (K.past sink.new ≡ with_bytes (K.past sink.old) bytes.now) }
    ensures sent { IfErr result (λ e. sent_of e ≤ length bytes.now) }
    ensures fault { IfErr result (λ e. K.past sink.new ≡ broken_off (K.past sink.old) (take (sent_of e) bytes.now)) }
{
    let mut sent = 0;
    while sent < bytes.len() {
        match sink.write(&bytes[sent..]) {
            Ok(count) => sent += count,
            Err(_) => return Err(WriteFail::Fault { sent }),
        }
    }
    Ok(())
}
