// The last line of what is written.
ghost use Rattle.std.specs.Prelude.{◌≡◌, ◌≤◌, IfOk, OnOk, IsErrOf};
ghost use Rattle.plan_io.specs.Causes.{Rose};
ghost use Rattle.run_parts.specs.Written.{Wrote, WrotePart};
ghost use Rattle.report_text.specs.Reports.{done_text};

use plan_io::Sink;
use plan_memory::Memory;
use report_text::put_done;
use run_parts::{WriteStop, send};
use std::alloc::Global;

// Writes the last line, which tells the number of entries.
pub(crate) fn write_done<K: Sink>(alloc: Global, count: u32, sink: &mut K) -> Result<(), WriteStop>
    ensures ok { OnOk result (Wrote (K.past sink.old) (K.past sink.new) (done_text count)) }
    ensures part { IsErrOf result WriteStop.Fault → WrotePart (K.past sink.old) (K.past sink.new) (done_text count) }
    ensures rose { IsErrOf result WriteStop.Fault → Rose (K.past sink.old).faults (K.past sink.new).faults }
    ensures memory { IsErrOf result WriteStop.Memory → sink.new ≡ sink.old }
    ensures later { (K.past sink.old).faults ≤ (K.past sink.new).faults }
{
    let Ok(last) = done_line(alloc, count) else {
        return Err(WriteStop::Memory);
    };
    send(sink, &last)
}

// The last line.
fn done_line(alloc: Global, count: u32) -> Result<Vec<u8>, Memory>
    ensures { IfOk result (λ text. text.items ≡ done_text count) }
{
    let mut text = Vec::new(alloc);
    put_done(&mut text, count)?;
    Ok(text)
}
