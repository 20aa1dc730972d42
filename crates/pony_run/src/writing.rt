// What is written: the line of a refusal, or a whole report.

ghost use Rattle.report_text.specs.Refusals.{HasRefusal};
ghost use Rattle.pony_run.specs.Inner.{IsTold, IsWritten};
ghost use Rattle.job_input.specs.Streams.{sides};

use outside_world::{Sink, write_all};
use report_text::{Status, refusal_line};
use std::alloc::Global;

/// Writes the line of a refusal as far as the sink takes it, and answers the refusal, or want of memory,
/// with nothing written.
pub fn tell<K: Sink>(alloc: Global, refusal: Status, sink: &mut K) -> Status
    requires { HasRefusal refusal }
    ensures { IsTold refusal (sides K.written K.faults sink.old sink.new) result }
{
    let Ok(line) = refusal_line(alloc, &refusal) else {
        return Status::NoMemory;
    };
    let _ = write_all(sink, &line);
    refusal
}

/// Writes a report, and answers how its call ends: so, or with a fault of the sink, which took a front
/// of it.
pub fn write_text<K: Sink>(text: &[u8], end: Status, sink: &mut K) -> Status
    ensures { IsWritten text.now end (sides K.written K.faults sink.old sink.new) result }
{
    match write_all(sink, text) {
        Ok(()) => end,
        Err(_) => Status::WriteFault,
    }
}
