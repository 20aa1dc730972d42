// A book is audited, and the picture of the run is written.

ghost use Rattle.std.specs.Prelude.{◌≡◌, ◌≤◌, Some, false, length, IfOk, MatchOption};
ghost use Rattle.orca_names.specs.declared.limits.TheConstants.{BOOK_LIMIT};
ghost use Rattle.word_line.specs.Orders.{audit_order};
ghost use Rattle.book_audit.specs.Verdicts.{IsARun, IsRefuted};
ghost use Rattle.pony_run.specs.Causes.{OrderCauses};
ghost use Rattle.job_input.specs.Streams.{sides};
ghost use Rattle.picture_call.specs.Drawing.{DrawAnswers, PictureAnswers};

use behaviour_check::Checked;
use book_audit::{Verdict, audit};
use book_picture::draw;
use job_input::{Begun, begin};
use orca_names::NoMemory;
use outside_world::{Sink, Source};
use pony_run::{Job, Outcome, Status, stop, tell, write_text};
use run_book::Book;
use std::alloc::Global;

/// The place and the cause of the first entry that is refused; none of a book that is a run.
fn first_refused(alloc: Global, code: &Checked, book: &Book) -> Result<Option<(u64, u8)>, NoMemory>
    requires { length book.now.entries ≤ BOOK_LIMIT }
    ensures { IfOk result (λ found. MatchOption found (IsARun code.now book.now)
        (λ refused. IsRefuted code.now book.now refused.0 refused.1)) }
{
    match audit(alloc, code, book)? {
        Verdict::Run { .. } => Ok(None),
        Verdict::Not { place, cause } => Ok(Some((place, cause))),
    }
}

/// Writes the picture of a book that is a run of the program.
fn write_picture<K: Sink>(alloc: Global, code: &Checked, book: &Book, sink: &mut K) -> Status
    requires few { length book.now.entries ≤ BOOK_LIMIT }
    requires run { IsARun code.now book.now }
    ensures { DrawAnswers code.now book.now (sides K.written K.faults sink.old sink.new) result }
{
    match draw(alloc, code, book) {
        Ok(text) => write_text(&text, Status::Audited, sink),
        Err(NoMemory) => Status::NoMemory,
    }
}

/// Writes the picture of a book, or why it is no run of the program.
fn draw_book<K: Sink>(alloc: Global, code: &Checked, book: &Book, sink: &mut K) -> Status
    requires { length book.now.entries ≤ BOOK_LIMIT }
    ensures { DrawAnswers code.now book.now (sides K.written K.faults sink.old sink.new) result }
{
    match first_refused(alloc, code, book) {
        Ok(None) => write_picture(alloc, code, book, sink),
        Ok(Some((place, cause))) => tell(alloc, Status::NotARun { place, cause }, sink),
        Err(NoMemory) => Status::NoMemory,
    }
}

/// The call, by what it answers.
fn draw_input<S: Source, K: Sink>(alloc: Global, source: &mut S, sink: &mut K) -> Outcome
    requires { S.ended source.old ≡ false }
    ensures { PictureAnswers (Some audit_order) (sides S.left S.faults source.old source.new)
        (sides K.written K.faults sink.old sink.new) result.book result.status }
{
    match begin(alloc, Job::Audit, source) {
        Ok(Begun::Audit { code, book }) => {
            let status = draw_book(alloc, &code, &book, sink);
            Outcome { status, book }
        }
        Ok(Begun::Run { .. }) => unreachable!(),
        Err(answer) => stop(alloc, answer, sink),
    }
}

/// Reads a program and the book behind it, and writes the picture of the book where it is a run of the
/// program. The status is `Audited` then. Whatever else it answers, and when, is as the audit of this source
/// would. The source has not answered its end yet.
///
/// The first clause says what the call did for the status that it answers, the second one when each
/// status comes. `NoMemory` alone is free: it comes where memory was refused, and nothing is written
/// then.
pub fn draw_source<S: Source, K: Sink>(alloc: Global, source: &mut S, sink: &mut K) -> Outcome
    requires { S.ended source.old ≡ false }
    ensures answers { PictureAnswers (Some audit_order)
        (sides S.left S.faults source.old source.new)
        (sides K.written K.faults sink.old sink.new) result.book result.status }
    ensures causes { OrderCauses audit_order (sides S.left S.faults source.old source.new)
        (sides K.written K.faults sink.old sink.new) result.status result.book }
{
    draw_input(alloc, source, sink)
}
