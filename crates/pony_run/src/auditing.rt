// A book is audited against a program, and what it proves to be is written.

ghost use Rattle.run_book.specs.Books.{options_of_book};
ghost use Rattle.std.specs.Prelude.{◌≡◌, ◌≤◌, length};
ghost use Rattle.orca_names.specs.declared.limits.TheConstants.{BOOK_LIMIT};
ghost use Rattle.behaviour_code.specs.declared.code.Program.{Program};
ghost use Rattle.machine_rules.specs.Run.{IsRun};
ghost use Rattle.orca_core.specs.Machine.{NoneIsAway};
ghost use Rattle.pony_run.specs.Inner.{AuditAnswers, WritesAudit};
ghost use Rattle.job_input.specs.Streams.{sides};

use crate::reporting::report_of_audit;
use crate::runs::Outcome;
use crate::writing::{tell, write_text};
use behaviour_check::Checked;
use book_audit::{Verdict, audit};
use orca_core::Orca;
use orca_names::NoMemory;
use outside_world::Sink;
use report_text::Status;
use run_book::Book;
use std::alloc::Global;

/// Writes the report of an audit whose book is a run to this state.
fn write_audit<K: Sink>(alloc: Global, orca: &Orca<'_>, book: &Book, sink: &mut K) -> Status
    requires { NoneIsAway orca.now }
    ensures { (program : Program) → IsRun program (options_of_book book.now) book.now.entries
        orca.now.state → WritesAudit program book.now (sides K.written K.faults sink.old sink.new)
        result }
{
    match report_of_audit(alloc, orca, book) {
        Ok(text) => write_text(&text, Status::Audited, sink),
        Err(NoMemory) => Status::NoMemory,
    }
}

/// Follows a book of a checked program, and writes the report, or why it is no run.
fn follow<K: Sink>(alloc: Global, code: &Checked, book: &Book, sink: &mut K) -> Status
    requires { length book.now.entries ≤ BOOK_LIMIT }
    ensures { AuditAnswers code.now book.now (sides K.written K.faults sink.old sink.new) result }
{
    match audit(alloc, code, book) {
        Ok(Verdict::Run { state }) => write_audit(alloc, &state, book, sink),
        Ok(Verdict::Not { place, cause }) => tell(alloc, Status::NotARun { place, cause }, sink),
        Err(NoMemory) => Status::NoMemory,
    }
}

/// Audits a book against a checked program, and writes what it proves to be.
pub(crate) fn audit_book<K: Sink>(
    alloc: Global,
    code: &Checked,
    book: Book,
    sink: &mut K,
) -> Outcome
    requires { length book.entries ≤ BOOK_LIMIT }
    ensures book { result.book ≡ book }
    ensures answers { AuditAnswers code.now book (sides K.written K.faults sink.old sink.new)
        result.status }
{
    let status = follow(alloc, code, &book, sink);
    Outcome { status, book }
}
