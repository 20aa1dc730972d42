// Books that are runs, and books that are none.

ghost use Rattle.std.specs.Prelude.{◌≤◌, length};
ghost use Rattle.orca_names.specs.declared.limits.TheConstants.{BOOK_LIMIT};
ghost use Rattle.behaviour_code.specs.declared.code.Program.{Program};
ghost use Rattle.run_book.specs.Books.{BookValue};
ghost use Rattle.book_audit.specs.Verdicts.{IsVerdict};

use crate::plain_tests::checked;
use crate::programs::{OPENED, SEVEN};
use behaviour_check::Checked;
use book_audit::{Verdict, audit};
use run_book::{Book, read_text};
use std::alloc::Global;
use std::test::Fail;

/// An actor is told of itself three times, for which a count of two doesn't do.
const TOLD: &str =
    "kind Main 0\non start 0\nnew r0 A\nsend r0 you r0\nsend r0 you r0\nsend r0 you r0\nend\nkind A 0\n";

/// What an audit found: a run that ends quiet, one that does not, or none from a place on.
#[derive(Clone, Copy, PartialEq)]
enum Found {
    Quiet,
    Open,
    Not(u64, u8),
}

use Found::{Not, Open, Quiet};

// A program, a book, and what its audit finds. With root-only tracing what a row gives is counted, or got,
// when it is used.
const AUDITS: &[(&str, &str, Found)] = &[
    (SEVEN, "book 1\n", Open),
    (SEVEN, "book 2 256\ntake 0\ngo 0\n", Open),
    (
        SEVEN,
        "book 2 256\ntake 0\ngo 0\ngo 0\ncollect 0\nleave 0\n",
        Quiet,
    ),
    (
        SEVEN,
        "book 1\ntake 0\ngo 0\ngo 0\ncollect 0\nblock 0\nhear\nscan\ntake 0\nhear\nreap 1\n",
        Quiet,
    ),
    (SEVEN, "book 1\ntake 0\ntake 0\n", Not(1, 1)),
    (SEVEN, "book 1\ngo 0\ntake 0\n", Not(0, 1)),
    (SEVEN, "book 1\ntake 0\ntake 1\ngo 0\n", Not(1, 1)),
    (
        TOLD,
        "book 2 2\ntake 0\ngo 0\ngo 0\ngo 0\ngo 0\ngo 0\ngo 0\n",
        Open,
    ),
    (
        TOLD,
        "book 2 256\ntake 0\ngo 0\ngo 0\ngo 0\ngo 0\ngo 0\ngo 0\n",
        Not(6, 1),
    ),
    (
        OPENED,
        "book 2 256 roots\ntake 0\ngo 0\ngo 0\ngo 0\ntake 1\ngo 1\ntake 0\ngo 1\ngo 1\ncollect 0\ntake 1\ncollect 1\ntake 0\ncollect 0\nleave 1\n",
        Quiet,
    ),
    (
        OPENED,
        "book 2 256\ntake 0\ngo 0\ngo 0\ngo 0\ntake 1\ngo 1\ntake 0\ngo 1\ngo 1\ncollect 0\ntake 1\ncollect 1\ntake 0\ncollect 0\nleave 1\n",
        Not(6, 1),
    ),
];

/// What a right verdict says.
fn found_of(verdict: &Verdict<'_>) -> Found
    requires { (program : Program) × (book : BookValue) × IsVerdict program book verdict.now }
{
    match verdict {
        Verdict::Run { state } if state.quiet() => Quiet,
        Verdict::Run { .. } => Open,
        Verdict::Not { place, cause } => Not(*place, *cause),
    }
}

/// What the audit of a book finds.
fn found_by(alloc: Global, code: &Checked, book: &Book) -> Result<Found, Fail>
    requires { length book.now.entries ≤ BOOK_LIMIT }
{
    let verdict = audit(alloc, code, book)?;
    Ok(found_of(&verdict))
}

/// The same, of the texts of a program and a book.
fn audited(alloc: Global, program: &str, book: &str) -> Result<Found, Fail> {
    let book = read_text(alloc, book.as_bytes())?;
    let code = checked(alloc, program)?;
    found_by(alloc, &code, &book)
}

#[test]
fn books_are_runs_or_not(rt: HostRuntime) -> Result<(), Fail> {
    for (i, (program, book, found)) in AUDITS.iter().enumerate() {
        assert!(rt; audited(rt.alloc(), *program, *book)? == *found, "at {i}");
    }
    Ok(())
}
