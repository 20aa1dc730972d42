// Books that are audited: those of runs, and such as are no run, or no book.

use crate::calling::{gives, tell};
use crate::programs::{PASSED, PEERS, PING, SEVEN, TWO_PRINT};
use orca_names::NoMemory;
use pony_run::Status;
use std::sync::Wait;
use std::test::Fail;
use std::thread::Threads;

// A program, the text behind it, exit code and what is written.
const AUDITS: &[(&str, &str, u8, &str)] = &[
    (
        SEVEN,
        "book 2 256\ntake 0\ngo 0\ngo 0\ncollect 0\nleave 0\n",
        0,
        "7\n--\nrun yes\nentries 5\nend quiet\nactors made 1 left 0\nobjects made 0 left 0\n",
    ),
    (
        SEVEN,
        "book 2 256\ntake 0\ngo 0\n",
        0,
        "7\n--\nrun yes\nentries 2\nend open\nactors made 1 left 1\nobjects made 0 left 0\n",
    ),
    (
        SEVEN,
        "book 1\ntake 0\ngo 0\ngo 0\ncollect 0\nblock 0\nhear\nscan\ntake 0\nhear\nreap 1\n",
        0,
        "7\n--\nrun yes\nentries 10\nend quiet\nactors made 1 left 0\nobjects made 0 left 0\n",
    ),
    (
        SEVEN,
        "book 2 256\n",
        0,
        "--\nrun yes\nentries 0\nend open\nactors made 1 left 1\nobjects made 0 left 0\n",
    ),
    (
        SEVEN,
        "book 2 2 roots\ntake 0\n",
        0,
        "--\nrun yes\nentries 1\nend open\nactors made 1 left 1\nobjects made 0 left 0\n",
    ),
    (
        SEVEN,
        "book 1\ntake 0\ntake 0\n",
        13,
        "run no entry 1 cause 1\n",
    ),
    (
        SEVEN,
        "book 2 256\ntake 0\ngo 0\ngo 0\ngo 0\ncollect 0\n",
        13,
        "run no entry 3 cause 1\n",
    ),
    (
        SEVEN,
        "book 2 256\nreap 1\n",
        13,
        "run no entry 0 cause 1\n",
    ),
    (SEVEN, "", 12, "refused book line 1 kind 1\n"),
    (SEVEN, "book 3 256\n", 12, "refused book line 1 kind 1\n"),
    (
        SEVEN,
        "book 2 1\ntake 0\n",
        12,
        "refused book line 1 kind 1\n",
    ),
    (SEVEN, "book 2 256", 12, "refused book line 1 kind 4\n"),
    (
        SEVEN,
        "book 1\nleave 0\n",
        12,
        "refused book line 2 kind 2\n",
    ),
    (
        SEVEN,
        "book 1\ntake 01\n",
        12,
        "refused book line 2 kind 2\n",
    ),
    (
        SEVEN,
        "book 2 256\ntake 0\nbook 2 256\n",
        12,
        "refused book line 3 kind 2\n",
    ),
    (
        SEVEN,
        "book 2 256\ntake 0\ngo 0",
        12,
        "refused book line 3 kind 4\n",
    ),
    (
        "kind Main\n",
        "book 2 256\nwalk\n",
        3,
        "refused text line 1 kind 4\n",
    ),
    (
        "kind Main 0\n",
        "book 2 256\nwalk\n",
        4,
        "refused program kind 0 behaviour 0 step 0 rule 1\n",
    ),
];

/// Whether the audit of a program with this text behind it ends with this code, and writes this.
fn audits<R: AllocGlobal + Threads + Wait + Sync>(
    rt: &R,
    program: &str,
    book: &str,
    code: u8,
    written: &str,
) -> Result<bool, NoMemory> {
    let input = format!(in rt.alloc(); "{program}{book}")?;
    gives(rt, &["audit"], &input, code, written)
}

#[test]
fn audits_answer_what_they_should(rt: HostRuntime) -> Result<(), Fail> {
    for (i, (program, book, code, written)) in AUDITS.iter().enumerate() {
        assert!(rt; audits(&rt, *program, *book, *code, *written)?, "at {i}");
    }
    Ok(())
}

/// Whether the book of a run by these words is audited, with as many entries.
fn is_audited<R: AllocGlobal + Threads + Wait + Sync>(
    rt: &R,
    words: &[&str],
    program: &str,
) -> Result<bool, NoMemory> {
    let run = tell(rt, words, program.as_bytes())?;
    let mut input = program.as_bytes().to_vec(rt.alloc())?;
    input.extend_from_slice(&run.book)?;
    let audit = tell(rt, &["audit"], &input)?;
    Ok(audit.status == Status::Audited && audit.entries == run.entries)
}

// How many workers made the run.
const WORKERS: &[&str] = &["1", "2", "3", "4", "8", "16"];

#[test]
fn books_of_workers_are_runs(rt: HostRuntime) -> Result<(), Fail> {
    for workers in WORKERS {
        let words = ["run", "--workers", *workers, "--weight", "9"];
        for program in [SEVEN, PASSED, PEERS, PING, TWO_PRINT] {
            assert!(rt; is_audited(&rt, &words, program)?, "{workers}");
        }
    }
    Ok(())
}

#[test]
fn books_by_roots_are_runs(rt: HostRuntime) -> Result<(), Fail> {
    let words = ["run", "--trace", "roots"];
    for program in [SEVEN, PASSED, PEERS, PING] {
        assert!(rt; is_audited(&rt, &words, program)?);
    }
    Ok(())
}
