// Runs with root-only tracing by several workers, of programs that are drawn by lot.

use crate::calling::answer;
use crate::following::{Ending, ending_of};
use crate::programs::checked;
use crate::tally::Tally;
use drawn_program::{Lot, program};
use orca_names::NoMemory;
use pony_run::{Outcome, Status};
use std::alloc::Global;
use std::sync::Wait;
use std::test::Fail;
use std::thread::Threads;

/// How many programs are drawn.
const PROGRAMS: u64 = 240;

const WORKERS: &[&str] = &["2", "3", "4", "8", "16"];

const WEIGHTS: &[&str] = &["2", "3", "16", "256"];

/// One of four runs ends early.
const BUDGETS: &[&str] = &["2500", "2500", "2500", "40"];

/// Whether the audit of this input says that it is a run, of so many entries.
fn is_run<R: AllocGlobal + Threads + Wait + Sync>(
    rt: &R,
    input: &str,
    entries: u64,
) -> Result<bool, NoMemory> {
    let audit = answer(rt, &["audit"], input)?;
    Ok(audit.status == Status::Audited && audit.book.len() == entries)
}

/// Whether the audit of a run's book says that it is a run of the program, of as many entries.
fn is_audited<R: AllocGlobal + Threads + Wait + Sync>(
    rt: &R,
    text: &str,
    run: &Outcome,
) -> Result<bool, NoMemory> {
    let book = &run.book;
    let input = format!(in rt.alloc(); "{text}{book}")?;
    is_run(rt, &input, book.len())
}

/// Whether a run ended as its book does.
fn ends_as(status: Status, ending: Ending) -> bool {
    match ending {
        Ending::Quiet => status == Status::Quiet,
        Ending::Open => status == Status::Budget,
        Ending::Never => false,
    }
}

/// Whether the program is one by the checker, and both machines follow the book of its run to where it
/// ended. What it has is tallied.
fn is_followed(alloc: Global, text: &str, run: &Outcome, tally: &mut Tally) -> Result<bool, Fail> {
    let code = checked(alloc, text)?;
    Ok(ends_as(run.status, ending_of(alloc, &code, &run.book, tally)))
}

/// Whether the book of a run is a run of the program, to the end that the run had.
fn is_right<R: AllocGlobal + Threads + Wait + Sync>(
    rt: &R,
    text: &str,
    run: &Outcome,
    tally: &mut Tally,
) -> Result<bool, Fail> {
    Ok(is_audited(rt, text, run)? && is_followed(rt.alloc(), text, run, tally)?)
}

/// Whether the book of a run by these words is a run.
fn holds<R: AllocGlobal + Threads + Wait + Sync>(
    rt: &R,
    words: &[&str],
    text: &str,
    tally: &mut Tally,
) -> Result<bool, Fail> {
    let run = answer(rt, words, text)?;
    is_right(rt, text, &run, tally)
}

/// Whether the book of a run is one, whose program and words this number determines.
fn holds_at<R: AllocGlobal + Threads + Wait + Sync>(
    rt: &R,
    number: u64,
    tally: &mut Tally,
) -> Result<bool, Fail> {
    let mut lot = Lot(number);
    let workers = lot.draw(WORKERS);
    let weight = lot.draw(WEIGHTS);
    let budget = lot.draw(BUDGETS);
    let words = [
        "run",
        "--trace",
        "roots",
        "--book",
        "--workers",
        workers,
        "--weight",
        weight,
        "--budget",
        budget,
    ];
    let text = program(rt.alloc(), &mut lot)?;
    holds(rt, &words, &text, tally)
}

#[test]
fn books_by_roots_are_runs(rt: HostRuntime) -> Result<(), Fail> {
    let mut tally = Tally::new();
    for number in 0..PROGRAMS {
        assert!(rt; holds_at(&rt, number, &mut tally)?, "of program {number}");
    }
    assert!(rt; tally.is_rich(), "{tally:?}");
    Ok(())
}
