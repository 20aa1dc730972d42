// Runs by several workers: each book, whatever it has become, is a run of both machines.

use crate::calling::{call, sink};
use crate::following::is_whole_run;
use crate::programs::{PASSED, PEERS, TWO_PRINT, checked};
use behaviour_check::Checked;
use orca_names::NoMemory;
use outside_world::MemSink;
use std::sync::Wait;
use std::test::Fail;
use std::thread::Threads;

/// How often each program is run by each number of workers: 200 times in all.
const RUNS: u32 = 50;

/// A program, the words of a run of it, and the report of the run.
#[derive(Clone, Copy)]
struct Asked<'a> {
    code: &'a Checked,
    words: &'a [&'a str],
    text: &'a str,
    report: &'a str,
}

/// Whether a run has a book that is a whole run, and writes the report that is asked for.
fn agrees_in<R: AllocGlobal + Threads + Wait + Sync>(
    rt: &R,
    asked: &Asked<'_>,
    sink: &mut MemSink,
) -> Result<bool, NoMemory> {
    let outcome = call(rt, asked.words, asked.text, sink)?;
    let is_report = sink.bytes() == asked.report.as_bytes();
    Ok(is_report && is_whole_run(rt.alloc(), asked.code, &outcome.book))
}

/// The same, of a run that writes into a sink of its own.
fn agrees<R: AllocGlobal + Threads + Wait + Sync>(
    rt: &R,
    asked: &Asked<'_>,
) -> Result<bool, NoMemory> {
    let mut sink = sink(rt.alloc())?;
    agrees_in(rt, asked, &mut sink)
}

/// Whether all runs have books that are whole runs, and the report that is asked for.
fn all_agree<R: AllocGlobal + Threads + Wait + Sync>(
    rt: &R,
    asked: &Asked<'_>,
) -> Result<bool, Fail> {
    for _ in 0..RUNS {
        if !agrees(rt, asked)? {
            return Ok(false);
        }
    }
    Ok(true)
}

/// Whether the runs of a program by so many workers have books that are whole runs, and all this report.
fn agree<R: AllocGlobal + Threads + Wait + Sync>(
    rt: &R,
    text: &str,
    workers: &str,
    report: &str,
) -> Result<bool, Fail> {
    let code = checked(rt.alloc(), text)?;
    let asked = Asked {
        code: &code,
        words: &["run", "--workers", workers],
        text,
        report,
    };
    all_agree(rt, &asked)
}

// Programs that end in one way, whatever the workers do, and their reports.
const REPORTS: &[(&str, &str)] = &[
    (
        PASSED,
        "9\n--\nend quiet\nactors made 3 left 1\nobjects made 1 left 0\n",
    ),
    (
        PEERS,
        "--\nend quiet\nactors made 3 left 1\nobjects made 0 left 0\n",
    ),
    (
        TWO_PRINT,
        "1\n1\n--\nend quiet\nactors made 3 left 0\nobjects made 0 left 0\n",
    ),
];

#[test]
fn books_of_workers_are_runs(rt: HostRuntime) -> Result<(), Fail> {
    for (text, report) in REPORTS.iter() {
        for workers in ["2", "4", "8", "16"] {
            assert!(rt; agree(&rt, *text, workers, *report)?, "by {workers}");
        }
    }
    Ok(())
}
