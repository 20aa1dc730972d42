// The words that have a reading, and those that have none.

use crate::table::same_text;
use std::alloc::Global;
use std::test::Fail;
use word_line::{WordErr, read_words};

// A line of a table is what is told of the reading, and behind a bar the words.

// The number of workers and the budget.
const WORKERS: &str = "\
workers: 2, budget: 1000000, |
workers: 2, budget: 1000000, |run
workers: 2, budget: 1000000, |run --
workers: 1, budget: 1000000, |run --workers 1
workers: 16, budget: 1000000, |run --workers=16
workers: 5, budget: 1, |run --workers +5 --budget 1
workers: 5, budget: 100000000, |run --budget 100000000 --workers 05
workers: 4, budget: 9, |load 3 --workers 4 --budget 9
workers: 2, budget: 1000000, |audit
workers: 1, budget: 1000000, |why
workers: 1, budget: 4, |why --budget 4
workers: 1, budget: 9, |why --weight 2 --budget=9";

const JOBS: &str = "\
job: Run, |
job: Run, |run
job: Run, |run --counts
job: Load(1), |load 1
job: Load(60000), |load 60000
job: Load(5), |load +5
job: Load(5), |load 05
job: Load(7), |load -- 7
job: Load(3), |load --workers 2 3
job: Audit, |audit
job: Audit, |audit --
job: Why, |why
job: Why, |why --budget 4
job: Why, |why --weight 2 --budget=9";

// Whether the report has the counts, and whether it has the book.
const REPORTS: &str = "\
counts: false, book: false, |
counts: false, book: false, |run
counts: true, book: false, |run --counts
counts: false, book: true, |run --book
counts: true, book: true, |run --book --counts
counts: false, book: false, |load 3
counts: true, book: false, |load 3 --counts
counts: false, book: true, |load --book 3
counts: false, book: false, |audit
counts: false, book: false, |why";

// The weight and the tracing.
const WEIGHTS: &str = "\
weight: 256, trace: Deep, |
weight: 256, trace: Deep, |run
weight: 256, trace: Deep, |load 3
weight: 2, trace: Deep, |run --weight 2
weight: 65536, trace: Deep, |run --weight=65536 --trace deep
weight: 256, trace: Roots, |run --trace roots
weight: 7, trace: Roots, |load 3 --trace=roots --weight 07
weight: 256, trace: Deep, |audit --
weight: 256, trace: Deep, |why --budget 4
weight: 2, trace: Deep, |why --weight 2 --budget=9";

// The tracing, and how many blocks rows lie in.
const ROWS: &str = "\
trace: Deep, rows: None |
trace: Deep, rows: None |run
trace: Roots, rows: None |run --trace roots
trace: Deep, rows: Some(9) |run --rows 9
trace: Deep, rows: Some(1) |run --rows=1 --trace deep
trace: Deep, rows: Some(65536) |load 5 --rows 65536
trace: Deep, rows: Some(7) |load --trace deep --rows +07 3
trace: Deep, rows: None |audit
trace: Deep, rows: None |why";

const WITHOUT_A_READING: &str = "\
BadWords|run --workers 0
BadWords|run --workers 17
BadWords|run --budget 0
BadWords|run --budget 100000001
BadWords|run --workers -1
BadWords|run --workers 18446744073709551616
BadWords|run --workers two
BadWords|run --workers
BadWords|run --workers 4 --workers 5
BadWords|run --worker 2
BadWords|run -w 2
BadWords|--workers 2 run
BadWords|run run
BadWords|run 3
BadWords|walk
BadWords|--
BadWords|--help
BadWords|run --help
BadWords|help
BadWords|run help
BadWords|-h
BadWords|-V
BadWords|--version";

const LOADS_AND_OPTIONS: &str = "\
BadWords|load
BadWords|load 0
BadWords|load 60001
BadWords|load -3
BadWords|load three
BadWords|load 3 4
BadWords|load load
BadWords|load 3 --help
BadWords|load --counts
BadWords|3
BadWords|run --counts --counts
BadWords|run --counts=true
BadWords|run --book 1
BadWords|--book run
BadWords|run --weight 1
BadWords|run --weight 65537
BadWords|run --weight
BadWords|load 3 --weight 0
BadWords|run --trace deeper
BadWords|run --trace Deep
BadWords|run --trace
BadWords|run --trace deep --trace deep
BadWords|run --rows
BadWords|run --rows 0
BadWords|run --rows 65537
BadWords|run --rows many
BadWords|run --rows 9 --rows 9
BadWords|run --rows 9 --trace roots
BadWords|run --trace roots --rows 9
BadWords|load 5 --rows 0
BadWords|load 5 --rows 65537
BadWords|load 5 --trace roots --rows 9";

const AUDITS_AND_REASONS: &str = "\
BadWords|audit 3
BadWords|audit --budget 4
BadWords|audit --workers 1
BadWords|audit --rows 9
BadWords|why --workers 1
BadWords|why --counts
BadWords|why --book
BadWords|why --trace deep
BadWords|why --rows 9
BadWords|why 3
BadWords|why --budget 0
BadWords|why --weight 1";

/// What is told of the words' reading.
fn told(alloc: Global, words: &[&str]) -> Result<String, Fail> {
    Ok(format!(in alloc; "{:?}", read_words(alloc, words))?)
}

fn told_of_line(alloc: Global, line: &str) -> Result<String, Fail> {
    let words: Vec<&str> = line.split_whitespace().collect(alloc)?;
    told(alloc, words.as_slice())
}

/// Fails where a part that is wanted isn't in what is told of the words.
fn has_part(words: &str, told: &str, want: &str) -> Result<(), Fail> {
    if told.contains(want) {
        Ok(())
    } else {
        Err(Fail::new(format_args!("{words}\ntold: {told}\nwanted: {want}")))
    }
}

/// Fails where a line of a table isn't read as it is wanted.
fn are_read_so(alloc: Global, table: &str) -> Result<(), Fail> {
    for row in table.lines() {
        let (want, line) = row.split_once('|').ok_or("a row without its bar")?;
        has_part(line, told_of_line(alloc, line)?.as_str(), want)?;
    }
    Ok(())
}

#[test]
fn workers_and_budget(rt: HostRuntime) -> Result<(), Fail> {
    are_read_so(rt.alloc(), WORKERS)
}

#[test]
fn jobs(rt: HostRuntime) -> Result<(), Fail> {
    are_read_so(rt.alloc(), JOBS)
}

#[test]
fn what_the_report_has(rt: HostRuntime) -> Result<(), Fail> {
    are_read_so(rt.alloc(), REPORTS)
}

#[test]
fn weights_and_tracing(rt: HostRuntime) -> Result<(), Fail> {
    are_read_so(rt.alloc(), WEIGHTS)
}

#[test]
fn rows_in_blocks(rt: HostRuntime) -> Result<(), Fail> {
    are_read_so(rt.alloc(), ROWS)
}

#[test]
fn words_without_a_reading(rt: HostRuntime) -> Result<(), Fail> {
    are_read_so(rt.alloc(), WITHOUT_A_READING)?;
    has_part(
        "an empty word",
        told(rt.alloc(), &[""])?.as_str(),
        "BadWords",
    )
}

#[test]
fn loads_and_options_without_a_reading(rt: HostRuntime) -> Result<(), Fail> {
    are_read_so(rt.alloc(), LOADS_AND_OPTIONS)
}

#[test]
fn audits_and_reasons_without_a_reading(rt: HostRuntime) -> Result<(), Fail> {
    are_read_so(rt.alloc(), AUDITS_AND_REASONS)
}

fn is_told_as(alloc: Global, error: WordErr, want: &str) -> Result<(), Fail> {
    same_text(error.to_string(alloc)?.as_str(), want)
}

#[test]
fn errors_as_texts(rt: HostRuntime) -> Result<(), Fail> {
    is_told_as(rt.alloc(), WordErr::BadWords, "the words have no reading")?;
    is_told_as(rt.alloc(), WordErr::NoMemory, "out of memory")
}
