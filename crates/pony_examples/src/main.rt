//! Runs each example, the programs in `data/` with some words each, and writes the file's name and the
//! words, what the call writes, and the call's exit code; last one of them by the words that this process was
//! given, with whose exit code it ends.
#![tactic(auto)]

use outside_world::{OpenGate, ReadSource, StdSink};
use pony_run::run_words;
use process_call::answer;
use std::fs::File;
use std::process::ExitCode;
use std::sync::Wait;
use std::thread::Threads;
use std::{env, io};

/// The examples: each file, and the words of a run of it.
const RUNS: &[(&str, &[&str])] = &[
    ("prints_seven.txt", &["run", "--workers", "1", "--book"]),
    ("counts_down.txt", &[]),
    (
        "keeps_an_object.txt",
        &["run", "--workers", "1", "--counts", "--book"],
    ),
    ("hold_each_other.txt", &["run", "--workers", "1", "--book"]),
    ("passes_on.txt", &["run", "--workers", "1", "--book"]),
    (
        "passes_on.txt",
        &[
            "run",
            "--workers",
            "1",
            "--weight",
            "2",
            "--budget",
            "7",
            "--counts",
        ],
    ),
    ("comes_back.txt", &["run", "--workers", "1", "--book"]),
    ("names_its_holder.txt", &["run", "--workers", "1", "--book"]),
    (
        "names_its_holder.txt",
        &[
            "run",
            "--workers",
            "1",
            "--trace",
            "roots",
            "--counts",
            "--book",
        ],
    ),
    ("makes_many.txt", &["run", "--workers", "1"]),
    (
        "makes_again.txt",
        &["run", "--workers", "1", "--rows", "1", "--book"],
    ),
    (
        "makes_again.txt",
        &["run", "--workers", "1", "--rows", "2", "--book"],
    ),
    ("cycle_and_its_book.txt", &["audit"]),
    ("cycle_and_no_run.txt", &["audit"]),
    ("hold_each_other.txt", &["why"]),
    ("keeps_an_object.txt", &["why"]),
];

/// The call with these words over this file and standard output, with threads of this handle.
fn run_example<R: AllocGlobal + Threads + Wait + Sync>(
    threads: &R,
    rt: &HostRuntime,
    name: &str,
    words: &[&str],
) -> io::Result<()> {
    print!(rt; "{name}")?;
    for word in words {
        print!(rt; " {word}")?;
    }
    println!(rt; "")?;
    let mut source = ReadSource::new(File::open(rt, name)?);
    let mut sink = StdSink::new(rt.stdout());
    let outcome = run_words(threads, words, &mut source, &mut sink, &OpenGate);
    println!(rt; "code {}", outcome.status.code())
}

/// The call over this file with the words of this process, and its exit code.
fn run_by_arguments<R: AllocGlobal + Threads + Wait + Sync>(
    threads: &R,
    rt: &HostRuntime,
    name: &str,
) -> io::Result<ExitCode> {
    println!(rt; "{name} by the words of this process")?;
    let mut source = ReadSource::new(File::open(rt, name)?);
    let mut sink = StdSink::new(rt.stdout());
    Ok(answer(threads, env::args(rt), &mut source, &mut sink))
}

fn main(rt: HostRuntime) -> io::Result<ExitCode> {
    for (name, words) in RUNS {
        run_example(&rt, &rt, name, words)?;
    }
    run_by_arguments(&rt, &rt, "prints_seven.txt")
}
