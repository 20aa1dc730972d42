//! Writes to standard output the picture of a run: of the book that standard input has behind its program.
#![tactic(auto)]

use outside_world::{StdSink, StdSource};
use picture_call::answer;
use std::env;
use std::process::ExitCode;

fn main(rt: HostRuntime) -> ExitCode {
    let mut source = StdSource::new(rt.stdin());
    let mut sink = StdSink::new(rt.stdout());
    answer(rt.alloc(), env::args(&rt), &mut source, &mut sink)
}
