//! Runs a program of the behaviour text that standard input has, and writes its report to standard
//! output.
#![tactic(auto)]

use outside_world::{StdSink, StdSource};
use process_call::answer;
use std::env;
use std::process::ExitCode;

fn main(rt: HostRuntime) -> ExitCode {
    let mut source = StdSource::new(rt.stdin());
    let mut sink = StdSink::new(rt.stdout());
    answer(&rt, env::args(&rt), &mut source, &mut sink)
}
