// What the arguments of the process become.

use crate::calling::{SURE, sink, source};
use crate::programs::{SEVEN, SEVEN_REPORT};
use orca_names::NoMemory;
use outside_world::MemSink;
use process_call::answer;
use std::alloc::Global;
use std::env::{Args, Env, FillError};
use std::process::ExitCode;
use std::sync::Wait;
use std::test::Fail;
use std::thread::Threads;
use std::{env, io};

const SEVEN_CUT: &str = "7\n--\nend budget\nactors made 1 left 1\nobjects made 0 left 0\n";

/// It stands for an argument that is no text.
pub(crate) const NO_TEXT: &str = "?";

fn bytes_of(argument: &'static str) -> &'static [u8] {
    if argument == NO_TEXT {
        b"\xff"
    } else {
        argument.as_bytes()
    }
}

/// A process that was given these arguments.
#[derive(Clone, Copy)]
pub(crate) struct Given(pub(crate) &'static [&'static str]);

impl Env for Given {
    fn arg(&self, i: usize, buf: &mut [u8]) -> Result<usize, FillError> {
        let Some(argument) = self.0.get(i) else {
            return Err(FillError::NotPresent);
        };
        let bytes = bytes_of(*argument);
        if bytes.len() > buf.len() {
            return Err(FillError::TooLong);
        }
        buf[..bytes.len()].copy_from_slice(bytes);
        Ok(bytes.len())
    }

    fn var(&self, _name: &str, _buf: &mut [u8]) -> Result<usize, FillError> {
        Err(FillError::NotPresent)
    }

    fn var_at(&self, _i: usize, _buf: &mut [u8]) -> Result<usize, FillError> {
        Err(FillError::NotPresent)
    }
}

/// The arguments of a process that was given these, or none for want of memory.
pub(crate) fn arguments_of(alloc: Global, given: Option<Given>) -> io::Result<Args> {
    match given {
        Some(given) => env::args(&(given, alloc)),
        None => Err(io::Error::from(io::ErrorKind::OutOfMemory)),
    }
}

/// The exit code of the program that is given these arguments, or none for want of memory.
fn code_of<R: AllocGlobal + Threads + Wait + Sync>(
    rt: &R,
    given: Option<Given>,
    sink: &mut MemSink,
) -> Result<ExitCode, NoMemory> {
    let mut source = source(rt.alloc(), SEVEN.as_bytes(), SURE)?;
    let arguments = arguments_of(rt.alloc(), given);
    Ok(answer(rt, arguments, &mut source, sink))
}

/// Whether the program answers these arguments, or none, with this code, and writes this.
fn gives<R: AllocGlobal + Threads + Wait + Sync>(
    rt: &R,
    given: Option<Given>,
    code: u8,
    written: &str,
) -> Result<bool, NoMemory> {
    let mut sink = sink(rt.alloc(), SURE)?;
    let found = code_of(rt, given, &mut sink)?;
    Ok(found == ExitCode::from(code) && sink.bytes() == written.as_bytes())
}

// Arguments with the program's own name, exit code and what is written.
const CALLS: &[(&[&str], u8, &str)] = &[
    (&[], 0, SEVEN_REPORT),
    (&["pony_cli"], 0, SEVEN_REPORT),
    (&["run"], 0, SEVEN_REPORT),
    (&["pony_cli", "run", "--budget", "2"], 5, SEVEN_CUT),
    (&["pony_cli", "walk"], 2, "refused words\n"),
    (&["pony_cli", "run", NO_TEXT], 2, "refused words\n"),
];

#[test]
fn arguments_are_the_words(rt: HostRuntime) -> Result<(), Fail> {
    for (i, (arguments, code, written)) in CALLS.iter().enumerate() {
        assert!(rt;
            gives(&rt, Some(Given(*arguments)), *code, *written)?,
            "at {i}"
        );
    }
    Ok(())
}

#[test]
fn want_of_memory_for_arguments_writes_nothing(rt: HostRuntime) -> Result<(), Fail> {
    assert!(rt; gives(&rt, None, 9, "")?);
    Ok(())
}
