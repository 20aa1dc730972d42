// Calls over devices in memory.

use orca_names::NoMemory;
use outside_world::{MemSink, MemSource, OpenGate};
use pony_run::{Outcome, run_words};
use std::alloc::Global;
use std::sync::Wait;
use std::thread::Threads;

/// An empty sink that is large enough for the reports of the tests.
pub(crate) fn sink(alloc: Global) -> Result<MemSink, NoMemory> {
    MemSink::new(alloc, 65_536, 4096, Vec::new(alloc))
}

/// What a call by these words answers over this input.
pub(crate) fn call<R: AllocGlobal + Threads + Wait + Sync>(
    rt: &R,
    words: &[&str],
    input: &str,
    sink: &mut MemSink,
) -> Result<Outcome, NoMemory> {
    let alloc = rt.alloc();
    let bytes = input.as_bytes().to_vec(alloc)?;
    let mut source = MemSource::new(bytes, 4096, Vec::new(alloc));
    Ok(run_words(rt, words, &mut source, sink, &OpenGate))
}

/// What a call by these words answers over this input, whatever it writes.
pub(crate) fn answer<R: AllocGlobal + Threads + Wait + Sync>(
    rt: &R,
    words: &[&str],
    input: &str,
) -> Result<Outcome, NoMemory> {
    let mut sink = sink(rt.alloc())?;
    call(rt, words, input, &mut sink)
}
