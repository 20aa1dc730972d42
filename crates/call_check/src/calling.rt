// Calls over devices in memory, and what is told of them.

ghost use Rattle.std.specs.Prelude.{◌≡◌, IfOk, false};

use orca_names::NoMemory;
use outside_world::{Gate, MemSink, MemSource, OpenGate};
use pony_run::{Outcome, Status, run_words};
use std::alloc::Global;
use std::sync::Wait;
use std::thread::Threads;

/// The most bytes that a device takes in a call, and the number of its call that fails, if one does.
#[derive(Clone, Copy)]
pub(crate) struct Device {
    pub(crate) piece: usize,
    pub(crate) fails: Option<u64>,
}

/// A device that does not fail.
pub(crate) const SURE: Device = Device {
    piece: 4096,
    fails: None,
};

/// The calls of a device that fail.
fn fails(alloc: Global, device: Device) -> Result<Vec<u64>, NoMemory> {
    let mut numbers = Vec::new(alloc);
    if let Some(number) = device.fails {
        numbers.push(number)?;
    }
    Ok(numbers)
}

/// A source of these bytes.
pub(crate) fn source(alloc: Global, input: &[u8], device: Device) -> Result<MemSource, NoMemory>
    ensures { IfOk result (λ source. source.ended ≡ false) }
{
    let fails = fails(alloc, device)?;
    Ok(MemSource::new(input.to_vec(alloc)?, device.piece.max(1), fails))
}

/// An empty sink.
pub(crate) fn sink(alloc: Global, device: Device) -> Result<MemSink, NoMemory> {
    MemSink::new(alloc, 4096, device.piece.max(1), fails(alloc, device)?)
}

/// What is told of a call: how it ended, and its book by its length and its text.
#[derive(Drop)]
pub(crate) struct Told {
    pub(crate) status: Status,
    pub(crate) entries: u64,
    pub(crate) book: Vec<u8>,
}

/// What is told of what a call answers.
pub(crate) fn told_of(alloc: Global, outcome: &Outcome) -> Result<Told, NoMemory> {
    Ok(Told {
        status: outcome.status,
        entries: outcome.book.len(),
        book: outcome.book.text(alloc)?,
    })
}

/// What is told of a call over a source of these bytes.
pub(crate) fn tell_by<R: AllocGlobal + Threads + Wait + Sync, G: Gate + Sync>(
    rt: &R,
    words: &[&str],
    input: &[u8],
    reads: Device,
    sink: &mut MemSink,
    gate: &G,
) -> Result<Told, NoMemory> {
    let mut source = source(rt.alloc(), input, reads)?;
    let outcome = run_words(rt, words, &mut source, sink, gate);
    told_of(rt.alloc(), &outcome)
}

/// What is told of a call.
pub(crate) fn tell<R: AllocGlobal + Threads + Wait + Sync>(
    rt: &R,
    words: &[&str],
    input: &[u8],
) -> Result<Told, NoMemory> {
    let mut sink = sink(rt.alloc(), SURE)?;
    tell_by(rt, words, input, SURE, &mut sink, &OpenGate)
}

/// Whether a call over such devices, the source first, ends with this code, and writes this.
pub(crate) fn gives_by<R: AllocGlobal + Threads + Wait + Sync, G: Gate + Sync>(
    rt: &R,
    words: &[&str],
    input: &[u8],
    devices: (Device, Device),
    gate: &G,
    code: u8,
    written: &[u8],
) -> Result<bool, NoMemory> {
    let mut sink = sink(rt.alloc(), devices.1)?;
    let told = tell_by(rt, words, input, devices.0, &mut sink, gate)?;
    Ok(told.status.code() == code && sink.bytes() == written)
}

/// Whether a call ends with this code, and writes this.
pub(crate) fn gives<R: AllocGlobal + Threads + Wait + Sync>(
    rt: &R,
    words: &[&str],
    input: &str,
    code: u8,
    written: &str,
) -> Result<bool, NoMemory> {
    gives_by(
        rt,
        words,
        input.as_bytes(),
        (SURE, SURE),
        &OpenGate,
        code,
        written.as_bytes(),
    )
}

/// Words, input, exit code and what is written.
pub(crate) type Case = (&'static [&'static str], &'static str, u8, &'static str);

/// The first case that is not as it should be.
pub(crate) fn first_wrong<R: AllocGlobal + Threads + Wait + Sync>(
    rt: &R,
    cases: &[Case],
) -> Result<Option<usize>, NoMemory> {
    for (i, (words, input, code, written)) in cases.iter().enumerate() {
        if !gives(rt, *words, *input, *code, *written)? {
            return Ok(Some(i));
        }
    }
    Ok(None)
}
