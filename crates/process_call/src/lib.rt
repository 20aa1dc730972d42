//! The call of a process: its arguments are the words, and its exit code is that of the answer.
#![tactic(auto)]

ghost use Rattle.std.specs.Prelude.{◌≡◌, ◌≢◌, [], ◌∷◌, drop, false, map, string_bytes, IfErr, IfOk};
ghost use Rattle.std.specs.IoError.{error_kind};
ghost use Rattle.std.specs.Process.{exit_status};
ghost use Rattle.std.specs.Vec.Iter.{into_iter_items};
ghost use Rattle.job_input.specs.Streams.{ExitsStarved, sides};
ghost use Rattle.process_call.specs.Calls.{Exits, ExitsUnlessStarved};

use outside_world::{OpenGate, Sink, Source};
use pony_run::{Status, run_words};
use std::alloc::{AllocError, Global};
use std::env::Args;
use std::io;
use std::io::ErrorKind;
use std::process::ExitCode;
use std::sync::Wait;
use std::thread::Threads;

/// A word that no reading has: it stands for arguments that are no text.
const NO_TEXT: &str = "";

fn list_of(alloc: Global, arguments: Args) -> Result<Vec<String>, AllocError>
    ensures { IfOk result (λ list. list.items ≡ into_iter_items arguments) }
{
    arguments.collect(alloc)
}

fn texts_of<'a>(alloc: Global, arguments: &'a [String]) -> Result<Vec<&'a str>, AllocError>
    ensures { IfOk result (λ words. map (λ word. word.now) words.items
        ≡ map string_bytes arguments.now) }
{
    let mut words = Vec::new(alloc);
    for argument in arguments {
        words.push(argument.as_str())?;
    }
    Ok(words)
}

/// The words after the program's own name.
fn words_of<'a>(alloc: Global, arguments: &'a [String]) -> Result<Vec<&'a str>, AllocError>
    ensures { IfOk result (λ words. map (λ word. word.now) words.items
        ≡ drop 1 (map string_bytes arguments.now)) }
{
    match arguments {
        [] => Ok(Vec::new(alloc)),
        [_, words @ ..] => texts_of(alloc, words),
    }
}

/// The call with these words over this source and this sink, and its exit code.
fn call_over<R: AllocGlobal + Threads + Wait + Sync, S: Source, K: Sink>(
    rt: &R,
    words: &[&str],
    source: &mut S,
    sink: &mut K,
) -> ExitCode
    requires { S.ended source.old ≡ false }
    ensures { Exits (map (λ word. word.now) words.entry.now)
        (sides S.left S.faults source.old source.new) (sides K.written K.faults sink.old sink.new)
        (exit_status result) }
{
    let outcome = run_words(rt, words, source, sink, &OpenGate);
    ExitCode::from(outcome.status.code())
}

/// The exit code for want of memory.
fn starved() -> ExitCode
    ensures { exit_status result ≡ 9 }
{
    ExitCode::from(Status::NoMemory.code())
}

/// The call with the program's arguments, of which the first is its own name, and its exit code.
/// Arguments that are no text are refused as words.
pub fn answer<R: AllocGlobal + Threads + Wait + Sync, S: Source, K: Sink>(
    rt: &R,
    arguments: io::Result<Args>,
    source: &mut S,
    sink: &mut K,
) -> ExitCode
    requires { S.ended source.old ≡ false }
    ensures text { IfOk arguments
        (λ a. ExitsUnlessStarved (drop 1 (map string_bytes (into_iter_items a)))
        (sides S.left S.faults source.old source.new) (sides K.written K.faults sink.old sink.new)
        (exit_status result)) }
    ensures no_text { IfErr arguments (λ e. error_kind e ≢ ErrorKind.OutOfMemory
        → Exits ([] ∷ []) (sides S.left S.faults source.old source.new)
        (sides K.written K.faults sink.old sink.new) (exit_status result)) }
    ensures no_memory { IfErr arguments (λ e. error_kind e ≡ ErrorKind.OutOfMemory
        → ExitsStarved (sides S.left S.faults source.old source.new)
        (sides K.written K.faults sink.old sink.new) (exit_status result)) }
{
    let arguments = match arguments {
        Ok(arguments) => arguments,
        Err(error) if error.kind() == ErrorKind::OutOfMemory => return starved(),
        Err(_) => return call_over(rt, &[NO_TEXT], source, sink),
    };
    let Ok(arguments) = list_of(rt.alloc(), arguments) else {
        return starved();
    };
    match words_of(rt.alloc(), arguments.as_slice()) {
        Ok(words) => call_over(rt, words.as_slice(), source, sink),
        Err(_) => starved(),
    }
}
