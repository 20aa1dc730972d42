// The call of a process, which takes no words, and its exit code.

ghost use Rattle.std.specs.Prelude.{◌≡◌, ◌≢◌, ◌≤◌, ℕ, List, [], ◌∷◌, drop, false, length, map, string_bytes, IfErr, IfOk};
ghost use Rattle.std.specs.IoError.{error_kind};
ghost use Rattle.std.specs.Process.{exit_status};
ghost use Rattle.std.specs.Vec.Iter.{into_iter_items};
ghost use Rattle.job_input.specs.Streams.{ExitsStarved, IsUntouched, Sides, sides};
ghost use Rattle.picture_call.specs.Exits.{PictureExits};

use crate::drawing::draw_source;
use outside_world::{Sink, Source};
use pony_run::{Status, stop};
use std::alloc::Global;
use std::env::Args;
use std::io;
use std::io::ErrorKind;
use std::process::ExitCode;

/// The call without words.
fn draw_and_exit<S: Source, K: Sink>(alloc: Global, source: &mut S, sink: &mut K) -> ExitCode
    requires { S.ended source.old ≡ false }
    ensures { PictureExits [] (sides S.left S.faults source.old source.new)
        (sides K.written K.faults sink.old sink.new) (exit_status result) }
{
    let outcome = draw_source(alloc, source, sink);
    ExitCode::from(outcome.status.code())
}

/// The call with words, which are refused.
fn refuse_and_exit<K: Sink>(alloc: Global, sink: &mut K) -> ExitCode
    ensures { (words : List (List ℕ)) (source : Sides) → 1 ≤ length words → IsUntouched source
        → PictureExits words source (sides K.written K.faults sink.old sink.new)
        (exit_status result) }
{
    let outcome = stop(alloc, Status::BadWords, sink);
    ExitCode::from(outcome.status.code())
}

/// The call with these arguments, of which the first is the program's own name.
fn call_with<S: Source, K: Sink>(
    alloc: Global,
    arguments: &Args,
    source: &mut S,
    sink: &mut K,
) -> ExitCode
    requires { S.ended source.old ≡ false }
    ensures { PictureExits (drop 1 (map string_bytes (into_iter_items arguments.now)))
        (sides S.left S.faults source.old source.new) (sides K.written K.faults sink.old sink.new)
        (exit_status result) }
{
    if arguments.len() > 1 {
        refuse_and_exit(alloc, sink)
    } else {
        draw_and_exit(alloc, source, sink)
    }
}

/// The call with the program's arguments, of which the first is its own name, and its exit code. Words
/// after it are refused, and arguments that are no text are words.
pub fn answer<S: Source, K: Sink>(
    alloc: Global,
    arguments: io::Result<Args>,
    source: &mut S,
    sink: &mut K,
) -> ExitCode
    requires { S.ended source.old ≡ false }
    ensures text { IfOk arguments
        (λ a. PictureExits (drop 1 (map string_bytes (into_iter_items a)))
        (sides S.left S.faults source.old source.new) (sides K.written K.faults sink.old sink.new)
        (exit_status result)) }
    ensures no_text { IfErr arguments (λ e. error_kind e ≢ ErrorKind.OutOfMemory
        → PictureExits ([] ∷ []) (sides S.left S.faults source.old source.new)
        (sides K.written K.faults sink.old sink.new) (exit_status result)) }
    ensures no_memory { IfErr arguments (λ e. error_kind e ≡ ErrorKind.OutOfMemory
        → ExitsStarved (sides S.left S.faults source.old source.new)
        (sides K.written K.faults sink.old sink.new) (exit_status result)) }
{
    match arguments {
        Ok(arguments) => call_with(alloc, &arguments, source, sink),
        Err(error) if error.kind() == ErrorKind::OutOfMemory => {
            ExitCode::from(Status::NoMemory.code())
        }
        Err(_) => refuse_and_exit(alloc, sink),
    }
}
