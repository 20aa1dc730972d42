// Examples from outside of the contracts: each instruction, the edges of what it reads, and the acts.

ghost use Rattle.std.specs.Prelude.{◌≡◌, ◌≤◌, None};

use crate::starting::{code_of, program, same_text, told};
use behaviour_check::{Checked, check};
use behaviour_code::Name;
use orca_names::Args;
use std::alloc::Global;
use std::test::Fail;
use turn_rules::FrameRoom;
use turn_step::start_frame;

// The second get is of an actor that may be lacked, the third of an object whose owner it is.
const GETS: &str =
    "row r8 r4 r5\nstore f0 r8\nget r9 r8 0\nget r10 r9 1\nget r11 r8 1\nprint r11\n";

const GOT: &str =
    "print 9.0 at 6: 7 18446744073709551615 - @9 4.2 9.0 0 4.2 4.3 4.2 @9 9.0 - - - -; 4.3 -, 4.2 9.0";

/// A turn: its body, the place from which it goes, an actor that is lacked, and what is seen of it.
type Turn = (&'static str, u32, Option<u32>, &'static str);

// The registers before a turn are `7 18446744073709551615 - @9 4.2 9.0 0 4.2` and nulls, the fields `3 -`.
const TURNS: &[Turn] = &[
    // Numbers and values.
    (
        "int r8 5\nadd r9 r0 r1\nsub r10 r2 r0\nmul r11 r1 r1\nless r12 r3 r0\nless r13 r0 r0\nadd r14 r4 r5\ncopy r15 r3\ndrop r0\n",
        0,
        None,
        "end at 9: - 18446744073709551615 - @9 4.2 9.0 0 4.2 5 6 18446744073709551609 1 1 0 0 @9; 3 -",
    ),
    (
        "self r8\nsame r9 r4 r7\nsame r10 r4 r5\nsame r11 r2 r6\nsame r12 r2 r15\nless r13 r0 r1\n",
        0,
        None,
        "end at 6: 7 18446744073709551615 - @9 4.2 9.0 0 4.2 @4 1 0 0 1 1 - -; 3 -",
    ),
    // Rows and fields.
    (
        "get r0 r4 2\nget r1 r5 0\nget r6 r3 0\nget r8 r4 1\nrow r9 r8 r2\nrow r10 r9\nget r11 r10 0\nget r12 r11 0\nload r13 f0\nstore f1 r10\nload r14 f1\npin\n",
        0,
        None,
        "end at 12: - - - @9 4.2 9.0 - 4.2 @9 4.3 4.4 4.3 @9 3 4.4 -; pinned 3 4.4, @9 -, 4.3",
    ),
    (
        "pin\nunpin\n",
        0,
        None,
        "end at 2: 7 18446744073709551615 - @9 4.2 9.0 0 4.2 - - - - - - - -; 3 -",
    ),
    // Jumps. A label that the check found is the one that a search finds: also from a place behind another one.
    (
        "jzero r0 Main\nint r8 1\njzero r3 start\nint r9 1\nlabel Main\nint r10 1\nlabel start\nint r11 1\n",
        0,
        None,
        "end at 8: 7 18446744073709551615 - @9 4.2 9.0 0 4.2 1 - - 1 - - - -; 3 -",
    ),
    (
        "label Main\njump start\nlabel start\nint r8 1\nnew r9 Main\n",
        1,
        None,
        "new r9 0 at 5: 7 18446744073709551615 - @9 4.2 9.0 0 4.2 1 - - - - - - -; 3 -",
    ),
    // Acts.
    (
        "jump start\nprint r1\nlabel start\nsend r2 Main r0\nprint r0\nprint r1\n",
        0,
        None,
        "print 7 at 5: 7 18446744073709551615 - @9 4.2 9.0 0 4.2 - - - - - - - -; 3 -",
    ),
    (
        "print r0\nnew r8 start\nint r8 1\n",
        1,
        None,
        "new r8 1 at 2: 7 18446744073709551615 - @9 4.2 9.0 0 4.2 - - - - - - - -; 3 -",
    ),
    (
        "int r8 1\nsend r3 Main r8 r4\nint r8 2\n",
        0,
        None,
        "send @9 0 1 4.2 at 2: 7 18446744073709551615 - @9 4.2 9.0 0 4.2 1 - - - - - - -; 3 -",
    ),
    // What is needed leaves all as it was, as the end of an empty body does; what is held is not needed.
    (
        GETS,
        0,
        Some(9),
        "need @9 at 0: 7 18446744073709551615 - @9 4.2 9.0 0 4.2 - - - - - - - -; 3 -",
    ),
    (
        "",
        0,
        None,
        "end at 0: 7 18446744073709551615 - @9 4.2 9.0 0 4.2 - - - - - - - -; 3 -",
    ),
    (GETS, 0, Some(77), GOT),
    (GETS, 0, None, GOT),
];

/// Fails where a turn isn't seen as it is wanted.
fn is_seen(alloc: Global, turn: &Turn) -> Result<(), Fail> {
    let (body, place, lacked, want) = *turn;
    same_text(body, told(alloc, body, place, lacked)?.as_str(), want)
}

#[test]
fn turns_leave_what_is_wanted(rt: HostRuntime) -> Result<(), Fail> {
    for turn in TURNS {
        is_seen(rt.alloc(), turn)?;
    }
    Ok(())
}

/// Whether a call starts a frame in this room.
fn starts_in(code: &Checked, kind: u32, name: u32, args: &Args, frame: &mut FrameRoom) -> bool
    requires { frame.old ≡ None }
{
    start_frame(code, kind, Name(name), args, frame);
    frame.is_some()
}

/// Whether a call with so many arguments starts a frame.
fn starts(code: &Checked, kind: u32, name: u32, arguments: usize) -> bool
    requires { arguments ≤ 8 }
{
    starts_in(
        code,
        kind,
        name,
        &Args::nulls(arguments),
        &mut FrameRoom::new(),
    )
}

// The only behaviour is the first kind's `start`, which takes no argument.
const CALLS: &[(u32, u32, usize, bool)] = &[
    (0, 1, 0, true),
    (0, 1, 1, false),
    (0, 0, 0, false),
    (0, 65, 0, false),
    (1, 1, 0, false),
    (2, 1, 0, false),
];

/// Fails where a call doesn't start a frame though it is to, or does though it isn't.
fn call_starts(code: &Checked, call: &(u32, u32, usize, bool)) -> Result<(), Fail> {
    let (kind, name, arguments, wanted) = *call;
    if arguments > 8 || starts(code, kind, name, arguments) != wanted {
        return Err(Fail::new(format_args!("kind {kind}, name {name}, {arguments} arguments")));
    }
    Ok(())
}

fn calls_start(code: &Checked) -> Result<(), Fail> {
    for call in CALLS {
        call_starts(code, call)?;
    }
    Ok(())
}

#[test]
fn calls_start_what_takes_them(rt: HostRuntime) -> Result<(), Fail> {
    calls_start(&code_of(rt.alloc(), "pin\n")?)
}

/// What the check of a program finds.
fn fault_of(alloc: Global, text: &str) -> Result<String, Fail> {
    match check(program(alloc, text)?) {
        Err(fault) => Ok(fault.to_string(alloc)?),
        Ok(_) => Err(Fail::from("no fault")),
    }
}

// A register or a field past the last stands in no program that was checked.
const PAST_THE_LAST: &[(&str, &str)] = &[
    (
        "kind Main 2\non start 0\npin\ncopy r15 r16\nend\n",
        "rule 5 fails at kind 1, behaviour 1, step 2",
    ),
    (
        "kind Main 2\non start 0\nload r15 f2\nend\n",
        "rule 6 fails at kind 1, behaviour 1, step 1",
    ),
];

#[test]
fn nothing_stands_past_the_last(rt: HostRuntime) -> Result<(), Fail> {
    for (text, want) in PAST_THE_LAST {
        same_text(text, fault_of(rt.alloc(), text)?.as_str(), want)?;
    }
    Ok(())
}
