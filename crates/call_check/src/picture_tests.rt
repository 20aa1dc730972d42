// Books that are drawn, and what is refused by the program that draws.

use crate::argument_tests::{Given, NO_TEXT, arguments_of};
use crate::calling::{Device, SURE, sink, source};
use crate::programs::SEVEN;
use crate::tests::{Text, bytes_of};
use orca_names::NoMemory;
use picture_call::{answer, draw_source};
use std::alloc::Global;
use std::process::ExitCode;
use std::test::Fail;

/// The program that prints, and the book of its run.
const RUN: Text = (
    SEVEN,
    b"",
    0,
    "book 2 256\ntake 0\ngo 0\ngo 0\ncollect 0\nleave 0\n",
);

/// The picture of that run.
const PICTURE: &str = "picture 1
weight 256
trace deep
text kind Main 0
text on start 0
text int r0 7
text print r0
text end
actor 0 0 0 0 0 0 0
letter start
detector 0 0
entry take 0
actor 0 0 0 1 0 0 0
turn 0 0 - - - - - - - - - - - - - - - -
entry go 0
print 7
actor 0 0 0 1 0 0 0
turn 0 2 7 - - - - - - - - - - - - - - -
entry go 0
actor 0 0 0 1 0 0 0
entry collect 0
actor 0 0 0 0 0 0 0
entry leave 0
gone 0
end quiet
";

/// The picture of a run of that program by roots, which has begun its turn.
const BEGUN: &str = "picture 1
weight 2
trace roots
text kind Main 0
text on start 0
text int r0 7
text print r0
text end
actor 0 0 0 0 0 0 0
letter start
detector 0 0
entry take 0
actor 0 0 0 1 0 0 0
turn 0 0 - - - - - - - - - - - - - - - -
end open
";

/// A text, which call of the source and which of the sink fails, exit code and what is written.
type Drawing = (Text, Option<u64>, Option<u64>, u8, &'static str);

const DRAWINGS: &[Drawing] = &[
    (RUN, None, None, 0, PICTURE),
    (
        (SEVEN, b"", 0, "book 2 2 roots\ntake 0\n"),
        None,
        None,
        0,
        BEGUN,
    ),
    (
        ("kind Main\n", b"", 0, "book 2 256\nwalk\n"),
        None,
        None,
        3,
        "refused text line 1 kind 4\n",
    ),
    (
        ("kind Main 0\n", b"", 0, "book 2 256\nwalk\n"),
        None,
        None,
        4,
        "refused program kind 0 behaviour 0 step 0 rule 1\n",
    ),
    (RUN, Some(2), None, 7, "refused read\n"),
    (RUN, None, Some(1), 8, ""),
    (RUN, None, Some(3), 8, "picture 1\nweight 256\ntrace deep\n"),
    (
        ("", b"\n", 1_048_577, ""),
        None,
        None,
        10,
        "refused length\n",
    ),
    (
        (SEVEN, b"", 0, "book 2 256\nwalk\n"),
        None,
        None,
        12,
        "refused book line 2 kind 2\n",
    ),
    ((SEVEN, b"", 0, ""), None, Some(2), 12, "refused book lin"),
    (
        (SEVEN, b"", 0, "book 2 256\ntake 0\ntake 0\n"),
        None,
        None,
        13,
        "run no entry 1 cause 1\n",
    ),
];

/// A device that takes at most 16 bytes in a call, one of which may fail.
fn device(fails: Option<u64>) -> Device {
    Device { piece: 16, fails }
}

/// Whether a text is drawn, or refused, with this code, and this is written.
fn draws(alloc: Global, drawing: &Drawing) -> Result<bool, NoMemory> {
    let (text, reads, writes, code, written) = drawing;
    let bytes = bytes_of(alloc, text)?;
    let mut source = source(alloc, &bytes, device(*reads))?;
    let mut sink = sink(alloc, device(*writes))?;
    let outcome = draw_source(alloc, &mut source, &mut sink);
    Ok(outcome.status.code() == *code && sink.bytes() == written.as_bytes())
}

#[test]
fn books_are_drawn_or_refused(rt: HostRuntime) -> Result<(), Fail> {
    for (i, drawing) in DRAWINGS.iter().enumerate() {
        assert!(rt; draws(rt.alloc(), drawing)?, "at {i}");
    }
    Ok(())
}

// Arguments with the program's own name, or none for want of memory, exit code and what is written.
const CALLS: &[(Option<Given>, u8, &str)] = &[
    (Some(Given(&[])), 0, PICTURE),
    (Some(Given(&["pony_picture"])), 0, PICTURE),
    (
        Some(Given(&["pony_picture", "audit"])),
        2,
        "refused words\n",
    ),
    (
        Some(Given(&["pony_picture", NO_TEXT])),
        2,
        "refused words\n",
    ),
    (None, 9, ""),
];

/// Whether the program that draws answers these arguments with this code, and writes this.
fn exits(alloc: Global, given: Option<Given>, code: u8, written: &str) -> Result<bool, NoMemory> {
    let bytes = bytes_of(alloc, &RUN)?;
    let mut source = source(alloc, &bytes, SURE)?;
    let mut sink = sink(alloc, SURE)?;
    let found = answer(alloc, arguments_of(alloc, given), &mut source, &mut sink);
    Ok(found == ExitCode::from(code) && sink.bytes() == written.as_bytes())
}

#[test]
fn the_drawing_program_takes_no_words(rt: HostRuntime) -> Result<(), Fail> {
    for (i, (given, code, written)) in CALLS.iter().enumerate() {
        assert!(rt; exits(rt.alloc(), *given, *code, *written)?, "at {i}");
    }
    Ok(())
}
