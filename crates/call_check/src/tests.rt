// The whole call from outside of the contracts: inputs and their refusals, and devices that fail at each
// call in turn.

use crate::calling::{Case, Device, SURE, first_wrong, gives_by, sink, source, told_of};
use crate::programs::{MOST, SEVEN, SEVEN_REPORT, VALUES, WRAPS};
use orca_names::{NoMemory, Trace};
use outside_world::OpenGate;
use pony_run::{Job, Order, run_single};
use std::alloc::Global;
use std::sync::Wait;
use std::test::Fail;
use std::thread::Threads;

const MOST_REPORT: &str =
    "18446744073709551615\n--\nend quiet\nactors made 1 left 0\nobjects made 0 left 0\n";

const WRAPS_REPORT: &str =
    "18446744073709551615\n0\n--\nend quiet\nactors made 1 left 0\nobjects made 0 left 0\n";

const VALUES_REPORT: &str =
    "actor 0\nobject 0.0\nactor 0\nnull\n0\n--\nend quiet\nactors made 1 left 0\nobjects made 1 left 0\n";

const SEVEN_WITH_RETURNS: &str = "kind Main 0\r\non start 0\r\nint r0 7\r\nprint r0\r\nend\r\n";

const CUT_WITH_RETURNS: &str = "kind Main 0\r\non start 0\r\nint r0 7\r\nprint r0\r\nend";

const ZERO_SEVEN: &str = "kind Main 0\non start 0\nint r0 07\nend\n";

// The program whose sum is past the largest number, with another third line.
const ONE_PAST: &str =
    "kind Main 0\non start 0\nint r0 18446744073709551616\nprint r0\nint r1 1\nadd r0 r0 r1\nprint r0\nend\n";

const ZERO_ONE: &str =
    "kind Main 0\non start 0\nint r01 0\nprint r0\nint r1 1\nadd r0 r0 r1\nprint r0\nend\n";

const SIXTEEN: &str =
    "kind Main 0\non start 0\nint r16 0\nprint r0\nint r1 1\nadd r0 r0 r1\nprint r0\nend\n";

const BACKWARDS: &str = "kind Main 0\non start 0\nlabel a\njump a\nend\n";

const NO_REGISTER: &str = "kind Main 0\non start 0\nprint r16\nend";

const CALLS: &[Case] = &[
    (&[], SEVEN, 0, SEVEN_REPORT),
    (&["run"], SEVEN, 0, SEVEN_REPORT),
    (&["walk"], SEVEN, 2, "refused words\n"),
    (&["load"], SEVEN, 2, "refused words\n"),
    (&["load", "0"], SEVEN, 2, "refused words\n"),
    (&["load", "60001"], SEVEN, 2, "refused words\n"),
    (&["run", "--workers", "0"], SEVEN, 2, "refused words\n"),
    (&["run", "--workers", "17"], SEVEN, 2, "refused words\n"),
    (&["run", "--weight", "1"], SEVEN, 2, "refused words\n"),
    (&["run", "--weight", "65537"], SEVEN, 2, "refused words\n"),
    (&["run", "--trace", "none"], SEVEN, 2, "refused words\n"),
];

// Input, exit code and what is written.
const INPUTS: &[(&str, u8, &str)] = &[
    (SEVEN, 0, SEVEN_REPORT),
    (SEVEN_WITH_RETURNS, 0, SEVEN_REPORT),
    (CUT_WITH_RETURNS, 0, SEVEN_REPORT),
    (MOST, 0, MOST_REPORT),
    (WRAPS, 0, WRAPS_REPORT),
    (VALUES, 0, VALUES_REPORT),
    (ZERO_SEVEN, 3, "refused text line 3 kind 5\n"),
    (ONE_PAST, 3, "refused text line 3 kind 5\n"),
    (ZERO_ONE, 3, "refused text line 3 kind 5\n"),
    (
        SIXTEEN,
        4,
        "refused program kind 1 behaviour 1 step 1 rule 5\n",
    ),
    (
        BACKWARDS,
        4,
        "refused program kind 1 behaviour 1 step 2 rule 4\n",
    ),
    (
        NO_REGISTER,
        4,
        "refused program kind 1 behaviour 1 step 1 rule 5\n",
    ),
];

// The words of a run by as many workers as are usual, and by one.
const RUNS: &[&[&str]] = &[&[], &["run"], &["run", "--workers", "1"]];

/// Whether a run over such devices, by any of these words, ends with this code, and writes this.
fn runs_give<R: AllocGlobal + Threads + Wait + Sync>(
    rt: &R,
    input: &[u8],
    devices: (Device, Device),
    code: u8,
    written: &str,
) -> Result<bool, NoMemory> {
    for words in RUNS {
        if !gives_by(
            rt,
            *words,
            input,
            devices,
            &OpenGate,
            code,
            written.as_bytes(),
        )? {
            return Ok(false);
        }
    }
    Ok(true)
}

#[test]
fn words_and_inputs_give_what_they_should(rt: HostRuntime) -> Result<(), Fail> {
    assert_eq!(rt; first_wrong(&rt, CALLS)?, None);
    for (i, (input, code, written)) in INPUTS.iter().enumerate() {
        let devices = (SURE, SURE);
        assert!(rt;
            runs_give(&rt, input.as_bytes(), devices, *code, *written)?,
            "at {i}"
        );
    }
    Ok(())
}

// Cuts of the program that prints, from so many bytes to so many, with their exit code and what is written.
const CUTS: &[(usize, usize, u8, &str)] = &[
    (
        0,
        0,
        4,
        "refused program kind 0 behaviour 0 step 0 rule 1\n",
    ),
    (1, 3, 3, "refused text line 1 kind 3\n"),
    (4, 10, 3, "refused text line 1 kind 4\n"),
    (
        11,
        12,
        4,
        "refused program kind 0 behaviour 0 step 0 rule 1\n",
    ),
    (13, 13, 3, "refused text line 2 kind 3\n"),
    (14, 21, 3, "refused text line 2 kind 4\n"),
    (22, 23, 3, "refused text line 2 kind 8\n"),
    (24, 25, 3, "refused text line 3 kind 3\n"),
    (26, 30, 3, "refused text line 3 kind 4\n"),
    (31, 32, 3, "refused text line 3 kind 8\n"),
    (33, 36, 3, "refused text line 4 kind 3\n"),
    (37, 38, 3, "refused text line 4 kind 4\n"),
    (39, 39, 3, "refused text line 4 kind 5\n"),
    (40, 41, 3, "refused text line 4 kind 8\n"),
    (42, 43, 3, "refused text line 5 kind 3\n"),
    (44, 45, 0, SEVEN_REPORT),
];

/// Whether these cuts of the program that prints all end with this code, and write this.
fn cuts_give<R: AllocGlobal + Threads + Wait + Sync>(
    rt: &R,
    from: usize,
    to: usize,
    code: u8,
    written: &str,
) -> Result<bool, NoMemory> {
    for length in from..=to {
        let Some(cut) = SEVEN.as_bytes().get(..length) else {
            return Ok(false);
        };
        if !runs_give(rt, cut, (SURE, SURE), code, written)? {
            return Ok(false);
        }
    }
    Ok(true)
}

#[test]
fn cut_texts_are_refused_where_they_end(rt: HostRuntime) -> Result<(), Fail> {
    for (from, to, code, written) in CUTS {
        assert!(rt; cuts_give(&rt, *from, *to, *code, *written)?, "at {from}");
    }
    Ok(())
}

/// What stands before a piece, the piece, how often it stands there, and what follows.
pub(crate) type Text = (&'static str, &'static [u8], usize, &'static str);

pub(crate) fn bytes_of(alloc: Global, text: &Text) -> Result<Vec<u8>, NoMemory> {
    let (head, piece, times, tail) = *text;
    let mut bytes = head.as_bytes().to_vec(alloc)?;
    for _ in 0..times {
        bytes.extend_from_slice(piece)?;
    }
    bytes.extend_from_slice(tail.as_bytes())?;
    Ok(bytes)
}

// A text, exit code and what is written.
const LIMITS: &[(Text, u8, &str)] = &[
    (
        (
            "",
            b"#",
            256,
            "\nkind Main 0\non start 0\nint r0 7\nprint r0\nend\n",
        ),
        0,
        SEVEN_REPORT,
    ),
    (
        (
            "",
            b"#",
            257,
            "\nkind Main 0\non start 0\nint r0 7\nprint r0\nend\n",
        ),
        3,
        "refused text line 1 kind 2\n",
    ),
    (
        (
            "kind Main 0\non start 0\nint r0 7\nprint r0",
            b"\xC8",
            1,
            "\nend\n",
        ),
        3,
        "refused text line 4 kind 1\n",
    ),
    (
        ("kind Main 0\non start 0\n", b"pin\n", 1025, "end\n"),
        3,
        "refused text line 1027 kind 9\n",
    ),
    (
        ("", b"\n", 1_048_576, ""),
        4,
        "refused program kind 0 behaviour 0 step 0 rule 1\n",
    ),
    (("", b"\n", 1_048_577, ""), 10, "refused length\n"),
];

/// Whether runs of a text end with this code, and write this.
fn text_gives<R: AllocGlobal + Threads + Wait + Sync>(
    rt: &R,
    text: &Text,
    code: u8,
    written: &str,
) -> Result<bool, NoMemory> {
    let bytes = bytes_of(rt.alloc(), text)?;
    runs_give(rt, &bytes, (SURE, SURE), code, written)
}

#[test]
fn a_text_is_read_to_its_limit(rt: HostRuntime) -> Result<(), Fail> {
    for (i, (text, code, written)) in LIMITS.iter().enumerate() {
        assert!(rt; text_gives(&rt, text, *code, *written)?, "at {i}");
    }
    Ok(())
}

/// A device that takes so many bytes in a call, and fails at its call of this number.
fn failing(piece: usize, number: u64) -> Device {
    Device {
        piece,
        fails: Some(number),
    }
}

#[test]
fn a_source_fails_at_each_call_in_turn(rt: HostRuntime) -> Result<(), Fail> {
    for number in 1..=7 {
        let (code, written) = if number < 7 {
            (7, "refused read\n")
        } else {
            (0, SEVEN_REPORT)
        };
        let devices = (failing(9, number), SURE);
        assert!(rt;
            runs_give(&rt, SEVEN.as_bytes(), devices, code, written)?,
            "{number}"
        );
    }
    Ok(())
}

#[test]
fn a_sink_fails_at_each_call_in_turn(rt: HostRuntime) -> Result<(), Fail> {
    for (number, code, written) in [
        (1, 8, ""),
        (2, 8, "7\n--\nend quiet\nactor"),
        (3, 8, "7\n--\nend quiet\nactors made 1 left 0\nobje"),
        (4, 0, SEVEN_REPORT),
    ] {
        let devices = (SURE, failing(20, number));
        assert!(rt;
            runs_give(&rt, SEVEN.as_bytes(), devices, code, written)?,
            "{number}"
        );
    }
    Ok(())
}

#[test]
fn a_refusal_stands_where_its_line_fails(rt: HostRuntime) -> Result<(), Fail> {
    let devices = (SURE, failing(20, 1));
    assert!(rt; gives_by(&rt, &["walk"], SEVEN.as_bytes(), devices, &OpenGate, 2, b"")?);
    Ok(())
}

/// Whether the book of a run by one worker, which may have three entries at the most, has this text.
fn has_book(alloc: Global, input: &str, book: &str) -> Result<bool, NoMemory> {
    let order = Order {
        job: Job::Run,
        workers: 1,
        budget: 3,
        counts: false,
        book: false,
        weight: 256,
        trace: Trace::Deep,
        rows: None,
    };
    let mut source = source(alloc, input.as_bytes(), SURE)?;
    let mut sink = sink(alloc, SURE)?;
    let outcome = run_single(alloc, &order, &mut source, &mut sink);
    let told = told_of(alloc, &outcome)?;
    Ok(told.book.as_slice() == book.as_bytes())
}

#[test]
fn a_run_has_its_book(rt: HostRuntime) -> Result<(), Fail> {
    assert!(rt; has_book(rt.alloc(), SEVEN, "book 2 256\ntake 0\ngo 0\ngo 0\n")?);
    Ok(())
}
