// Runs whose rows lie in blocks, beside the same runs with rows at hand.

use crate::calling::{Case, Device, SURE, first_wrong, gives_by, sink, tell_by};
use crate::programs::{
    CHAIN, DROPPED, KEPT, MADE_AGAIN, NAMED, NESTED, PASSED, PEERS, PINNED, REACHED_TWICE, SEVEN,
    TO_ITSELF, UNHEARD, VALUES,
};
use orca_names::NoMemory;
use outside_world::OpenGate;
use std::sync::Wait;
use std::test::Fail;
use std::thread::Threads;

const LACKED: &str = "--\nend rows\nactors made 2 left 2\nobjects made 0 left 0\n";

const BLOCKS: &[Case] = &[
    (
        &["run", "--workers", "1", "--rows", "2"],
        REACHED_TWICE,
        0,
        "--\nend quiet\nactors made 2 left 1\nobjects made 2 left 0\n",
    ),
    (
        &["run", "--workers", "1", "--rows", "1"],
        REACHED_TWICE,
        11,
        LACKED,
    ),
    (&["run", "--rows=1"], REACHED_TWICE, 11, LACKED),
    (
        &["run", "--workers", "1", "--rows", "1"],
        MADE_AGAIN,
        11,
        "--\nend rows\nactors made 1 left 1\nobjects made 1 left 1\n",
    ),
    (
        &["run", "--workers", "1", "--rows", "1", "--counts", "--book"],
        MADE_AGAIN,
        11,
        "--\nend rows\nactors made 1 left 1\nobjects made 1 left 1\nactor 0 count 0 inc 0 dec 0 held 0 letters 0\nobject 0.0 count 0 inc 0 dec 0 held 0 letters 0\nbook 2 256\ntake 0\ngo 0\ngo 0\ntake 0\n",
    ),
    // The budget comes before the end for rows, and an end without an event before both.
    (
        &["run", "--rows", "1", "--budget", "4"],
        MADE_AGAIN,
        5,
        "--\nend budget\nactors made 1 left 1\nobjects made 1 left 1\n",
    ),
    (
        &["run", "--rows", "1"],
        SEVEN,
        0,
        "7\n--\nend quiet\nactors made 1 left 0\nobjects made 0 left 0\n",
    ),
    (
        &["load", "40", "--rows", "1"],
        "",
        0,
        "40\n--\nend quiet\nactors made 41 left 0\nobjects made 1 left 0\n",
    ),
    (&["run", "--rows", "0"], SEVEN, 2, "refused words\n"),
    (&["run", "--rows", "65537"], SEVEN, 2, "refused words\n"),
    (
        &["run", "--rows", "9", "--trace", "roots"],
        SEVEN,
        2,
        "refused words\n",
    ),
    (&["audit", "--rows", "9"], SEVEN, 2, "refused words\n"),
    (&["why", "--rows", "9"], SEVEN, 2, "refused words\n"),
];

#[test]
fn blocks_are_enough_or_lacked(rt: HostRuntime) -> Result<(), Fail> {
    assert_eq!(rt; first_wrong(&rt, BLOCKS)?, None);
    Ok(())
}

// Programs, and how many blocks each needs at the least by one worker.
const NEEDS: &[(&str, &str)] = &[
    (SEVEN, "1"),
    (VALUES, "1"),
    (PINNED, "1"),
    (TO_ITSELF, "1"),
    (PASSED, "1"),
    (KEPT, "1"),
    (NAMED, "1"),
    (DROPPED, "1"),
    (UNHEARD, "1"),
    (PEERS, "1"),
    (REACHED_TWICE, "2"),
    (NESTED, "2"),
    (MADE_AGAIN, "2"),
    (CHAIN, "1000"),
];

/// Whether the run of a program with so many blocks has the book and the report, with its counts, of the
/// run whose rows lie at hand.
fn is_as_at_hand<R: AllocGlobal + Threads + Wait + Sync>(
    rt: &R,
    program: &str,
    blocks: &str,
) -> Result<bool, NoMemory> {
    let (mut one, mut other) = (sink(rt.alloc(), SURE)?, sink(rt.alloc(), SURE)?);
    let words = ["run", "--workers", "1", "--counts", "--book"];
    let at_hand = tell_by(rt, &words, program.as_bytes(), SURE, &mut one, &OpenGate)?;
    let words = ["run", "--counts", "--book", "--rows", blocks];
    let in_blocks = tell_by(rt, &words, program.as_bytes(), SURE, &mut other, &OpenGate)?;
    Ok(
        at_hand.status == in_blocks.status
            && at_hand.book == in_blocks.book
            && one.bytes() == other.bytes(),
    )
}

#[test]
fn with_enough_blocks_all_is_as_with_rows_at_hand(rt: HostRuntime) -> Result<(), Fail> {
    for (i, (program, least)) in NEEDS.iter().enumerate() {
        assert!(rt; is_as_at_hand(&rt, *program, *least)?, "at {i}");
        assert!(rt; is_as_at_hand(&rt, *program, "65536")?, "at {i}");
    }
    Ok(())
}

#[test]
fn with_a_block_less_rows_are_lacked(rt: HostRuntime) -> Result<(), Fail> {
    for (program, blocks) in [
        (REACHED_TWICE, "1"),
        (NESTED, "1"),
        (MADE_AGAIN, "1"),
        (CHAIN, "999"),
    ] {
        let mut sink = sink(rt.alloc(), SURE)?;
        let words = ["run", "--rows", blocks];
        let told = tell_by(&rt, &words, program.as_bytes(), SURE, &mut sink, &OpenGate)?;
        assert_eq!(rt; told.status.code(), 11);
    }
    Ok(())
}

#[test]
fn a_report_of_lacked_rows_may_be_cut(rt: HostRuntime) -> Result<(), Fail> {
    for (number, code, written) in [
        (1, 8, ""),
        (2, 8, "--\nend rows\nactors m"),
        (3, 8, "--\nend rows\nactors made 2 left 2\nobjects"),
        (4, 11, LACKED),
    ] {
        let devices = (
            SURE,
            Device {
                piece: 20,
                fails: Some(number),
            },
        );
        let words = ["run", "--rows", "1"];
        let input = REACHED_TWICE.as_bytes();
        assert!(rt;
            gives_by(
                &rt,
                &words,
                input,
                devices,
                &OpenGate,
                code,
                written.as_bytes()
            )?,
            "{number}"
        );
    }
    Ok(())
}
