// Programs and their reports, by the words that the call is given.

use crate::calling::{Case, SURE, Told, first_wrong, sink, tell, tell_by};
use crate::programs::{
    ALL_LEAVES, CHAIN, DROPPED, KEPT, NAMED, ONE_LEAF_MORE, OPENED, PASSED, PEERS, PING, PINNED,
    REACHED_TWICE, SENT_TWICE, SEVEN, TO_ITSELF, UNHEARD,
};
use orca_names::{ActorName, NoMemory};
use outside_world::OpenGate;
use pony_run::Status;
use std::sync::Wait;
use std::test::Fail;
use std::thread::Threads;

const REPORTS: &[Case] = &[
    (
        &["run", "--workers", "1", "--book"],
        SEVEN,
        0,
        "7\n--\nend quiet\nactors made 1 left 0\nobjects made 0 left 0\nbook 2 256\ntake 0\ngo 0\ngo 0\ncollect 0\nleave 0\n",
    ),
    (
        &["run", "--workers", "1", "--budget", "4"],
        SEVEN,
        5,
        "7\n--\nend budget\nactors made 1 left 1\nobjects made 0 left 0\n",
    ),
    (
        &["run", "--workers", "1", "--budget", "5"],
        SEVEN,
        0,
        "7\n--\nend quiet\nactors made 1 left 0\nobjects made 0 left 0\n",
    ),
    (
        &["run", "--workers", "1", "--counts", "--book"],
        PINNED,
        0,
        "--\nend quiet\nactors made 1 left 1\nobjects made 1 left 1\nactor 0 count 0 inc 0 dec 0 held 0 letters 0\nobject 0.0 count 0 inc 0 dec 0 held 0 letters 0\nbook 2 256\ntake 0\ngo 0\ncollect 0\n",
    ),
    (
        &["run", "--workers", "1"],
        PASSED,
        0,
        "9\n--\nend quiet\nactors made 3 left 1\nobjects made 1 left 0\n",
    ),
    (
        &["run", "--workers", "1", "--weight", "2"],
        PASSED,
        0,
        "9\n--\nend quiet\nactors made 3 left 1\nobjects made 1 left 0\n",
    ),
    (
        &["run", "--workers", "1", "--budget", "24"],
        PASSED,
        5,
        "9\n--\nend budget\nactors made 3 left 2\nobjects made 1 left 0\n",
    ),
    (
        &["run", "--workers", "1", "--budget", "3", "--counts"],
        REACHED_TWICE,
        5,
        "--\nend budget\nactors made 2 left 2\nobjects made 2 left 2\nactor 0 count 1 inc 0 dec 0 held 0 letters 1\nobject 0.0 count 1 inc 0 dec 0 held 0 letters 1\nobject 0.1 count 1 inc 0 dec 0 held 0 letters 1\nactor 1 count 256 inc 0 dec 0 held 256 letters 0\n",
    ),
    (
        &["run", "--workers", "1", "--book"],
        TO_ITSELF,
        0,
        "--\nend quiet\nactors made 1 left 0\nobjects made 1 left 0\nbook 2 256\ntake 0\ngo 0\ngo 0\ntake 0\ngo 0\ncollect 0\nleave 0\n",
    ),
    (
        &["run", "--workers", "1"],
        PEERS,
        0,
        "--\nend quiet\nactors made 3 left 1\nobjects made 0 left 0\n",
    ),
    (
        &["run", "--workers", "4"],
        PEERS,
        0,
        "--\nend quiet\nactors made 3 left 1\nobjects made 0 left 0\n",
    ),
    (
        &["run", "--workers", "1", "--counts"],
        KEPT,
        0,
        "--\nend quiet\nactors made 2 left 2\nobjects made 1 left 1\nactor 0 count 0 inc 0 dec 0 held 0 letters 0\nactor 1 count 257 inc 0 dec 0 held 257 letters 0\nobject 1.0 count 1 inc 0 dec 0 held 1 letters 0\n",
    ),
    (
        &["run", "--workers", "1"],
        PING,
        0,
        "1\n--\nend quiet\nactors made 3 left 0\nobjects made 0 left 0\n",
    ),
    (
        &["run", "--workers", "1"],
        NAMED,
        0,
        "--\nend quiet\nactors made 3 left 1\nobjects made 1 left 0\n",
    ),
    (
        &["run", "--workers", "1", "--trace", "roots"],
        NAMED,
        0,
        "--\nend quiet\nactors made 3 left 2\nobjects made 1 left 1\n",
    ),
    (
        &["run", "--workers", "1", "--book"],
        UNHEARD,
        0,
        "1\n--\nend quiet\nactors made 1 left 1\nobjects made 1 left 0\nbook 2 256\ntake 0\ngo 0\ngo 0\ngo 0\ngo 0\ntake 0\ntake 0\ncollect 0\n",
    ),
    (
        &["run", "--workers", "1", "--budget", "3", "--counts"],
        UNHEARD,
        5,
        "--\nend budget\nactors made 1 left 1\nobjects made 1 left 1\nactor 0 count 2 inc 0 dec 0 held 0 letters 2\nobject 0.0 count 2 inc 0 dec 0 held 0 letters 2\n",
    ),
    (
        &[
            "run",
            "--workers",
            "1",
            "--weight",
            "2",
            "--budget",
            "5",
            "--counts",
        ],
        SENT_TWICE,
        5,
        "--\nend budget\nactors made 2 left 2\nobjects made 0 left 0\nactor 0 count 0 inc 0 dec 0 held 0 letters 0\nactor 1 count 2 inc 2 dec 0 held 2 letters 2\n",
    ),
    (
        &["run", "--workers", "1", "--budget", "5", "--counts"],
        SENT_TWICE,
        5,
        "--\nend budget\nactors made 2 left 2\nobjects made 0 left 0\nactor 0 count 0 inc 0 dec 0 held 0 letters 0\nactor 1 count 256 inc 0 dec 0 held 254 letters 2\n",
    ),
    (
        &["run", "--workers", "1", "--trace", "roots"],
        OPENED,
        0,
        "4\n--\nend quiet\nactors made 2 left 1\nobjects made 2 left 0\n",
    ),
    (
        &[
            "run",
            "--workers",
            "1",
            "--trace",
            "roots",
            "--budget",
            "6",
            "--counts",
        ],
        OPENED,
        5,
        "--\nend budget\nactors made 2 left 2\nobjects made 2 left 2\nactor 0 count 1 inc 0 dec 0 held 1 letters 0\nobject 0.0 count 0 inc 256 dec 0 held 256 letters 0\nobject 0.1 count 1 inc 0 dec 0 held 1 letters 0\nactor 1 count 256 inc 0 dec 0 held 256 letters 0\n",
    ),
    (
        &["run", "--workers", "1", "--budget=6", "--counts"],
        PASSED,
        5,
        "--\nend budget\nactors made 3 left 3\nobjects made 1 left 1\nactor 0 count 1 inc 0 dec 0 held 1 letters 0\nobject 0.0 count 1 inc 0 dec 0 held 1 letters 0\nactor 1 count 256 inc 0 dec 0 held 256 letters 0\nactor 2 count 256 inc 0 dec 0 held 256 letters 0\n",
    ),
    (
        &["run", "--workers", "1", "--budget=7", "--counts"],
        PASSED,
        5,
        "--\nend budget\nactors made 3 left 3\nobjects made 1 left 1\nactor 0 count 1 inc 256 dec 0 held 257 letters 0\nobject 0.0 count 1 inc 256 dec 0 held 257 letters 0\nactor 1 count 256 inc 0 dec 0 held 256 letters 0\nactor 2 count 256 inc 0 dec 0 held 256 letters 0\n",
    ),
    (
        &["run", "--workers", "1", "--budget=9", "--counts"],
        PASSED,
        5,
        "--\nend budget\nactors made 3 left 3\nobjects made 1 left 1\nactor 0 count 257 inc 0 dec 0 held 256 letters 1\nobject 0.0 count 257 inc 0 dec 0 held 256 letters 1\nactor 1 count 256 inc 0 dec 0 held 256 letters 0\nactor 2 count 256 inc 0 dec 0 held 256 letters 0\n",
    ),
    (
        &["run", "--workers", "1", "--budget=17", "--counts"],
        PASSED,
        5,
        "9\n--\nend budget\nactors made 3 left 3\nobjects made 1 left 1\nactor 0 count 257 inc 0 dec 256 held 1 letters 0\nobject 0.0 count 257 inc 0 dec 256 held 1 letters 0\nactor 1 count 0 inc 0 dec 0 held 0 letters 0\nactor 2 count 1 inc 0 dec 1 held 0 letters 0\n",
    ),
    (
        &[
            "run",
            "--workers",
            "1",
            "--weight=2",
            "--budget=6",
            "--counts",
        ],
        PASSED,
        5,
        "--\nend budget\nactors made 3 left 3\nobjects made 1 left 1\nactor 0 count 1 inc 0 dec 0 held 1 letters 0\nobject 0.0 count 1 inc 0 dec 0 held 1 letters 0\nactor 1 count 2 inc 0 dec 0 held 2 letters 0\nactor 2 count 2 inc 0 dec 0 held 2 letters 0\n",
    ),
    (
        &[
            "run",
            "--workers",
            "1",
            "--weight=2",
            "--budget=7",
            "--counts",
        ],
        PASSED,
        5,
        "--\nend budget\nactors made 3 left 3\nobjects made 1 left 1\nactor 0 count 1 inc 2 dec 0 held 3 letters 0\nobject 0.0 count 1 inc 2 dec 0 held 3 letters 0\nactor 1 count 2 inc 0 dec 0 held 2 letters 0\nactor 2 count 2 inc 0 dec 0 held 2 letters 0\n",
    ),
    (
        &[
            "run",
            "--workers",
            "1",
            "--weight=2",
            "--budget=9",
            "--counts",
        ],
        PASSED,
        5,
        "--\nend budget\nactors made 3 left 3\nobjects made 1 left 1\nactor 0 count 3 inc 0 dec 0 held 2 letters 1\nobject 0.0 count 3 inc 0 dec 0 held 2 letters 1\nactor 1 count 2 inc 0 dec 0 held 2 letters 0\nactor 2 count 2 inc 0 dec 0 held 2 letters 0\n",
    ),
    (
        &[
            "run",
            "--workers",
            "1",
            "--weight=2",
            "--budget=17",
            "--counts",
        ],
        PASSED,
        5,
        "9\n--\nend budget\nactors made 3 left 3\nobjects made 1 left 1\nactor 0 count 3 inc 0 dec 2 held 1 letters 0\nobject 0.0 count 3 inc 0 dec 2 held 1 letters 0\nactor 1 count 0 inc 0 dec 0 held 0 letters 0\nactor 2 count 1 inc 0 dec 1 held 0 letters 0\n",
    ),
    (
        &["run", "--workers", "1", "--budget=9", "--counts"],
        NAMED,
        5,
        "--\nend budget\nactors made 3 left 3\nobjects made 1 left 1\nactor 0 count 0 inc 0 dec 0 held 0 letters 0\nactor 1 count 257 inc 0 dec 0 held 256 letters 1\nobject 1.0 count 1 inc 0 dec 0 held 0 letters 1\nactor 2 count 256 inc 256 dec 0 held 511 letters 1\n",
    ),
    (
        &["run", "--workers", "1", "--budget=17", "--counts"],
        NAMED,
        5,
        "--\nend budget\nactors made 3 left 2\nobjects made 1 left 1\nactor 1 count 1 inc 0 dec 0 held 1 letters 0\nobject 1.0 count 1 inc 0 dec 0 held 1 letters 0\nactor 2 count 256 inc 0 dec 256 held 0 letters 0\n",
    ),
    (
        &["run", "--workers", "1", "--budget=10", "--counts"],
        DROPPED,
        5,
        "--\nend budget\nactors made 2 left 2\nobjects made 1 left 1\nactor 0 count 1 inc 0 dec 1 held 0 letters 0\nobject 0.0 count 1 inc 0 dec 1 held 0 letters 0\nactor 1 count 0 inc 0 dec 0 held 0 letters 0\n",
    ),
    (
        &["run", "--workers", "1", "--book"],
        DROPPED,
        0,
        "--\nend quiet\nactors made 2 left 0\nobjects made 1 left 0\nbook 2 256\ntake 0\ngo 0\ngo 0\ngo 0\ntake 1\ngo 1\ncollect 0\ntake 1\nblock 0\ncollect 1\ntake 0\ncollect 0\nleave 0\nleave 1\nhear\nhear\nscan\n",
    ),
    (
        &["run", "--workers", "1", "--book"],
        PEERS,
        0,
        "--\nend quiet\nactors made 3 left 1\nobjects made 0 left 0\nbook 2 256\ntake 0\ngo 0\ngo 0\ngo 0\ngo 0\ngo 0\ntake 1\ngo 1\ntake 2\ngo 2\ncollect 0\ntake 1\ntake 2\ncollect 1\nblock 1\ncollect 2\nblock 2\nhear\nhear\nscan\ntake 1\ntake 2\nhear\nhear\nreap 1\n",
    ),
    (
        &["run", "--workers", "1"],
        CHAIN,
        0,
        "--\nend quiet\nactors made 1 left 0\nobjects made 1000 left 0\n",
    ),
    (
        &["load", "200", "--workers", "4"],
        "",
        0,
        "200\n--\nend quiet\nactors made 201 left 0\nobjects made 1 left 0\n",
    ),
    (
        &["load", "1", "--workers", "1"],
        "",
        0,
        "1\n--\nend quiet\nactors made 2 left 0\nobjects made 1 left 0\n",
    ),
    (
        &["load", "3", "--workers", "1"],
        "",
        0,
        "3\n--\nend quiet\nactors made 4 left 0\nobjects made 1 left 0\n",
    ),
];

#[test]
fn runs_have_their_reports(rt: HostRuntime) -> Result<(), Fail> {
    assert_eq!(rt; first_wrong(&rt, REPORTS)?, None);
    Ok(())
}

// Words, input, how many entries the run book has, and how its text begins and ends.
type Entered = (
    &'static [&'static str],
    &'static str,
    u64,
    &'static str,
    &'static str,
);

const BOOKS: &[Entered] = &[
    (
        &["run", "--workers=1"],
        PASSED,
        25,
        "book 2 256\ntake 0\n",
        "\nleave 1\ncollect 2\ntake 0\ncollect 0\nleave 2\n",
    ),
    (
        &["run", "--workers=1", "--weight", "2"],
        PASSED,
        25,
        "book 2 2\ntake 0\n",
        "\nleave 2\n",
    ),
    (
        &["run", "--workers=1"],
        PEERS,
        25,
        "book 2 256\ntake 0\n",
        "\nreap 1\n",
    ),
    (
        &["run", "--workers=1"],
        KEPT,
        16,
        "book 2 256\ntake 0\n",
        "\nscan\n",
    ),
    (
        &["run", "--workers=1"],
        NAMED,
        22,
        "book 2 256\ntake 0\n",
        "\ncollect 1\n",
    ),
    (
        &["run", "--workers=1", "--trace", "roots"],
        NAMED,
        19,
        "book 2 256 roots\ntake 0\n",
        "\nscan\n",
    ),
    (
        &["run", "--workers=1", "--trace", "roots"],
        OPENED,
        15,
        "book 2 256 roots\ntake 0\n",
        "\n",
    ),
    (
        &["run", "--workers=1"],
        CHAIN,
        3007,
        "book 2 256\ntake 0\n",
        "\ncollect 0\nleave 0\n",
    ),
    (
        &["load", "3", "--workers=1"],
        "",
        49,
        "book 2 256\ntake 0\n",
        "\nreap 1\n",
    ),
];

/// Whether a call has a book of so many entries, whose text begins and ends so.
fn has_book<R: AllocGlobal + Threads + Wait + Sync>(
    rt: &R,
    case: &Entered,
) -> Result<bool, NoMemory> {
    let (words, input, length, begins, ends) = *case;
    let told = tell(rt, words, input.as_bytes())?;
    let book = told.book.as_slice();
    let is_long = told.entries == length;
    Ok(is_long && book.starts_with(begins.as_bytes()) && book.ends_with(ends.as_bytes()))
}

#[test]
fn runs_have_their_books(rt: HostRuntime) -> Result<(), Fail> {
    for (i, case) in BOOKS.iter().enumerate() {
        assert!(rt; has_book(&rt, case)?, "at {i}");
    }
    Ok(())
}

/// Whether a run within this budget ends so, with a book of so many entries, and writes this.
fn ends_so<R: AllocGlobal + Threads + Wait + Sync>(
    rt: &R,
    input: &str,
    budget: &str,
    end: (Status, u64),
    written: &str,
) -> Result<bool, NoMemory> {
    let words = ["run", "--workers", "1", "--budget", budget];
    let mut sink = sink(rt.alloc(), SURE)?;
    let told = tell_by(rt, &words, input.as_bytes(), SURE, &mut sink, &OpenGate)?;
    let is_long = told.entries == end.1;
    Ok(told.status == end.0 && is_long && sink.bytes() == written.as_bytes())
}

#[test]
fn a_run_ends_where_all_actors_are_made(rt: HostRuntime) -> Result<(), Fail> {
    let report = "--\nend actors\nactors made 65536 left 65536\nobjects made 0 left 0\n";
    let actor = ActorName(0);
    let end = (Status::ActorsFull { actor }, 262_144);
    assert!(rt; ends_so(&rt, ONE_LEAF_MORE, "1000000", end, report)?);
    Ok(())
}

#[test]
fn a_run_ends_by_its_budget(rt: HostRuntime) -> Result<(), Fail> {
    let report = "--\nend budget\nactors made 65536 left 65536\nobjects made 0 left 0\n";
    let end = (Status::Budget, 262_145);
    assert!(rt; ends_so(&rt, ALL_LEAVES, "262145", end, report)?);
    Ok(())
}
