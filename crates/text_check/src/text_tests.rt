// Examples from outside of the contracts: where texts are refused, what is read, what is printed.

use crate::programs::program;
use crate::table::{Asked, Table, fault_text, holds, same_bytes, same_text};
use behaviour_code::Instr;
use behaviour_text::{FaultKind, TextErr, parse, print};
use orca_names::TEXT_LIMIT;
use std::alloc::Global;
use std::test::Fail;

const PRINTS_SEVEN: &str = "kind Main 0\non start 0\nint r0 7\nprint r0\nend\n";

// The line and the kind of the first fault of the first bytes of that text, by their number from
// none to 45, zeros where there is none.
const CUTS: &str = "\
0 0,1 3,1 3,1 3,1 4,1 4,1 4,1 4,1 4,1 4,1 4,0 0,0 0,2 3,2 4,2 4,\
2 4,2 4,2 4,2 4,2 4,2 4,2 8,2 8,3 3,3 3,3 4,3 4,3 4,3 4,3 4,3 8,\
3 8,4 3,4 3,4 3,4 3,4 4,4 4,4 5,4 8,4 8,5 3,5 3,0 0,0 0";

// The line and the kind of the first fault, zeros where there is none, of a line within a
// behaviour, which is the third of its text.
const LINES: Table = Table {
    asked: Asked::Program,
    head: "kind A 0\non b 0\n",
    rows: "\
0 0|drop r0;\
0 0|int r1 18446744073709551615;\
0 0|self r2;\
0 0|copy r3 r4;\
0 0|add r1 r2 r3;\
0 0|sub r1 r2 r3;\
0 0|mul r1 r2 r3;\
0 0|less r1 r2 r3;\
0 0|same r1 r2 r3;\
0 0|row r1 r2;\
0 0|row r1 r2 r3 r4 r5 r6 r7 r8 r9;\
0 0|get r1 r2 0;\
0 0|load r1 f0;\
0 0|store f18446744073709551615 r1;\
0 0|jump a;\
0 0|jzero r1 _;\
0 0|label abcdefghijklmnopqrstuvwxyz_AZ089;\
3 6|label abcdefghijklmnopqrstuvwxyz_AZ0189;\
0 0|label 7;\
0 0|pin;\
0 0|unpin;\
0 0|new r1 A;\
0 0|send r1 m;\
0 0|send r1 m r2 r3 r4 r5 r6 r7 r8 r9;\
0 0|print r99;\
0 0|\tprint  r0 \r;\
0 0|;\
0 0| # anything;\
0 0|#pin r;\
3 1|pin\x7f;\
3 1|\x0b;\
3 3|Pin;\
3 3|pins;\
3 3|7;\
3 3|int# r0 7;\
3 4|drop;\
3 4|drop r0 r1;\
3 4|int r0;\
3 4|int 0 x;\
3 4|self R;\
3 4|copy r0 f0;\
3 4|add r0 r1;\
3 4|sub r0 r1 r2 r3;\
3 4|mul r0 r1 2;\
3 4|less r0 r1 r2 r3;\
3 4|same r0 r1;\
3 4|row r0;\
3 4|row r0 r1 r2 r3 r4 r5 r6 r7 r8 r9;\
3 4|get r0 r1;\
3 4|load r0 r1;\
3 4|store r0 f1;\
3 4|jump;\
3 4|jzero a- b;\
3 4|label a b;\
3 4|pin r0;\
3 4|unpin r0;\
3 4|new A r0;\
3 4|send r0;\
3 4|send r0 m 1;\
3 4|send r0 m r1 r2 r3 r4 r5 r6 r7 r8 r9;\
3 4|print 7;\
3 4|end now;\
3 5|drop r;\
3 5|int r0 07;\
3 5|int r0 18446744073709551616;\
3 5|int r0 +7;\
3 5|copy r0 r-1;\
3 5|get r0 r1 r2;\
3 5|load r0 f;\
3 5|store f00 r1;\
3 5|row r0 r1x;\
3 5|jzero rx a-b;\
3 5|send r0 m! r;\
3 6|jump a-b;\
3 6|new r0 A.B;\
3 6|send r0 m! r1;\
3 5|kind B x;\
3 6|on c- 0;\
3 8|kind B 9;\
3 8|on c 9",
    tail: "\nend\n",
};

// The line and the kind of the first fault of a text, zeros where there is none.
const TEXTS: Table = Table {
    asked: Asked::Program,
    head: "",
    rows: "\
0 0|\n \n#;\
0 0|kind A 8;\
0 0|kind A 0\nkind A 0\non b 8\nend;\
1 9|kind A 9;\
2 9|kind A 0\non b 9\n;\
1 4|kind A;\
1 5|kind - 00;\
1 6|kind A-B 9;\
1 7|on b 9;\
1 7|end;\
2 7|kind A 0\nend;\
2 7|kind A 0\npin\n;\
4 7|kind A 0\non b 0\nend\nend;\
3 8|kind A 0\non b 0\non c 0\nend;\
4 8|kind A 0\non b 0\n\n# end\n;\
3 3|kind A 0\non b 0\nhello",
    tail: "",
};

// A head, a piece, how often it stands behind the head, a middle, and how often the piece stands
// behind that; and the line and the kind of the first fault of the text, zeros where there is none.
type Row = (
    &'static str,
    &'static [u8],
    usize,
    &'static str,
    usize,
    &'static str,
);

const LIMITS: &[Row] = &[
    ("", b"kind A 0\n", 256, "", 0, "0 0"),
    ("", b"kind A 0\n", 257, "", 0, "257 9"),
    ("kind A 0\n", b"on b 0\nend\n", 64, "kind B 0\n", 64, "0 0"),
    ("kind A 0\n", b"on b 0\nend\n", 65, "", 0, "130 9"),
    (
        "kind A 0\n",
        b"on b 0\nend\n",
        64,
        "kind B 0\n",
        65,
        "259 9",
    ),
    (
        "kind A 0\non b 0\n",
        b"pin\n",
        1024,
        "end\non c 0\n",
        1024,
        "2052 8",
    ),
    ("kind A 0\non b 0\n", b"pin\n", 1025, "end", 0, "1027 9"),
    (
        "kind A 0\non b 0\n",
        b"pin\n",
        1024,
        "end\non c 0\n",
        1025,
        "2053 9",
    ),
    ("", b"#", 256, "\nkind Main 0", 0, "0 0"),
    ("", b"#", 257, "\nkind Main 0", 0, "1 2"),
    ("", b"\n", TEXT_LIMIT, "", 0, "0 0"),
];

// Lines and a text that no string has.
const HIGH_LINES: &[Row] = &[
    ("kind A 0\non b 0\n# ", b"\xC8", 1, "\nend\n", 0, "3 1"),
    ("kind A 0\non b 0\nhello ", b"\x80", 1, "\nend\n", 0, "3 1"),
];

const HIGH_TEXTS: &[Row] = &[("hello\nkind A 9\n", b"\xC8", 1, "", 0, "1 3")];

/// The line and the kind of the first fault of a text, zeros where it has none.
pub fn fault_of_text(alloc: Global, text: &[u8]) -> Result<String, Fail> {
    if text.len() > TEXT_LIMIT {
        return Err(Fail::from("the text is too long"));
    }
    match parse(alloc, text) {
        Ok(_) => fault_text(alloc, 0, 0),
        Err(TextErr::Fault { line, kind }) => fault_text(alloc, line, kind.number()),
        Err(TextErr::NoMemory) => Err(Fail::from("out of memory")),
    }
}

/// Fails where a text has another first fault.
fn has_fault(alloc: Global, text: &[u8], want: &str) -> Result<(), Fail> {
    same_text(fault_of_text(alloc, text)?.as_str(), want)
}

fn push_times(text: &mut Vec<u8>, piece: &[u8], times: usize) -> Result<(), Fail> {
    for _ in 0..times {
        text.extend_from_slice(piece)?;
    }
    Ok(())
}

/// A text with a piece that stands in it several times, and again behind a middle.
fn repeated(
    alloc: Global,
    head: &str,
    piece: &[u8],
    times: usize,
    middle: &str,
    more: usize,
) -> Result<Vec<u8>, Fail> {
    let mut text = head.as_bytes().to_vec(alloc)?;
    push_times(&mut text, piece, times)?;
    text.extend_from_slice(middle.as_bytes())?;
    push_times(&mut text, piece, more)?;
    Ok(text)
}

fn row_holds(alloc: Global, row: &Row) -> Result<(), Fail> {
    let (head, piece, times, middle, more, want) = *row;
    let text = repeated(alloc, head, piece, times, middle, more)?;
    has_fault(alloc, text.as_slice(), want)
}

fn rows_hold(alloc: Global, rows: &[Row]) -> Result<(), Fail> {
    for row in rows {
        row_holds(alloc, row)?;
    }
    Ok(())
}

/// Fails where the first `n` bytes of that text have another first fault.
fn cut_has_fault(alloc: Global, n: usize, want: &str) -> Result<(), Fail> {
    let text = PRINTS_SEVEN.as_bytes().get(..n).ok_or("no such cut")?;
    has_fault(alloc, text, want)
}

#[test]
fn cut_texts_are_refused_where_they_end(rt: HostRuntime) -> Result<(), Fail> {
    for (n, want) in CUTS.split(',').enumerate() {
        cut_has_fault(rt.alloc(), n, want)?;
    }
    Ok(())
}

#[test]
fn lines_have_their_lowest_fault(rt: HostRuntime) -> Result<(), Fail> {
    LINES.holds(rt.alloc())?;
    rows_hold(rt.alloc(), HIGH_LINES)
}

#[test]
fn texts_have_their_first_fault(rt: HostRuntime) -> Result<(), Fail> {
    TEXTS.holds(rt.alloc())?;
    rows_hold(rt.alloc(), HIGH_TEXTS)
}

#[test]
fn limits_hold_to_the_last_one(rt: HostRuntime) -> Result<(), Fail> {
    rows_hold(rt.alloc(), LIMITS)
}

/// An instruction in numbers: which one it is, and its operands.
fn numbers(instr: &Instr) -> [u64; 4] {
    match instr {
        Instr::Sub(d, a, b) => [1, *d, *a, *b],
        Instr::Get(d, s, n) => [2, *d, *s, *n],
        Instr::Load(d, f) => [3, *d, *f, 0],
        Instr::Store(f, s) => [4, *f, *s, 0],
        Instr::JumpZero(a, label) => [5, *a, u64::from(label.name().0), 0],
        Instr::Send(to, name, values) => [
            6,
            *to,
            u64::from(name.0),
            values.as_slice().len() as u64,
        ],
        _ => [0; 4],
    }
}

/// Fails where the instructions of a body have other numbers.
fn has_numbers(alloc: Global, body: &[Instr], want: &[[u64; 4]]) -> Result<(), Fail> {
    let mut found = Vec::new(alloc);
    for instr in body {
        found.push(numbers(instr))?;
    }
    holds(found.as_slice() == want, "the operands")
}

const OPERANDS: &[[u64; 4]] = &[
    [1, 1, 2, 3],
    [2, 1, 2, 9],
    [3, 6, 7, 0],
    [4, 4, 5, 0],
    [5, 3, 1, 0],
    [6, 8, 2, 2],
];

#[test]
fn operands_stand_in_their_order(rt: HostRuntime) -> Result<(), Fail> {
    let alloc = rt.alloc();
    let text =
        "kind A 2\non b 3\nsub r1 r2 r3\nget r1 r2 9\nload r6 f7\nstore f4 r5\njzero r3 b\nsend r8 c r1 r2\nend";
    let program = program(alloc, text)?;
    has_numbers(alloc, program.body(0, 0), OPERANDS)
}

/// Fails where the program of a text is printed as another text.
fn is_printed_as(alloc: Global, text: &str, want: &str) -> Result<(), Fail> {
    let printed = print(alloc, &program(alloc, text)?)?;
    same_bytes(printed.as_slice(), want)
}

#[test]
fn programs_are_printed_as_their_canonical_texts(rt: HostRuntime) -> Result<(), Fail> {
    let alloc = rt.alloc();
    let spoken = "# one\n\n  kind   Main 0\non start 0\r\nend";
    is_printed_as(alloc, spoken, "kind Main 0\non start 0\nend\n")?;
    let all =
        "kind A 2\nkind B 0\non b 3\ndrop r0\nint r1 5\nself r2\ncopy r3 r4\nadd r1 r2 r3\nsub r1 r2 r3\nmul r1 r2 r3\nless r1 r2 r3\nsame r1 r2 r3\nrow r1 r2 r3\nget r1 r2 0\nload r1 f0\nstore f0 r1\njump a\njzero r1 a\nlabel a\npin\nunpin\nnew r1 A\nsend r1 b\nsend r1 m r2 r3\nprint r9\nend\non c 0\nend\n";
    is_printed_as(alloc, all, all)
}

fn is_told_as(alloc: Global, error: TextErr, want: &str) -> Result<(), Fail> {
    same_text(error.to_string(alloc)?.as_str(), want)
}

#[test]
fn errors_as_texts(rt: HostRuntime) -> Result<(), Fail> {
    let fault = TextErr::Fault {
        line: 3,
        kind: FaultKind::TooMany,
    };
    is_told_as(rt.alloc(), fault, "line 3 has a fault of kind 9")?;
    is_told_as(rt.alloc(), TextErr::NoMemory, "out of memory")
}
