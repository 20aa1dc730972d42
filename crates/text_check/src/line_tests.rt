// Where lines end, and the faults of lines by themselves.

use crate::table::holds;
use std::alloc::Global;
use std::test::Fail;
use text_lines::{LineKind, LineSpan, is_space, lines};

const fn span(from: usize, to: usize) -> LineSpan {
    LineSpan {
        from,
        to,
        fault: None,
    }
}

const fn faulty(from: usize, to: usize, fault: LineKind) -> LineSpan {
    LineSpan {
        from,
        to,
        fault: Some(fault),
    }
}

/// Fails where a text has other lines.
fn has_lines(alloc: Global, text: &[u8], want: &[LineSpan]) -> Result<(), Fail> {
    let found = lines(alloc, text)?;
    if found.as_slice() == want {
        Ok(())
    } else {
        Err(Fail::new(format_args!("{found:?}")))
    }
}

#[test]
fn lines_end_at_line_feeds(rt: HostRuntime) -> Result<(), Fail> {
    let alloc = rt.alloc();
    has_lines(alloc, b"", &[])?;
    has_lines(alloc, b"\n\n", &[span(0, 0), span(1, 1)])?;
    has_lines(alloc, "pin\r\nend".as_bytes(), &[span(0, 4), span(5, 8)])?;
    holds(is_space(b'\t') && !is_space(b'\n'), "spaces")
}

#[test]
fn lines_tell_their_lowest_fault(rt: HostRuntime) -> Result<(), Fail> {
    let mut text = [b'#'; 1030];
    text[256] = b'\n';
    text[300] = 127;
    text[514] = b'\n';
    text[772] = b'\n';
    text[773] = b'~';
    text[774] = b'\n';
    text[775] = 31;
    text[776] = b'\n';
    text[777] = 200;
    let want = [
        span(0, 256),
        faulty(257, 514, LineKind::NotAscii),
        faulty(515, 772, LineKind::LongLine),
        span(773, 774),
        faulty(775, 776, LineKind::NotAscii),
        faulty(777, 1030, LineKind::NotAscii),
    ];
    has_lines(rt.alloc(), &text, &want)
}
