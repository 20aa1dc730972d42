//! The lines of a text, and what may be wrong with a line by itself.
#![tactic(auto)]

ghost use Rattle.std.specs.Prelude.{◌≡◌, ◌<◌, ◌≤◌, ◌≢◌, ℕ, not, IfOk, All, map, length, slice_index};
ghost use Rattle.std.specs.List.{list_any};
ghost use Rattle.text_lines.specs.Lines.{FollowFrom, is_space, is_allowed, line_fault, line_at, lines_of, with_fault};

use orca_names::{LINE_LIMIT, NoMemory};
use std::alloc::Global;

/// What may be wrong with a line by itself.
#[derive(Clone, Copy, Debug, PartialEq, Eq)]
pub enum LineKind {
    /// It has a byte that is not allowed.
    NotAscii,
    /// It has more than 256 bytes.
    LongLine,
}

/// Where a line stands among the bytes of its text, without its line feed.
#[derive(Clone, Copy, Debug, PartialEq, Eq)]
pub struct LineSpan {
    pub from: usize,
    pub to: usize,
    /// The lowest fault that the line has by itself.
    pub fault: Option<LineKind>,
}

/// Whether a byte is a space: a tab, a carriage return or a blank.
pub fn is_space(byte: u8) -> bool
    ensures { result ≡ is_space byte }
{
    byte == b'\t' || byte == b'\r' || byte == b' '
}

fn is_allowed(byte: u8) -> bool
    ensures { result ≡ is_allowed byte }
{
    (33 <= byte && byte <= 126) || is_space(byte)
}

fn has_foreign_byte(line: &[u8]) -> bool
    ensures { result ≡ list_any (λ b. not (is_allowed b)) line.now }
{
    line.iter().any(|byte| !is_allowed(*byte))
}

fn line_fault(line: &[u8]) -> Option<LineKind>
    ensures { result ≡ line_fault line.now }
{
    if has_foreign_byte(line) {
        Some(LineKind::NotAscii)
    } else if line.len() > LINE_LIMIT {
        Some(LineKind::LongLine)
    } else {
        None
    }
}

/// The place of the first line feed, or the end where there is none.
pub fn line_end(rest: &[u8]) -> usize
    ensures within { result ≤ length rest.now }
    ensures before { (k : ℕ) → k < result → slice_index rest.now k ≢ 10 }
    ensures found { result < length rest.now → slice_index rest.now result ≡ 10 }
{
    for (i, byte) in rest.iter().enumerate() {
        if *byte == b'\n' {
            return i;
        }
    }
    rest.len()
}

/// The lines of a text, in order. A line ends with a line feed; a last piece that is not empty is
/// a line too.
///
/// # Errors
/// Where memory is refused, and only there.
pub fn lines(alloc: Global, bytes: &[u8]) -> Result<Vec<LineSpan>, NoMemory>
    ensures lines { IfOk result (λ spans. map (line_at bytes.now) spans.items
        ≡ map with_fault (lines_of bytes.now)) }
    ensures follow { IfOk result (λ spans. FollowFrom 0 spans.items) }
    ensures count { IfOk result (λ spans. length spans.items ≤ length bytes.now) }
    ensures within { IfOk result
        (λ spans. All (λ s. (s.from ≤ s.to) × (s.to ≤ length bytes.now)) spans.items) }
{
    let mut spans = Vec::new(alloc);
    let mut from = 0;
    while from < bytes.len() {
        let to = from + line_end(&bytes[from..]);
        let fault = line_fault(&bytes[from..to]);
        spans.push(LineSpan { from, to, fault })?;
        from = to + 1;
    }
    Ok(spans)
}
