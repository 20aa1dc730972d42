// The programs of the tests, as texts.

use behaviour_check::{Checked, check};
use behaviour_text::parse;
use std::alloc::Global;
use std::test::Fail;

/// Prints a number.
pub(crate) const SEVEN: &str = "kind Main 0\non start 0\nint r0 7\nprint r0\nend\n";

/// Two actors print.
pub(crate) const TWO_PRINT: &str =
    "kind Main 0\non start 0\nnew r0 W\nnew r1 W\nsend r0 work\nsend r1 work\nend\nkind W 0\non work 0\nint r0 1\nprint r0\nend\n";

/// An actor gets two letters, and prints for each.
pub(crate) const PRINTS_TWICE: &str =
    "kind Main 0\non start 0\nnew r0 W\nsend r0 work\nsend r0 work\nend\nkind W 0\non work 0\nint r0 1\nprint r0\nend\n";

/// The program of a text.
pub(crate) fn checked(alloc: Global, text: &str) -> Result<Checked, Fail> {
    if text.len() > 4096 {
        return Err(Fail::from("a long text"));
    }
    Ok(check(parse(alloc, text.as_bytes())?)?)
}
