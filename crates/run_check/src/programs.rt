// The programs of the tests, as texts.

use behaviour_check::{Checked, check};
use behaviour_text::parse;
use std::alloc::Global;
use std::test::Fail;

/// An object goes from the first actor to a second and on to a third, which drops it.
pub(crate) const PASSED: &str =
    "kind Main 0\non start 0\npin\nnew r0 A\nnew r1 B\nint r2 9\nrow r3 r2\nsend r0 give r3 r1\nend\nkind A 0\non give 2\nsend r1 keep r0\nend\nkind B 0\non keep 1\nget r1 r0 0\nprint r1\nend\n";

/// Two peers hold each other, and nobody else holds them in the end.
pub(crate) const PEERS: &str =
    "kind Main 0\non start 0\npin\nnew r0 Peer\nnew r1 Peer\nsend r0 meet r1\nsend r1 meet r0\nend\nkind Peer 1\non meet 1\nstore f0 r0\nend\n";

/// Two actors print.
pub(crate) const TWO_PRINT: &str =
    "kind Main 0\non start 0\nnew r0 W\nnew r1 W\nsend r0 work\nsend r1 work\nend\nkind W 0\non work 0\nint r0 1\nprint r0\nend\n";

/// The program of a text.
pub(crate) fn checked(alloc: Global, text: &str) -> Result<Checked, Fail> {
    if text.len() > 4096 {
        return Err(Fail::from("a long text"));
    }
    Ok(check(parse(alloc, text.as_bytes())?)?)
}
