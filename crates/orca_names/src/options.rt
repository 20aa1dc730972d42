// What a run may choose.

use crate::trace::Trace;

/// What a run may choose: by how much an increment raises a count, and how letters are traced.
#[derive(Clone, Copy, Debug, PartialEq, Eq)]
pub struct Options {
    /// The amount of an increment, and the first count of a new actor.
    pub weight: u32,
    pub trace: Trace,
}
