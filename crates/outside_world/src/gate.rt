// The gate before each evaluated segment.

use orca_names::ActorName;
use std::sync::Wait;

/// What a worker passes before it evaluates a segment, while it holds nothing that is shared.
/// It changes nothing of the run.
pub trait Gate {
    /// Lets a segment of `who` begin; `at` is the number of entries that the run book had when the
    /// worker claimed the actor.
    fn enter<R: Wait>(&self, rt: &R, who: ActorName, at: u64);
}

/// A gate that holds nobody up.
#[derive(Clone, Copy, Debug)]
pub struct OpenGate;

impl Gate for OpenGate {
    fn enter<R: Wait>(&self, _rt: &R, _who: ActorName, _at: u64) {}
}
