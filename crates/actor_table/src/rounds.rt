// The rounds of the one-worker order in which actors have events.

/// What the events of an actor in a round do.
#[derive(Clone, Copy, Debug, PartialEq, Eq)]
pub enum Round {
    /// The actor goes on or takes a letter.
    Acting,
    /// The actor collects, leaves or blocks, once nothing else is to be done.
    Settling,
}
