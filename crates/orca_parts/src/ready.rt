// An event that was prepared.

use event_rule::Event;

/// An event for which all memory was taken. What was found of it stands in the machine, and stays good
/// until the machine prepares or does another.
#[derive(Drop)]
pub struct Ready {
    pub event: Event,
}
