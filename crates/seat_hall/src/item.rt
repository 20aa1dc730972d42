// What passes do to a hall, and what they know of it.

use behaviour_code::Program;
use event_rule::Event;
use orca_names::{ActorName, Options};
use std::collections::LinkedList;

/// What a call of a pass did to the hall: an item of the hall's log. Other calls add none.
#[derive(Clone, Copy, Debug, PartialEq, Eq)]
pub enum Item {
    /// A claim on the actor was granted.
    Claimed { pass: u32, actor: ActorName },
    /// The event became an entry, by a commit or at once.
    Entered { pass: u32, event: Event },
    /// A commit was refused: the claim on the actor has ended.
    Ended { pass: u32, actor: ActorName },
    /// A stop was asked.
    Stopped { pass: u32 },
    /// A pass was split off, and has this number.
    Made { pass: u32 },
}

/// What a pass knows of its hall beside the log. No value of it is made; it stands in proofs alone.
pub struct PassView {
    /// The program that runs.
    pub program: Program,
    /// The weight of an increment, and how far letters are traced.
    pub options: Options,
    /// The most entries that the book may have.
    pub budget: u64,
    /// Its own number, and behind it, under the turn alone, the number to give to a pass that is split
    /// off. A pass that was taken in by another has none.
    pub numbers: LinkedList<u32>,
}
