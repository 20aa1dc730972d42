// Why a thing is left.

use crate::names::Thing;

/// By what a thing leads to another.
#[derive(Clone, Copy, Debug, PartialEq, Eq)]
pub enum Edge {
    /// The field of an actor.
    Field(u8),
    /// The register of an actor that stands within a turn.
    Register(u8),
    /// The argument of a letter that waits for an actor, counted from 0 among all its letters.
    Letter { letter: u64, argument: u8 },
    /// The place of an object's row.
    Place(u8),
    /// An object leads to its owner.
    Owner,
}

/// What keeps a thing, or that nothing does.
#[derive(Clone, Copy, Debug, PartialEq, Eq)]
pub enum Why {
    /// A pinned actor.
    Pinned,
    /// An actor that stands within a turn.
    Frame,
    /// An actor for which an application letter waits.
    Letter,
    /// The parent leads to it.
    By { parent: Thing, edge: Edge },
    /// Nothing leads to it any more; it will be collected.
    Loose,
}

/// Why a thing is left, and by how many steps at least it is reached from an actor that can act by
/// itself. The level of a loose thing is 0.
#[derive(Clone, Copy, Debug, PartialEq, Eq)]
pub struct Reason {
    pub thing: Thing,
    pub level: u64,
    pub why: Why,
}
