// What a turn answers.

use behaviour_code::Name;
use orca_names::{ActorName, Args, Thing, Value};

/// What a turn does to others, and where it stops.
#[derive(Clone, Copy, Debug, PartialEq, Eq)]
pub enum Act {
    /// Sends the actor a letter for a behaviour, with these arguments.
    Post {
        to: ActorName,
        behaviour: Name,
        args: Args,
    },
    /// Makes an actor of a kind, which the register becomes.
    New {
        kind: u32,
        into: u64,
    },
    /// Prints a value.
    Print {
        value: Value,
    },
    /// Ends the behaviour.
    End,
    /// Does nothing: the turn would get this thing from a row, and the actor does not hold it, or
    /// not its owner.
    Need {
        thing: Thing,
    },
}
