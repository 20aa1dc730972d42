// Where an instruction leads, small enough to be handed on: what an act names stays in registers.

ghost use Rattle.std.specs.Prelude.{◌≡◌};
ghost use Rattle.turn_step.specs.Turns.{act_of, answer_of};

use crate::act::Act;
use crate::turn::Turn;
use behaviour_code::{Name, Registers, Target};
use orca_names::{ActorName, Thing};

/// What a turn does to others, and where it stops: an act whose values stand in registers.
#[derive(Clone, Copy, Debug)]
pub enum Deed<'p> {
    /// Sends the actor a letter for a behaviour, with the values of these registers.
    Post {
        to: ActorName,
        behaviour: Name,
        values: &'p Registers,
    },
    /// Makes an actor of a kind, which the register becomes.
    New {
        kind: u32,
        into: u64,
    },
    /// Prints the value of a register.
    Print {
        register: u64,
    },
    /// Ends the behaviour.
    End,
}

/// Where one instruction leads.
#[derive(Clone, Copy, Debug)]
pub(crate) enum Lead<'p> {
    /// To the next instruction.
    Next,
    /// Behind the next label of this name.
    Leap(&'p Target),
    /// Out of the turn, by a deed.
    Does(Deed<'p>),
    /// Out of the turn, since it gets a thing that the actor needs.
    Needs(Thing),
}

/// What a turn stopped with: its deed, and the place behind it.
#[derive(Clone, Copy, Debug)]
pub struct Stopped<'p> {
    pub deed: Deed<'p>,
    pub place: u32,
}

/// How a turn ends.
#[derive(Clone, Copy, Debug)]
pub enum Halt<'p> {
    /// By a deed.
    Stops(Stopped<'p>),
    /// By no deed: it gets this thing from a row, which the actor does not hold, or not its owner.
    Needs(Thing),
}

/// The act of a deed.
pub(crate) fn act_of(deed: &Deed<'_>, turn: &Turn) -> Act
    ensures { result ≡ answer_of (act_of deed.now turn.now) }
{
    match *deed {
        Deed::Post {
            to,
            behaviour,
            values,
        } => Act::Post {
            to,
            behaviour,
            args: turn.gather(values.as_slice()),
        },
        Deed::New { kind, into } => Act::New { kind, into },
        Deed::Print { register } => Act::Print {
            value: turn.value(register),
        },
        Deed::End => Act::End,
    }
}
