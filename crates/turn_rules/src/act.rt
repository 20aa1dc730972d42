// Acts and effects, of which the definition of a segment speaks, and frames.

ghost use Rattle.std.specs.Prelude.{◌≡◌};
ghost use Rattle.turn_rules.specs.Frames.{registers_of, standing};

use crate::registers::RegisterFile;
use behaviour_code::Name;
use orca_names::{ActorName, Args, Value};

/// What a turn does to others, and where it stops, as the definition has it.
#[derive(Clone, Copy, Debug)]
pub enum Act {
    /// Sends the actor a letter for a behaviour, with these arguments.
    Post {
        to: ActorName,
        behaviour: Name,
        args: Args,
    },
    /// Makes an actor of a kind, which the register becomes.
    New {
        kind: u32,
        into: u64,
    },
    /// Prints a value.
    Print {
        value: Value,
    },
    /// Ends the behaviour.
    End,
}

/// Where one instruction leads, as the definition has it.
#[derive(Clone, Copy, Debug)]
pub enum Effect {
    /// To the next instruction.
    Next,
    /// Behind the next label of this name.
    Leap(Name),
    /// Out of the turn, by an act.
    Acts(Act),
}

/// A behaviour that runs: its kind and its place among the kind's behaviours, the place of its next
/// instruction, and its registers.
#[derive(Clone, Copy, Debug, PartialEq, Eq)]
pub struct Frame {
    pub kind: u32,
    pub behaviour: u8,
    pub place: u32,
    pub registers: RegisterFile,
}

impl Frame {
    // A behaviour starts with these arguments.
    #[inline(always)]
    pub(crate) fn start(&mut self, kind: u32, behaviour: u8, args: &Args)
        ensures { let registers = registers_of args.now in
            self.new ≡ record { kind = kind; behaviour = behaviour; place = 0; registers = registers } }
    {
        self.kind = kind;
        self.behaviour = behaviour;
        self.place = 0;
        self.registers.start(args);
    }

    // It stands at this place, with these registers.
    #[inline(always)]
    pub(crate) fn stop_at(&mut self, place: u32, registers: &RegisterFile)
        ensures { self.new ≡ standing place registers.now self.old }
    {
        self.place = place;
        self.registers = *registers;
    }
}
