// Room for a frame.

ghost use Rattle.std.specs.Prelude.{◌≡◌, is_some, None, Some};
ghost use Rattle.std.specs.Option.{option_copied};
ghost use Rattle.turn_rules.specs.Frames.{registers_of};

use crate::act::Frame;
use crate::registers::RegisterFile;
use orca_names::Args;
use std::marker::Model;

/// Room for one frame, seen as the frame that runs, if one does. A frame is written in place: no
/// frame is ever moved.
#[derive(Debug, Drop)]
pub struct FrameRoom {
    runs: bool,
    frame: Frame,
}

impl Model for FrameRoom {
    ghost use Rattle.std.specs.Prelude.{if◌then◌else◌, Option, Some, None};
    ghost use Rattle.turn_rules.specs.declared.act.Frame as act;

    ghost Value = { Option act.Frame };

    ghost view = { λ r. if r.runs then Some r.frame else None };
}

impl FrameRoom {
    /// Room in which no frame runs.
    pub fn new() -> FrameRoom
        ensures { result ≡ None }
    {
        FrameRoom {
            runs: false,
            frame: Frame {
                kind: 0,
                behaviour: 0,
                place: 0,
                registers: RegisterFile::nulls(),
            },
        }
    }

    /// Whether a frame runs.
    pub fn is_some(&self) -> bool
        ensures { result ≡ is_some self.now }
    {
        self.runs
    }

    /// The frame that runs.
    pub fn get(&self) -> Option<&Frame>
        ensures { option_copied result ≡ self.now }
    {
        if self.runs { Some(&self.frame) } else { None }
    }

    /// A behaviour starts with these arguments.
    pub fn start(&mut self, kind: u32, behaviour: u8, args: &Args)
        ensures { let registers = registers_of args.now in
            self.new ≡ Some (record { kind = kind; behaviour = behaviour; place = 0; registers = registers }) }
    {
        self.frame.start(kind, behaviour, args);
        self.runs = true;
    }

    /// The frame stands at this place, with these registers.
    pub fn keep(&mut self, kind: u32, behaviour: u8, place: u32, registers: &RegisterFile)
        ensures { let values = registers.now in
            self.new ≡ Some (record { kind = kind; behaviour = behaviour; place = place; registers = values }) }
    {
        let frame = &mut self.frame;
        frame.kind = kind;
        frame.behaviour = behaviour;
        frame.place = place;
        frame.registers = *registers;
        self.runs = true;
    }

    /// No frame runs any more.
    pub fn end(&mut self)
        ensures { self.new ≡ None }
    {
        self.runs = false;
    }
}
