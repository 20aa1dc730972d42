// A frame in memory of its own.

ghost use Rattle.std.specs.Prelude.{◌≡◌, ◌↔◌, false, is_some, option_map, IfOk, IsTrue, None, OnOk, Some, true};
ghost use Rattle.std.specs.Option.{option_copied};
ghost use Rattle.turn_rules.specs.Frames.{registers_of, standing, with_value};

use crate::act::Frame;
use crate::registers::RegisterFile;
use orca_names::{Args, NoMemory, Value};
use std::alloc::Global;
use std::marker::Model;
use std::mem;

/// Memory for a frame that will run: taken, or not yet. Contracts see whether it is taken.
#[derive(Debug, Drop)]
pub struct SpareFrame {
    room: Option<Box<Frame>>,
    alloc: Global,
}

impl Model for SpareFrame {
    ghost use Rattle.std.specs.Prelude.{Bool, is_some};

    ghost Value = { Bool };

    ghost view = { λ spare. is_some spare.room };
}

// A frame in which nothing stands yet.
#[inline(never)]
fn new_room(alloc: Global) -> Result<Box<Frame>, NoMemory> {
    let frame = Frame {
        kind: 0,
        behaviour: 0,
        place: 0,
        registers: RegisterFile::nulls(),
    };
    Ok(Box::new(alloc, frame)?)
}

impl SpareFrame {
    /// No memory is taken.
    #[inline(always)]
    pub fn new(alloc: Global) -> SpareFrame
        ensures { result ≡ false }
    {
        SpareFrame { room: None, alloc }
    }

    /// Takes the memory, if it is not taken yet: that of the other, where it has some.
    ///
    /// # Errors
    /// `NoMemory` where memory was refused.
    #[inline(always)]
    pub fn reserve_from(&mut self, other: &mut SpareFrame) -> Result<(), NoMemory>
        ensures { OnOk result (self.new ≡ true) }
    {
        if self.room.is_some() {
            return Ok(());
        }
        mem::swap(&mut self.room, &mut other.room);
        if self.room.is_none() {
            self.room = Some(new_room(self.alloc)?);
        }
        Ok(())
    }
}

/// The frame that runs, if one does, in memory of its own: it is large, and most actors are idle. It is
/// written in place. Contracts see the frame.
#[derive(Debug, Drop)]
pub struct BoxedFrame {
    frame: Option<Box<Frame>>,
}

impl Model for BoxedFrame {
    ghost use Rattle.std.specs.Prelude.{Option};
    ghost use Rattle.turn_rules.specs.Frames.{boxed};
    ghost use Rattle.turn_rules.specs.declared.act.Frame as act;

    ghost Value = { Option act.Frame };

    ghost view = { λ b. boxed b.frame };
}

impl BoxedFrame {
    /// No frame runs. It takes no memory.
    #[inline(always)]
    pub fn new() -> BoxedFrame
        ensures { result ≡ None }
    {
        BoxedFrame { frame: None }
    }

    /// The same frame runs, if one does.
    ///
    /// # Errors
    /// `NoMemory` where memory was refused.
    pub fn copy(&self, alloc: Global) -> Result<BoxedFrame, NoMemory>
        ensures { IfOk result (λ copied. copied ≡ self.now) }
    {
        let frame = match self.get() {
            Some(frame) => Some(Box::new(alloc, *frame)?),
            None => None,
        };
        Ok(BoxedFrame { frame })
    }

    /// Whether the same frame runs, or none in both.
    pub fn same(&self, other: &BoxedFrame) -> bool
        ensures { IsTrue result ↔ (self.now ≡ other.now) }
    {
        match self.get() {
            Some(frame) => match other.get() {
                Some(its) => frame == its,
                None => false,
            },
            None => !other.is_some(),
        }
    }

    /// Whether a frame runs.
    #[inline(always)]
    pub fn is_some(&self) -> bool
        ensures { result ≡ is_some self.now }
    {
        self.frame.is_some()
    }

    /// The frame that runs.
    #[inline(always)]
    pub fn get(&self) -> Option<&Frame>
        ensures { option_copied result ≡ self.now }
    {
        match &self.frame {
            Some(frame) => Some(&**frame),
            None => None,
        }
    }

    /// A behaviour starts with these arguments, in the memory that was taken for it.
    #[inline(always)]
    pub fn start(&mut self, spare: &mut SpareFrame, kind: u32, behaviour: u8, args: &Args)
        requires { spare.old ≡ true }
        ensures { let registers = registers_of args.now in
            self.new ≡ Some (record { kind = kind; behaviour = behaviour; place = 0; registers = registers }) }
    {
        mem::swap(&mut self.frame, &mut spare.room);
        let Some(frame) = &mut self.frame else {
            unreachable!();
        };
        frame.start(kind, behaviour, args);
    }

    /// The frame that runs stands at this place, with these registers.
    #[inline(always)]
    pub fn stop_at(&mut self, place: u32, registers: &RegisterFile)
        ensures { self.new ≡ option_map (standing place registers.now) self.old }
    {
        if let Some(frame) = &mut self.frame {
            frame.stop_at(place, registers);
        }
    }

    /// Writes a register of the frame that runs; past the last nothing is written.
    pub fn put(&mut self, register: u8, value: Value)
        ensures { self.new ≡ option_map (with_value register value) self.old }
    {
        if let Some(frame) = &mut self.frame {
            frame.registers.write(u64::from(register), value);
        }
    }

    /// No frame runs any more. Its memory serves again as the spare, where none is there.
    #[inline(always)]
    pub fn end(&mut self, spare: &mut SpareFrame)
        ensures { self.new ≡ None }
    {
        if spare.room.is_none() {
            mem::swap(&mut self.frame, &mut spare.room);
        } else {
            self.free();
        }
    }

    // Gives its memory back.
    #[inline(never)]
    fn free(&mut self)
        ensures { self.new ≡ None }
    {
        self.frame = None;
    }
}
