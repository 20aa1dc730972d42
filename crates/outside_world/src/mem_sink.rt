// A sink in memory.

ghost use Rattle.std.specs.Prelude.{◌≡◌, ◌<◌, ◌≤◌, ◌+◌, ◌-◌, ◌++◌, ◌↔◌, ◌⊎◌, [], min, length, take, Contains, IsErr, IfOk, OnErr, Some};
ghost use Rattle.outside_world.specs.Device.{CountsFaults, TakesSome, WritesFront, one_more};
ghost use Rattle.outside_world.specs.Memory.{after_write, after_failed_write};

use crate::device::{Failed, Sink};
use orca_names::NoMemory;
use std::alloc::Global;
use std::marker::Model;

/// A sink into memory, which tells what was written and fails at chosen calls, or where it is full.
#[derive(Debug, Drop)]
pub struct MemSink {
    held: Vec<u8>,
    room: usize,
    piece: usize,
    fails: Vec<u64>,
    calls: u64,
    faults: u64,
}

impl Model for MemSink {
    ghost use Rattle.std.specs.Prelude.{◌<◌, ◌≤◌, vec_len, vec_capacity};
    ghost use Rattle.outside_world.specs.Memory.{MemoryWritten};

    ghost Value = { MemoryWritten };

    ghost view = { λ m. record {
      written = m.held.items;
      room = m.room;
      piece = m.piece;
      fails = m.fails.items;
      calls = m.calls;
      faults = m.faults;
    } };

    ghost invariant = { λ m. (0 < m.piece) × (vec_len m.held ≤ m.room)
        × (m.room ≤ vec_capacity m.held) };
}

impl MemSink {
    /// An empty sink with room for `room` bytes, for which it takes its memory here. Each call takes
    /// at most `piece` bytes; the calls whose numbers, counted from 1, are among `fails` fail, and so
    /// does each call that finds no room left.
    ///
    /// # Errors
    /// `NoMemory` where memory was refused.
    pub fn new(
        alloc: Global,
        room: usize,
        piece: usize,
        fails: Vec<u64>,
    ) -> Result<MemSink, NoMemory>
        requires { 0 < piece }
        ensures { IfOk result (λ sink. sink
            ≡ record {
              written = [];
              room = room;
              piece = piece;
              fails = fails.items;
              calls = 0;
              faults = 0;
            }) }
    {
        Ok(MemSink {
            held: Vec::with_capacity(alloc, room)?,
            room,
            piece,
            fails,
            calls: 0,
            faults: 0,
        })
    }

    /// What was written.
    pub fn bytes(&self) -> &[u8]
        ensures { result.now ≡ self.now.written }
    {
        self.held.as_slice()
    }
}

impl Sink for MemSink {
    ghost written = { λ m. Some m.written };

    ghost faults = { λ m. m.faults };

    fn write(&mut self, piece: &[u8]) -> Result<usize, Failed>
        requires { 0 < length piece.now }
        ensures some { TakesSome result piece.now }
        ensures bytes { WritesFront (Some self.old.written) (Some self.new.written) result piece.now }
        ensures cause { CountsFaults self.old.faults self.new.faults result }

        // It fails exactly at the calls that were named and where it is full, and else takes all
        // that it may.
        ensures fails { IsErr result
            ↔ (Contains self.old.fails (one_more self.old.calls)
            ⊎ (self.old.room ≤ length self.old.written)) }
        ensures count { IfOk result (λ n. n
            ≡ min (min (length piece.now) self.old.piece) (self.old.room - length self.old.written)) }
        ensures ok { IfOk result (λ n. self.new ≡ after_write self.old (take n piece.now)) }
        ensures err { OnErr result (self.new ≡ after_failed_write self.old) }
    {
        self.calls = self.calls.saturating_add(1);
        let room = self.room - self.held.len();
        if room == 0 || self.fails.contains(&self.calls) {
            self.faults = self.faults.saturating_add(1);
            return Err(Failed);
        }
        let count = piece.len().min(self.piece).min(room);
        match self.held.extend_from_slice(&piece[..count]) {
            Ok(()) => Ok(count),
            Err(_) => unreachable!(),
        }
    }
}
