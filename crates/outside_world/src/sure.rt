// Devices that never fail.

ghost use Rattle.std.specs.Prelude.{◌≡◌, ◌<◌, ◌≤◌, drop, false, min, length, Some, None, IsOkAnd};
ghost use Rattle.std.specs.Io.{ReadsAtMost};
ghost use Rattle.std.specs.Io.KnownBytes.{ReadConsumes};
ghost use Rattle.outside_world.specs.Device.{CountsFaults, TakesSome, WritesFront, is_end};
ghost use Rattle.outside_world.specs.Memory.{SureLeft};

use crate::device::{Failed, Sink, Source};
use crate::mem_source::copy_front;
use std::marker::Model;

/// A source over bytes in memory that never fails.
#[derive(Debug, Drop)]
pub struct SureSource {
    bytes: Vec<u8>,
    at: usize,
    ended: bool,
}

impl Model for SureSource {
    ghost use Rattle.std.specs.Prelude.{◌≤◌, drop, length};
    ghost use Rattle.outside_world.specs.Memory.{SureLeft};

    ghost Value = { SureLeft };

    ghost view = { λ s. record { left = drop s.at s.bytes.items; ended = s.ended } };

    ghost invariant = { λ s. s.at ≤ length s.bytes.items };
}

impl SureSource {
    /// A source of these bytes.
    pub fn new(bytes: Vec<u8>) -> SureSource
        ensures { result ≡ record { left = bytes.items; ended = false } }
    {
        SureSource {
            bytes,
            at: 0,
            ended: false,
        }
    }
}

impl Source for SureSource {
    ghost left = { λ s. Some s.left };

    ghost faults = { λ _. 0 };

    ghost ended = { λ s. s.ended };

    fn read(&mut self, buf: &mut [u8]) -> Result<usize, Failed>
        requires room { 0 < length buf.old }
        requires goes_on { self.old.ended ≡ false }
        ensures within { ReadsAtMost result buf.new }
        ensures bytes { ReadConsumes (Some self.old.left) (Some self.new.left) result buf.new }
        ensures cause { CountsFaults 0 0 result }
        ensures end { self.new.ended ≡ is_end result }
        ensures count { IsOkAnd result (λ n. n ≡ min (length buf.old) (length self.old.left)) }
    {
        let count = copy_front(&self.bytes, self.at, usize::MAX, buf);
        self.at += count;
        self.ended = count == 0;
        Ok(count)
    }
}

/// A sink that takes all, never fails, and keeps nothing.
#[derive(Clone, Copy, Debug)]
pub struct SureSink;

impl Sink for SureSink {
    ghost written = { λ _. None };

    ghost faults = { λ _. 0 };

    fn write(&mut self, piece: &[u8]) -> Result<usize, Failed>
        requires { 0 < length piece.now }
        ensures some { TakesSome result piece.now }
        ensures bytes { WritesFront None None result piece.now }
        ensures cause { CountsFaults 0 0 result }
        ensures all { IsOkAnd result (λ n. n ≡ length piece.now) }
    {
        Ok(piece.len())
    }
}
