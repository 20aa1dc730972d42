// A source in memory.

ghost use Rattle.std.specs.Prelude.{◌≡◌, ◌<◌, ◌≤◌, ◌+◌, ◌-◌, ◌++◌, ◌↔◌, [], false, min, length, take, drop, vec_len, Contains, IsErr, IfOk, OnErr, Some};
ghost use Rattle.std.specs.Io.{ReadsAtMost};
ghost use Rattle.std.specs.Io.KnownBytes.{ReadConsumes};
ghost use Rattle.outside_world.specs.Device.{CountsFaults, is_end, one_more};
ghost use Rattle.outside_world.specs.Memory.{after_read, after_failed_read};

use crate::device::{Failed, Source};
use std::marker::Model;

/// Copies what stands at `at` into the front of `buf`: as much as there is room for, and at most
/// `most` bytes.
pub(crate) fn copy_front(bytes: &[u8], at: usize, most: usize, buf: &mut [u8]) -> usize
    requires { at ≤ length bytes.now }
    ensures count { result ≡ min (min (length buf.old) most) (length bytes.now - at) }
    ensures within { result ≤ length buf.new }
    ensures copied { drop at bytes.now ≡ take result buf.new ++ drop (at + result) bytes.now }
    ensures end { result ≡ length bytes.now - at → drop (at + result) bytes.now ≡ [] }
{
    let rest = &bytes[at..];
    let count = buf.len().min(most).min(rest.len());
    buf[..count].copy_from_slice(&rest[..count]);
    count
}

/// A source over bytes in memory, which tells what it has left and fails at chosen calls.
#[derive(Debug, Drop)]
pub struct MemSource {
    bytes: Vec<u8>,
    at: usize,
    piece: usize,
    fails: Vec<u64>,
    calls: u64,
    faults: u64,
    ended: bool,
}

impl Model for MemSource {
    ghost use Rattle.std.specs.Prelude.{◌<◌, ◌≤◌, drop, length};
    ghost use Rattle.outside_world.specs.Memory.{MemoryLeft};

    ghost Value = { MemoryLeft };

    ghost view = { λ m. record {
      left = drop m.at m.bytes.items;
      piece = m.piece;
      fails = m.fails.items;
      calls = m.calls;
      faults = m.faults;
      ended = m.ended;
    } };

    ghost invariant = { λ m. (0 < m.piece) × (m.at ≤ length m.bytes.items) };
}

impl MemSource {
    /// A source of these bytes. Each call gives at most `piece` of them; the calls whose numbers,
    /// counted from 1, are among `fails` fail.
    pub fn new(bytes: Vec<u8>, piece: usize, fails: Vec<u64>) -> MemSource
        requires { 0 < piece }
        ensures { result ≡ record {
          left = bytes.items;
          piece = piece;
          fails = fails.items;
          calls = 0;
          faults = 0;
          ended = false;
        } }
    {
        MemSource {
            bytes,
            at: 0,
            piece,
            fails,
            calls: 0,
            faults: 0,
            ended: false,
        }
    }
}

impl Source for MemSource {
    ghost left = { λ m. Some m.left };

    ghost faults = { λ m. m.faults };

    ghost ended = { λ m. m.ended };

    fn read(&mut self, buf: &mut [u8]) -> Result<usize, Failed>
        requires room { 0 < length buf.old }
        requires goes_on { self.old.ended ≡ false }
        ensures within { ReadsAtMost result buf.new }
        ensures bytes { ReadConsumes (Some self.old.left) (Some self.new.left) result buf.new }
        ensures cause { CountsFaults self.old.faults self.new.faults result }
        ensures end { self.new.ended ≡ is_end result }

        // It fails exactly at the calls that were named, and else gives all that it may.
        ensures fails { IsErr result ↔ Contains self.old.fails (one_more self.old.calls) }
        ensures count { IfOk result (λ n. n
            ≡ min (min (length buf.old) self.old.piece) (length self.old.left)) }
        ensures ok { IfOk result (λ n. self.new ≡ after_read self.old n) }
        ensures err { OnErr result (self.new ≡ after_failed_read self.old) }
        ensures same { OnErr result (buf.new ≡ buf.old) }
    {
        self.calls = self.calls.saturating_add(1);
        if self.fails.contains(&self.calls) {
            self.faults = self.faults.saturating_add(1);
            return Err(Failed);
        }
        let count = copy_front(&self.bytes, self.at, self.piece, buf);
        self.at += count;
        self.ended = count == 0;
        Ok(count)
    }
}
