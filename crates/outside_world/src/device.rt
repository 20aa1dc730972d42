// Sources and sinks of bytes, which count their faults.

ghost use Rattle.std.specs.Prelude.{Bool, List, false, length, ℕ, ◌<◌, ◌≡◌};
ghost use Rattle.std.specs.declared.option.Option.{Option};
ghost use Rattle.std.specs.Io.{ReadsAtMost};
ghost use Rattle.std.specs.Io.KnownBytes.{ReadConsumes};
ghost use Rattle.outside_world.specs.Device.{CountsFaults, TakesSome, WritesFront, is_end};

use thiserror::Error;

/// A device failed. What it had left, or what it was given, is as before.
#[derive(Clone, Copy, Debug, PartialEq, Eq, Error)]
#[error("the device failed")]
pub struct Failed;

/// Where bytes come from.
pub trait Source {
    /// The bytes that are left, where the source tells them.
    ghost left: { Self → Option (List ℕ) };

    /// How often the source has failed. It never falls, and stands still at the end of 64 bits.
    ghost faults: { Self → ℕ };

    /// Whether a read has answered 0. Then no read follows: a terminal would ask for its end twice.
    ghost ended: { Self → Bool };

    /// Reads the first bytes that are left into the front of `buf`, and answers how many: 0 only at
    /// the end.
    ///
    /// # Errors
    /// `Failed` where the count of faults rose, and only there; what is left is then as before.
    fn read(&mut self, buf: &mut [u8]) -> Result<usize, Failed>
        requires room { 0 < length buf.old }
        requires goes_on { ended self.old ≡ false }
        ensures within { ReadsAtMost result buf.new }
        ensures bytes { ReadConsumes (left self.old) (left self.new) result buf.new }
        ensures cause { CountsFaults (faults self.old) (faults self.new) result }
        ensures end { ended self.new ≡ is_end result };
}

/// Where bytes go.
pub trait Sink {
    /// The bytes that were written, where the sink tells them.
    ghost written: { Self → Option (List ℕ) };

    /// How often the sink has failed. It never falls, and stands still at the end of 64 bits.
    ghost faults: { Self → ℕ };

    /// Appends a front of `piece` to what was written, and answers its length: at least 1.
    ///
    /// # Errors
    /// `Failed` where the count of faults rose, and only there; nothing was appended then.
    fn write(&mut self, piece: &[u8]) -> Result<usize, Failed>
        requires { 0 < length piece.now }
        ensures some { TakesSome result piece.now }
        ensures bytes { WritesFront (written self.old) (written self.new) result piece.now }
        ensures cause { CountsFaults (faults self.old) (faults self.new) result };
}
