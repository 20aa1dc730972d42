// Standard input and output, the trusted edge: what a terminal, file or pipe gives or gets is told
// by no contract. So a source and a sink are told over every reader and writer, and are used at these.

ghost use Rattle.std.specs.Prelude.{◌≡◌, false};

use crate::device::{Failed, Sink, Source};
use std::io::{Read, Stdin, Stdout, Write};

/// A source over a reader, which counts its failures and keeps whether it has answered 0.
#[derive(Drop)]
pub struct ReadSource<R> {
    input: R,
    faults: u64,
    ended: bool,
}

impl<R> ReadSource<R> {
    /// A source over this reader that has neither failed nor ended yet.
    pub fn new(input: R) -> ReadSource<R>
        ensures input { result.input ≡ input }
        ensures faults { result.faults ≡ 0 }
        ensures ended { result.ended ≡ false }
    {
        ReadSource {
            input,
            faults: 0,
            ended: false,
        }
    }
}

impl<R: Read> Source for ReadSource<R> {
    ghost left = { λ s. R.remaining s.input };

    ghost faults = { λ s. s.faults };

    ghost ended = { λ s. s.ended };

    fn read(&mut self, buf: &mut [u8]) -> Result<usize, Failed> {
        match self.input.read(buf) {
            Ok(count) => {
                self.ended = count == 0;
                Ok(count)
            }
            Err(_) => {
                self.faults = self.faults.saturating_add(1);
                Err(Failed)
            }
        }
    }
}

/// Standard input. It tells no bytes.
pub type StdSource = ReadSource<Stdin>;

/// A sink over a writer, which counts its failures.
#[derive(Drop)]
pub struct WriteSink<W> {
    output: W,
    faults: u64,
}

impl<W> WriteSink<W> {
    /// A sink over this writer that has not failed yet.
    pub fn new(output: W) -> WriteSink<W>
        ensures output { result.output ≡ output }
        ensures faults { result.faults ≡ 0 }
    {
        WriteSink { output, faults: 0 }
    }
}

impl<W: Write> Sink for WriteSink<W> {
    ghost written = { λ s. W.contents s.output };

    ghost faults = { λ s. s.faults };

    // A write that takes nothing counts as a fault, too.
    fn write(&mut self, piece: &[u8]) -> Result<usize, Failed> {
        match self.output.write(piece) {
            Ok(count) if count > 0 => Ok(count),
            _ => {
                self.faults = self.faults.saturating_add(1);
                Err(Failed)
            }
        }
    }
}

/// Standard output. It tells no bytes.
pub type StdSink = WriteSink<Stdout>;
