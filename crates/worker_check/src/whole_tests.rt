// What whole reads and writes ask of their devices: how much room each read offers, and how much each
// write.

ghost use Rattle.std.specs.Prelude.{◌≡◌, None, false};

use crate::device_tests::{sink, source};
use outside_world::{Failed, ReadErr, Sink, Source, read_to_end, write_all};
use std::alloc::Global;

/// A source of line feeds that gives at most `piece` of them a call, and notes the room that each
/// call offers.
#[derive(Drop)]
struct NotedSource {
    left: usize,
    piece: usize,
    rooms: Vec<usize>,
    ended: bool,
}

impl Source for NotedSource {
    ghost left = { λ _. None };

    ghost faults = { λ _. 0 };

    ghost ended = { λ s. s.ended };

    fn read(&mut self, buf: &mut [u8]) -> Result<usize, Failed> {
        let _ = self.rooms.push(buf.len());
        let count = buf.len().min(self.piece).min(self.left);
        buf[..count].fill(b'\n');
        self.left -= count;
        self.ended = count == 0;
        Ok(count)
    }
}

/// A sink that takes at most 20 bytes a call, and notes how many each call offers.
#[derive(Drop)]
struct NotedSink {
    offers: Vec<usize>,
}

impl Sink for NotedSink {
    ghost written = { λ _. None };

    ghost faults = { λ _. 0 };

    fn write(&mut self, piece: &[u8]) -> Result<usize, Failed> {
        let _ = self.offers.push(piece.len());
        Ok(piece.len().min(20))
    }
}

/// How many bytes come of the source, where at most 10,001 are read.
fn count_of(alloc: Global, source: &mut NotedSource) -> Option<usize>
    requires { source.old.ended ≡ false }
{
    let bytes = read_to_end(alloc, source, 10_001).ok()?;
    Some(bytes.len())
}

/// Whether a source of so many bytes, of which it gives at most `piece` a call, is offered these rooms,
/// and so many bytes come.
fn offers(alloc: Global, left: usize, piece: usize, rooms: &[usize], count: usize) -> bool {
    let mut source = NotedSource {
        left,
        piece,
        rooms: Vec::new(alloc),
        ended: false,
    };
    count_of(alloc, &mut source) == Some(count) && source.rooms.as_slice() == rooms
}

#[test]
fn each_read_offers_a_whole_piece_or_what_is_missing(rt: HostRuntime) {
    let alloc = rt.alloc();
    assert!(rt; offers(alloc, 10, 4, &[4096, 4096, 4096, 4096], 10));
    assert!(rt; offers(alloc, 10_000, 4096, &[4096, 4096, 1809, 1], 10_000));
    assert!(rt; offers(alloc, 20_000, 4096, &[4096, 4096, 1809], 10_001));
}

/// Whether each write offers all that is left, and none is made where nothing is.
fn offers_all(sink: &mut NotedSink) -> bool {
    let some = write_all(sink, &[7u8; 58]);
    let none = write_all(sink, b"");
    some == Ok(()) && none == Ok(()) && sink.offers.as_slice() == [58, 38, 18].as_slice()
}

#[test]
fn each_write_offers_all_that_is_left(rt: HostRuntime) {
    let mut sink = NotedSink {
        offers: Vec::new(rt.alloc()),
    };
    assert!(rt; offers_all(&mut sink));
}

#[test]
fn a_failure_ends_a_read(rt: HostRuntime) {
    let read = read_to_end(rt.alloc(), &mut source(&rt, 2), 9);
    assert!(rt; matches!(&read, Err(ReadErr::Failed)));
}

#[test]
fn a_failure_ends_a_write(rt: HostRuntime) {
    let mut sink = sink(&rt, 9, 2);
    let written = write_all(&mut sink, b"seven");
    assert!(rt; written.is_err() && sink.bytes() == b"se".as_slice());
}
