// Devices at their edges: chosen failures in mid-stream, a sink that is full, and the streams of the
// process, of which no contract tells the bytes.

ghost use Rattle.std.specs.Prelude.{◌≡◌, ◌≤◌, ◌<◌, IfOk, false};

use orca_names::ActorName;
use outside_world::{
    Failed, Gate, HoldGate, MemSink, MemSource, OpenGate, ReadSource, Sink, Source, StdSink,
    StdSource, SureSink, SureSource, WriteSink,
};
use std::io::{Read, Write};
use std::process::Abort;
use std::sync::Wait;
use std::thread::Threads;
use std::{io, thread};

/// A source of the bytes of `seven`, at most so many a call, whose second call fails.
pub(crate) fn source<R: Abort + AllocGlobal>(rt: &R, piece: usize) -> MemSource
    requires { 0 < piece }
    ensures { result.ended ≡ false }
{
    let bytes = b"seven".to_vec(rt.alloc()).expect(rt, "memory");
    let fails = [2].to_vec(rt.alloc()).expect(rt, "memory");
    MemSource::new(bytes, piece, fails)
}

/// A sink with so much room, which takes at most so many bytes a call, and whose second call fails.
pub(crate) fn sink<R: Abort + AllocGlobal>(rt: &R, room: usize, piece: usize) -> MemSink
    requires { 0 < piece }
{
    let fails = [2].to_vec(rt.alloc()).expect(rt, "memory");
    MemSink::new(rt.alloc(), room, piece, fails).expect(rt, "memory")
}

/// Whether the source gives the bytes of `seven`, three at a time, but for its second call, which fails.
fn gives_seven(source: &mut MemSource, buf: &mut [u8; 8]) -> bool
    requires { source.old.ended ≡ false }
{
    source.read(buf) == Ok(3)
        && source.read(&mut buf[3..]) == Err(Failed)
        && source.read(&mut buf[3..]) == Ok(2)
        && *buf == *b"seven\0\0\0"
        && source.read(buf) == Ok(0)
}

#[test]
fn sources_give_their_bytes_in_order(rt: HostRuntime) {
    assert!(rt; gives_seven(&mut source(&rt, 3), &mut [0u8; 8]));
}

/// Whether the source gives the bytes of `seven` as they are asked for.
fn gives_all(source: &mut SureSource, buf: &mut [u8; 8]) -> bool
    requires { source.old.ended ≡ false }
{
    source.read(&mut buf[..4]) == Ok(4) && source.read(buf) == Ok(1)
}

#[test]
fn sure_sources_give_all_that_is_asked_for(rt: HostRuntime) {
    let bytes = b"seven".to_vec(rt.alloc()).expect(&rt, "memory");
    assert!(rt; gives_all(&mut SureSource::new(bytes), &mut [0u8; 8]));
}

/// Whether a sink with room for six bytes takes four at a time, but for its second call, which fails.
fn takes_six(sink: &mut MemSink) -> bool {
    sink.write(b"seven") == Ok(4)
        && sink.write(b"nine") == Err(Failed)
        && sink.write(b"nine") == Ok(2)
        && sink.write(b"ne") == Err(Failed)
        && sink.bytes() == b"seveni".as_slice()
}

#[test]
fn sinks_take_what_they_have_room_for(rt: HostRuntime) {
    assert!(rt; takes_six(&mut sink(&rt, 6, 4)));
}

#[test]
fn sure_sinks_take_all(rt: HostRuntime) {
    assert!(rt; SureSink.write(b"all of it") == Ok(9));
}

#[test]
fn standard_input_is_read(rt: HostRuntime) {
    let mut source = StdSource::new(rt.stdin());
    let mut buf = [0u8; 4];
    assert!(rt; source.read(&mut buf) == Ok(0));
}

#[test]
fn standard_output_takes_bytes(rt: HostRuntime) {
    let mut sink = StdSink::new(rt.stdout());
    assert!(rt; sink.write(b"\n") == Ok(1));
}

/// A device that notes how many bytes each call offers. The second call fails, and each other one
/// moves a byte.
#[derive(Drop)]
struct Noted {
    offers: Vec<usize>,
}

impl Noted {
    fn call(&mut self, offer: usize) -> io::Result<usize>
        ensures { IfOk result (λ moved. moved ≤ offer) }
    {
        let _ = self.offers.push(offer);
        if self.offers.len() == 2 {
            return Err(io::Error::from(io::ErrorKind::Other));
        }
        Ok(offer.min(1))
    }
}

impl Read for Noted {
    fn read(&mut self, buf: &mut [u8]) -> io::Result<usize> {
        self.call(buf.len())
    }
}

impl Write for Noted {
    fn write(&mut self, buf: &[u8]) -> io::Result<usize> {
        self.call(buf.len())
    }

    fn flush(&mut self) -> io::Result<()> {
        Ok(())
    }
}

/// Whether three reads move what the device allows.
fn reads(source: &mut ReadSource<&mut Noted>, buf: &mut [u8; 5000]) -> bool
    requires { source.old.ended ≡ false }
{
    source.read(buf) == Ok(1)
        && source.read(&mut buf[..9]) == Err(Failed)
        && source.read(&mut buf[..1]) == Ok(1)
}

#[test]
fn a_source_asks_its_reader_once_each_time(rt: HostRuntime) {
    let mut reader = Noted {
        offers: Vec::new(rt.alloc()),
    };
    let well = reads(&mut ReadSource::new(&mut reader), &mut [0u8; 5000]);
    assert!(rt; well && reader.offers.as_slice() == [5000, 9, 1].as_slice());
}

/// Whether three writes move what the device allows.
fn writes(sink: &mut WriteSink<&mut Noted>) -> bool {
    sink.write(&[7u8; 5000]) == Ok(1)
        && sink.write(b"seven") == Err(Failed)
        && sink.write(b"7") == Ok(1)
}

#[test]
fn a_sink_asks_its_writer_once_each_time(rt: HostRuntime) {
    let mut writer = Noted {
        offers: Vec::new(rt.alloc()),
    };
    let well = writes(&mut WriteSink::new(&mut writer));
    assert!(rt; well && writer.offers.as_slice() == [5000, 5, 1].as_slice());
}

#[test]
fn an_open_gate_holds_nobody_up(rt: HostRuntime) {
    OpenGate.enter(&rt, ActorName(1), 7);
}

/// Whether two actors meet at the gate once both have come, and then hold nobody up.
fn two_meet<R: Threads + Wait + Sync>(rt: &R, gate: &HoldGate) -> bool {
    gate.enter(rt, ActorName(0), 0);
    let early = gate.met();
    thread::join(
        rt,
        || gate.enter(rt, ActorName(1), 4),
        || gate.enter(rt, ActorName(2), 4),
    );
    let met = gate.met();
    gate.enter(rt, ActorName(1), 9);
    !early && met && gate.met()
}

#[test]
fn two_actors_meet_at_a_gate(rt: HostRuntime) {
    let gate = HoldGate::new(ActorName(1), ActorName(2), 1_000_000);
    assert!(rt; two_meet(&rt, &gate));
}

/// Whether an actor that comes alone gives up, so that the two never meet.
fn gives_up<R: Wait>(rt: &R, gate: &HoldGate) -> bool {
    gate.enter(rt, ActorName(1), 0);
    let early = gate.met();
    gate.enter(rt, ActorName(2), 1);
    gate.enter(rt, ActorName(1), 2);
    !early && !gate.met()
}

#[test]
fn an_actor_alone_at_a_gate_gives_up(rt: HostRuntime) {
    let gate = HoldGate::new(ActorName(1), ActorName(2), 10);
    assert!(rt; gives_up(&rt, &gate));
}
