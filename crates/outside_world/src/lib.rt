//! The outside as the collector's program sees it: where its bytes come from, where they go, and
//! the gate that a worker passes before each evaluated segment.
#![tactic(auto)]

mod device;
mod gate;
mod hold_gate;
mod mem_sink;
mod mem_source;
mod reading;
mod streams;
mod sure;
mod writing;

pub use device::{Failed, Sink, Source};
pub use gate::{Gate, OpenGate};
pub use hold_gate::HoldGate;
pub use mem_sink::MemSink;
pub use mem_source::MemSource;
pub use reading::{ReadErr, read_to_end};
pub use streams::{ReadSource, StdSink, StdSource, WriteSink};
pub use sure::{SureSink, SureSource};
pub use writing::write_all;
