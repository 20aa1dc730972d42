//! What one turn of an actor is: the definition of a segment, which runs a behaviour up to its next
//! act, and the data that it speaks of.
//!
//! The definitions stand in `specs/Segment.antt`; the code that meets them is the crate
//! `turn_step`. What holds of every segment stands in `specs/Laws.antt`, and is proved of the
//! functions of `laws`.
#![tactic(auto)]

mod act;
mod boxed;
mod laws;
mod registers;
mod slot;

pub use act::{Act, Effect, Frame};
pub use boxed::{BoxedFrame, SpareFrame};
pub use laws::{segment_is_local, segment_names_only_known};
pub use registers::RegisterFile;
pub use slot::FrameRoom;
