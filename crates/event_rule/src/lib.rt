//! The events of the counting machine, the order in which one worker does them, and their text.
//!
//! No call here takes memory.
#![tactic(auto)]

mod event;

pub use event::Event;
