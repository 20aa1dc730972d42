//! Tests alone: the machine that frees nothing, against which the collector is measured.
#![tactic(auto)]

mod actor;
mod acts;
mod events;
mod first;
mod machine;
mod reach;
mod table;

pub use machine::{Plain, PlainFault};
