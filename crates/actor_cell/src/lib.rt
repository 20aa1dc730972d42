//! One actor's part of every event of the machine that collects (Orca, OOPSLA 2017).
//!
//! What each call does to the cell, and what it gives out to be pushed, is that of the rules of
//! `machine_rules`; the laws here tie the two.
#![tactic(auto)]

mod apply;
mod block;
mod cell;
mod collect;
mod copy;
mod found;
mod go;
mod laws;
mod learning;
mod leave;
mod letters;
mod loads;
mod room;
mod sweeping;
mod take;
mod turning;
mod whole;

pub use cell::Cell;
pub use found::Found;
pub use laws::events_are_of_parts;
pub use sweeping::Sweep;
pub use turning::{Awaited, Doing, Turned};
pub use whole::Out;
