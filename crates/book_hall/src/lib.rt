//! Tests alone: the plain hall, a run and its book, which several workers change, each by a pass of its own.
//!
//! A worker claims an actor and gets a copy of its cell, evaluates the copy by itself, and commits what
//! it found. The hall enters the event into its book, and its state is always the one that the book
//! leads to. What it answers is in `hall_rules`.
#![tactic(auto)]

mod claims;
mod copy;
mod found;
mod hall;
mod programs;
mod shared;

pub use copy::{CellCopy, Proposal, ProposeErr};
pub use hall::Hall;
pub use hall_rules::Claim;
pub use shared::{HallPass, HallTask, Naming, SharedHall};
