//! Tests alone: programs that are drawn by lot, as texts.
#![tactic(auto)]

mod drawing;

pub use drawing::{Lot, program};
