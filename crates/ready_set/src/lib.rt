//! Sets of small numbers, as words of bits: one that finds its least member by looking at three
//! words, and one of any size, without levels.
#![tactic(auto)]

mod bits;
mod flat;
mod levels;
mod set;

pub use flat::PlaceSet;
pub use set::{PLACES_LIMIT, ReadySet};
