//! Rows of objects go into blocks of words: those that a turn made into the lowest free ones, and the
//! blocks of what is freed are given back.
//!
//! No call here takes memory. Where there are no blocks at all nothing is done.
#![tactic(auto)]

mod giving;
mod placing;

pub use giving::{give_back_all, give_back_freed};
pub use placing::place_rows;
