//! The picture of a book that is a run of its program, whole in memory: what `picture_rules` says of it.
//!
//! An entry costs the size of what it touched, and not of the state.
#![tactic(auto)]

mod before;
mod changes;
mod drawing;
mod entries;
mod texts;
mod touched;

pub use drawing::draw;
