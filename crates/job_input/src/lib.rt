//! What a job begins with: its input is read, its program's text parsed and checked, and for an audit its
//! book read.
#![tactic(auto)]

mod beginning;

pub use beginning::{Begun, begin};
