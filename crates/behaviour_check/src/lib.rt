//! The rules that a program keeps, and the type of programs that keep them.
#![tactic(auto)]

mod checked;
mod faults;
mod laws;
mod placing;
mod rule;
mod rules;

pub use checked::{CheckFault, Checked};
pub use faults::check;
pub use laws::{names_are_given_once, rules_are_kept_exactly};
