//! The balance of counts, thing by thing: of each thing that is left what its owner counts, what
//! waits to be added and taken off, what others hold, and how many letters load it.
#![tactic(auto)]

mod actors;
mod held;
mod ledger;
mod letters;
mod lines;
mod own;

pub use ledger::tally;
