//! The letters that wait for an actor, first in first out.
#![tactic(auto)]

mod queue;
mod row;

pub use row::MailRow;
