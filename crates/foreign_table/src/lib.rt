//! What an actor holds of others: counts and rows by thing.
#![tactic(auto)]

mod aside;
mod back;
mod holding;
mod keep;
mod search;
mod span;
mod table;

pub use holding::Holding;
pub use table::ForeignTable;
