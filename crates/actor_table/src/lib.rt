//! The table of all actors: their cells and letters, and indexes of those that have events.
#![tactic(auto)]

mod bits;
mod change;
mod rounds;
mod slot;
mod table;

pub use change::{Block, Changes, Collect, Go, Take};
pub use rounds::Round;
pub use slot::{Place, Slot};
pub use table::ActorTable;
