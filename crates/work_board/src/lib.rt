//! One worker's side of a run: what it asks of the place where the run is kept, and what that answers.
//!
//! Workers know a run by this trait alone, so what they do holds of every place that keeps one:
//! behind a lock that copies an actor's cell for a claim, or where a claim moves the cell out.
#![tactic(auto)]

mod answers;
mod board;
mod trouble;

pub use answers::{Committed, Look, Refuse};
pub use board::Board;
pub use trouble::TroubleBoard;
