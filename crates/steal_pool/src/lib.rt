//! Workers that run one program together, each over a board of its own.
//!
//! All that a worker changes of the run goes by its board's calls.
#![tactic(auto)]

mod crew;
mod hints;
mod pool;
mod worker;

pub use pool::work;
