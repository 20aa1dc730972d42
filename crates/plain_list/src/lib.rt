//! Std's lists as contracts compare them: by their elements alone, without capacity or address.
//!
//! A type whose fields are such lists is plain data for a proof, which can then compare whole
//! programs and whole machines by `≡`.
#![tactic(auto)]

mod listed;
mod queue;

pub use listed::Listed;
pub use queue::Queue;
