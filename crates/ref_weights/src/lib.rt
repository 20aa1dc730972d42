//! One count of a thing: what its owner counts, and what another actor holds of it
//! (Orca, OOPSLA 2017).
//!
//! No sum of counts reaches 2^43: a run has fewer than 2^27 events, and none of them raises a count
//! by more than 2^16. No call here takes memory.
#![tactic(auto)]

mod held;
mod own;

pub use held::Held;
pub use own::OwnCount;
