//! Why each thing that is left is left: by which edges, and how few of them, an actor that can act by
//! itself leads to it.
#![tactic(auto)]

mod causes;
mod checks;
mod gone;
mod holds;
mod laws;
mod leads;
mod lines;
mod reasons;
mod seats;
mod values;
mod walk;

pub use gone::partings;
pub use holds::holds_up;
pub use laws::{kept_are_reachable, none_is_loose_at_quiet, reaped_are_closed, reasons_hold_up};
pub use reasons::explain;
