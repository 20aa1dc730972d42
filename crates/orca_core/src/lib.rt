//! The machine that collects, as code: each step is one of its rules' events.
#![tactic(auto)]

mod free;
mod installs;
mod laws;
mod left;
mod machine;
mod moves;
mod queries;

pub use free::SetAside;
pub use machine::Orca;
pub use orca_parts::{Ready, StepFault};
