//! What a collection frees and gives back: its plan, and the sweep that the plan tells
//! (Orca, OOPSLA 2017).
#![tactic(auto)]

mod amounts;
mod kept;
mod leaving;
mod named;
mod plans;
mod sweep;

pub use amounts::push_amount;
pub use leaving::gather_held;
pub use plans::{plan, plan_of_marks};
pub use sweep::apply;
