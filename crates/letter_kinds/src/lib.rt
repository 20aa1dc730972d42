//! What actors write to one another and to the detector, as plain data.
//!
//! What letters do to the counts of a cell, and what notes do to the detector, stands in `specs/`.
#![tactic(auto)]

mod laws;
mod letter;
mod load;
mod note;
mod plan;
mod sent;

pub use laws::{
    a_scan_leaves_no_news, acked_by_all_is_by_each, one_largest, rounds_give_the_largest,
    union_is_closed,
};
pub use letter::{Amounts, Letter};
pub use load::Load;
pub use note::{Note, Report};
pub use plan::SweepPlan;
pub use sent::SentArgs;
