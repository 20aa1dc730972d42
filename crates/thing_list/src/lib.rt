//! Things in a list that takes no memory while it is short, and the order in which they are put.
#![tactic(auto)]

mod list;
mod putting;

pub use list::{FEW, ThingList};
pub use putting::{is_among, put};
