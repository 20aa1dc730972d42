//! Root-only tracing: what a letter loads, carries and lets its taker lack, and what a collection
//! keeps, where counts are kept of what stands in letters alone and not of all that it reaches
//! (after Orca, OOPSLA 2017, which traces deep).
#![tactic(auto)]

mod in_use;
mod letters;
mod needs;
mod nowhere;
mod own_rows;
mod plans;

pub use in_use::unused_rows;
pub use letters::{find_loaded_roots, rows_of, without_rows};
pub use needs::missing;
pub use nowhere::NoRows;
pub use plans::plan_roots;
