//! Rows of others' objects that letters brought uncounted, where counts are kept of what stands in
//! letters alone (root-only tracing).
#![tactic(auto)]

mod table;

pub use table::RowTable;
