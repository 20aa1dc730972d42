//! Which object has which block of words, of so many blocks that rows of objects may lie in, with the
//! free ones as a set, so that no step looks at all of them.
#![tactic(auto)]

mod table;

pub use table::{BLOCKS_LIMIT, BlockTable};
