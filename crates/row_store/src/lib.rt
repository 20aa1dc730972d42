//! What is told of a row, what proofs remember of it, how a row is lent, and rows in words that threads
//! may share: how a row lies in a block of words, and how it is read there.
//!
//! Block `k` has 17 words from `17 * k` on: the length of its row, and for each of eight places a word
//! `kind + 4 * actor` and a word with the number or the serial. Kinds are 0 for null, 1 for a number,
//! 2 for an actor and 3 for an object; the actor is the one that is named, or that owns the object.
//! What a value lacks is 0, and so is each place past the length.
//!
//! No call here takes memory.
#![tactic(auto)]

mod block;
mod lent;
mod memory;
mod no_blocks;
mod remembered;
mod told;
mod value;
mod vector;
mod words;

pub use block::{put, read, read_value, row_len};
pub use lent::Lent;
pub use no_blocks::NoBlocks;
pub use remembered::Remembered;
pub use told::Told;
pub use words::{BLOCK_WORDS, RowWords};
