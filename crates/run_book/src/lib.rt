//! The run book: the list of the events of a run with its weight and tracing, and its text.
#![tactic(auto)]

mod book;
mod entry;
mod errors;
mod header;
mod reading;
mod splitting;

pub use book::Book;
pub use errors::BookErr;
pub use reading::{read_again, read_text};
pub use splitting::{a_text_splits_in_one_way, split_at_book};
