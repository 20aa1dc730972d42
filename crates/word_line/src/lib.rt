//! The order that the words after the program's name give.
#![tactic(auto)]

mod command;
mod order;
mod reading;

pub use order::{Job, LEAST_WEIGHT, MOST_ROWS, MOST_WEIGHT, Order, WordErr};
pub use reading::read_words;
