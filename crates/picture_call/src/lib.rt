//! The call that draws a book: it reads a program and the book behind it, whoever wrote it, audits the book,
//! and writes the picture of the run.
#![tactic(auto)]

mod drawing;
mod exiting;

pub use drawing::draw_source;
pub use exiting::answer;
