//! The top call: it reads the words and the source, runs the program or audits its book, and writes a
//! report.
#![tactic(auto)]

mod auditing;
mod call;
mod reporting;
mod runs;
mod working;
mod writing;

pub use call::{run_single, run_words, stop};
pub use report_text::Status;
pub use runs::Outcome;
pub use word_line::{Job, Order};
pub use writing::{tell, write_text};
