//! The detector of blocked actors: the reports that it keeps, the closed sets that it finds among
//! them, and the tokens by which it asks their members (MAC, OOPSLA 2013).
#![tactic(auto)]

mod detector;
mod names;
mod reports;
mod scan;

pub use detector::{Detector, TOKENS_LIMIT};
pub use detector_tokens::Token;
