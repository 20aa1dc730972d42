//! The text of programs: a text is read to the program that it says, or refused for its first
//! fault, and a program is printed as its canonical text.
#![tactic(auto)]

mod errors;
mod items;
mod place;
mod printing;
mod reader;
mod reading;
mod table;
mod words;

pub use errors::{FaultKind, TextErr};
pub use printing::print;
pub use reading::parse;
