//! A book is a certificate that anyone can check: it is a run of a program, or the first entry that is none
//! is told.
#![tactic(auto)]

mod auditing;

pub use auditing::{Verdict, audit};
