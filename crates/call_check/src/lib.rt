//! Tests alone, of the top call as its user sees it: words, inputs and devices, and what is answered and
//! written.
#![tactic(auto)]

#[cfg(test)]
mod argument_tests;
#[cfg(test)]
mod audit_tests;
#[cfg(test)]
mod calling;
#[cfg(test)]
mod picture_tests;
#[cfg(test)]
mod programs;
#[cfg(test)]
mod report_tests;
#[cfg(test)]
mod rows_tests;
#[cfg(test)]
mod tests;
#[cfg(test)]
mod why_tests;
#[cfg(test)]
mod worker_tests;
