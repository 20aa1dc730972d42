//! Tests alone, of the calls by which one actor does an event whole.
#![tactic(auto)]

#[cfg(test)]
mod count_tests;
#[cfg(test)]
mod going;
#[cfg(test)]
mod tests;
