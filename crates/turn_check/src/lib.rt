//! Tests alone: turns, instruction by instruction.
#![tactic(auto)]

#[cfg(test)]
mod starting;
#[cfg(test)]
mod tests;
