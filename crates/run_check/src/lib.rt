//! Tests alone: runs by several workers, whose books both machines follow.
#![tactic(auto)]

#[cfg(test)]
mod board_tests;
#[cfg(test)]
mod calling;
#[cfg(test)]
mod ending;
#[cfg(test)]
mod following;
#[cfg(test)]
mod programs;
#[cfg(test)]
mod random_tests;
#[cfg(test)]
mod tally;
#[cfg(test)]
mod worker_tests;
