//! Tests alone, of the halls in which workers make one run: of the one that copies cells for claims, by its
//! own calls and by passes, and of the one whose cells move out.
#![tactic(auto)]

#[cfg(test)]
mod asking;
#[cfg(test)]
mod hall_tests;
#[cfg(test)]
mod pass_tests;
#[cfg(test)]
mod programs;
#[cfg(test)]
mod seat_tests;
#[cfg(test)]
mod telling;
