//! Tests alone: devices and gates, the value that threads change in turns, rows in shared words, and
//! workers over a toy run.
#![tactic(auto)]

#[cfg(test)]
mod board_tests;
#[cfg(test)]
mod device_tests;
#[cfg(test)]
mod ending;
#[cfg(test)]
mod filled;
#[cfg(test)]
mod log_tests;
#[cfg(test)]
mod pool_tests;
#[cfg(test)]
mod row_tests;
#[cfg(test)]
mod sheet;
#[cfg(test)]
mod text_tests;
#[cfg(test)]
mod toy;
#[cfg(test)]
mod whole_tests;
#[cfg(test)]
mod word_tests;
