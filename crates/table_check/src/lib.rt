//! Tests alone: names, sets, walks, an actor's tables with what letters and collections do to them, and the detector.
#![tactic(auto)]

#[cfg(test)]
mod block_table_tests;
#[cfg(test)]
mod block_tests;
#[cfg(test)]
mod cases;
#[cfg(test)]
mod count_tests;
#[cfg(test)]
mod detector_tests;
#[cfg(test)]
mod foreign_tests;
#[cfg(test)]
mod heap_tests;
#[cfg(test)]
mod mail_tests;
#[cfg(test)]
mod name_tests;
#[cfg(test)]
mod report_tests;
#[cfg(test)]
mod root_tests;
#[cfg(test)]
mod row_block_tests;
#[cfg(test)]
mod row_tests;
#[cfg(test)]
mod set_tests;
#[cfg(test)]
mod sweep_tests;
#[cfg(test)]
mod trace_tests;
#[cfg(test)]
mod walk_tests;
