//! Tests alone: texts of programs, events, books, reports and words, as they are read and written.
#![tactic(auto)]

#[cfg(test)]
mod book_tests;
#[cfg(test)]
mod code_tests;
#[cfg(test)]
mod event_tests;
#[cfg(test)]
mod line_tests;
#[cfg(test)]
mod load_tests;
#[cfg(test)]
mod programs;
#[cfg(test)]
mod report_tests;
#[cfg(test)]
mod rule_tests;
#[cfg(test)]
mod table;
#[cfg(test)]
mod text_tests;
#[cfg(test)]
mod word_tests;
