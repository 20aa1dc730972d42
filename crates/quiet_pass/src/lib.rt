//! One worker takes the machine that collects to where nothing is enabled, and enters each event.
#![tactic(auto)]

mod ending;

pub use ending::{End, finish};
