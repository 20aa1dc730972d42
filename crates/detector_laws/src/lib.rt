//! What holds of the detector of blocked actors in each state of a run, and what follows from it.
//!
//! The facts that every event keeps are said of the cells and letters of the machine that collects, of
//! the detector and of the notes that it has still to hear (`specs/Facts.antt`). What the laws ask of
//! an event stands in `specs/Events.antt`, and what they ask of the counts in `specs/Balance.antt`; they
//! ask nothing of how programs run or how objects are kept. The detector is that of MAC (OOPSLA 2013).
#![tactic(auto)]

mod laws;

pub use laws::{
    acked_is_sealed, actors_keep_reports, actors_keep_tokens, detector_keeps, exact_at_quiet,
    hear_keeps_reports, members_alone_acknowledge, numbered_is_open, quiet_is_exact, reap_keeps,
    reaps_the_unneeded, runs_keep, scan_keeps, start_has_facts, steps_keep,
};
