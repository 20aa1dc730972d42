//! What holds of the machine that collects, over whole runs.
//!
//! The machine's rules are those of `machine_rules`; the laws of its detector are those of
//! `detector_laws`. Here both come together: all facts hold at the start and are kept by every event,
//! so a run never frees what is reachable, and where it ends quiet it leaves exactly that.
#![tactic(auto)]

mod laws;

pub use laws::{
    counts_stay_small, every_event_keeps_all_facts, every_run_has_all_facts,
    every_run_is_traced_by_roots, exactly_at_quiet, freed_stays_freed, garbage_goes,
    members_alone_acknowledge, never_too_early, nothing_is_told_of_the_reaped, reaps_take_the_done,
    runs_can_rest, the_detector_at_quiet, the_machine_comes_to_rest, the_start_has_all_facts,
};
