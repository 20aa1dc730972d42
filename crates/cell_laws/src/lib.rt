//! In every run of the machine that collects, what the code of one actor asks before each of its
//! events is so: its counts allow what the event does to them, and there is room for what it makes.
//!
//! The conditions are those of `actor_cell` and `trace_send`. The laws here stand on those of whole
//! runs, in `machine_laws`.
#![tactic(auto)]

mod laws;

pub use laws::{
    counts_allow_goes, counts_allow_takes, others_alone_are_held, runs_have_room,
    the_acknowledged_are_done, the_program_stays,
};
