//! The rules of the machine that collects: its state, and what each event makes of it.
//!
//! The rules stand in `specs/`, a file a topic. The laws here say when events are enabled and how runs
//! end; what every run keeps is said by the laws of `count_laws`, `detector_laws` and `machine_laws`.
#![tactic(auto)]

mod laws;

pub use laws::{
    a_book_leads_to_one_state, a_run_ends_in_one_way, a_run_goes_on_or_ends,
    events_are_enabled_exactly, one_event_is_first,
};
