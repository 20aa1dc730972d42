//! What a letter does to the counts of who sends it and of who takes it (Orca, OOPSLA 2017).
#![tactic(auto)]

mod amounts;
mod laws;
mod minting;
mod receive;
mod room;
mod send;

pub use amounts::{lower_counts, mint_counts, raise_counts};
pub use laws::{loads_are_once, once_is_enough};
pub use minting::{lacking, lacks_any};
pub use reach_walk::{load_of, load_within};
pub use receive::receive_trace;
pub use room::count_values;
pub use send::send_trace;
