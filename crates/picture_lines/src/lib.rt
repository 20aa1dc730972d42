//! The lines of a picture: each call appends lines to a text, or gives the text to a sink.
//!
//! What the lines are stands in `picture_rules`. A call costs the size of what it writes.
#![tactic(auto)]

mod blocked;
mod changes;
mod entries;
mod giving;
mod heading;
mod letters;
mod seats;
mod tables;
mod words;

pub use blocked::{push_detector, push_note, push_report, push_token};
pub use changes::{push_detector_change, push_report_change, push_seat_change, push_token_change};
pub use entries::{push_end, push_entry, push_print};
pub use giving::give;
pub use heading::head;
pub use seats::push_seat;
