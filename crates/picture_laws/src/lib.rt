//! What holds of every picture of a run.
#![tactic(auto)]

mod laws;

pub use laws::{
    a_book_has_one_picture, a_picture_has_shown_bytes, a_run_hides_nothing, a_small_picture,
    an_entry_tells_what_is_after_it, every_run_fits, sums_are_counts, touched_parts_tell_all,
};
