//! What is reached: the walk along edges, the marks through rows of objects, with places and without,
//! and their laws.
#![tactic(auto)]

mod by_place;
mod dense;
mod edges;
mod flat;
mod laws;
mod lent_rows;
mod load;
mod look;
mod marks;
mod met;
mod near;
mod noted;
mod places;
mod reach;
mod reading;
mod seen;
mod telling;
mod walk_rows;
mod with_words;

pub use by_place::{load_by_place, load_by_place_within, mark_bits, mark_bits_within};
pub use dense::Dense;
pub use edges::Edges;
pub use flat::{find_flat, find_flat_within, lead_no_further, lead_no_further_within};
pub use laws::{loads_are_exact, marks_are_exact, marks_are_unique};
pub use lent_rows::{BlockRows, LentRows};
pub use load::{find_loaded, load_of, load_within, with_rows};
pub use marks::{Marks, mark, mark_within};
pub use places::{PlacedRows, Places};
pub use reach::walk;
pub use telling::TellsRows;
pub use thing_list::ThingList;
pub use with_words::WithWords;
