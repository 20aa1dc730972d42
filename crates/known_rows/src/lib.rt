//! The rows that an actor has: its own objects' and those of the objects that it holds; in a turn,
//! those too that the turn made.
#![tactic(auto)]

mod known;
mod laws;
mod places;
mod turn_places;
mod turn_rows;

pub use known::KnownRows;
pub use laws::rows_are_of_holdings;
pub use places::KnownPlaces;
pub use turn_places::{TurnPlaces, may_reach_many};
pub use turn_rows::TurnRows;
