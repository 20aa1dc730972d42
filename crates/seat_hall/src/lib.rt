//! The hall whose cells move out to the workers: its log, and what passes do and know.
//!
//! The hall lies under a turn (`turn_log`). A claim takes the actor's cell out of it, a commit puts the
//! cell back and makes the event an entry. Each call answers what the plain hall (`hall_rules`) answers
//! after the same log.
#![tactic(auto)]

mod advancing;
mod board;
mod boxed;
mod claiming;
mod closing;
mod entering;
mod hall;
mod item;
mod laws;
mod pass;
mod rooms;
mod rule;
mod seats;
mod taken;
mod task;

pub use board::{SeatHall, SeatPass};
pub use boxed::BoxedHall;
pub use closing::Closing;
pub use hall::Hall;
pub use item::{Item, PassView};
pub use laws::{
    books_are_runs, cells_are_apart, cells_are_never_reaped, entries_stand, entries_stand_once,
};
pub use rooms::CellRoom;
pub use rule::{Absorbs, Fairly, HallLog, Halves, PassSeat};
pub use seats::{HallSeat, Passes};
pub use taken::Taken;
pub use task::SeatTask;
