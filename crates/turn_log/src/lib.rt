//! A value that threads change in turns, and a log of what they did to it.
//!
//! It is a ticket lock (Mellor-Crummey and Scott, 1991): who wants the value draws a ticket, waits
//! until that ticket is served, has the value alone, and then passes the turn on. Before it draws, it
//! stands by while others have tickets. Beside the value stands a log, to which each change adds an
//! item. The log exists in proofs alone; what is kept of it when the program runs is its length.
//!
//! Beside both stand words, which a pass puts one at a time under its turn. Any pass reads them, also
//! without a turn, and waits for nobody then. A rule of the user's ties the value, the log, what each
//! pass knows, and the words.
#![tactic(auto)]

mod closing;
mod last;
mod laws;
mod plays;
mod rule;
mod table;
mod turn;

pub use closing::StillOpen;
pub use last::LastWords;
pub use laws::{one_has_the_turn, tickets_differ};
pub use rule::{Known, Lesson, LogRule};
pub use table::{ByTurns, LogSeat, SeatView, Stage, TurnLog};
