//! Names of actors and objects, values and rows of values, and the limits of a run.
//!
//! No call here takes memory.
#![tactic(auto)]

mod held;
mod kept_report;
mod limits;
mod memory;
mod names;
mod options;
mod parting;
mod reader;
mod reason;
mod row;
mod rows;
mod tally;
mod trace;

pub use held::HeldTest;
pub use kept_report::KeptReport;
pub use limits::{
    ACTORS_LIMIT, BEHAVIOURS_LIMIT, BODY_LIMIT, BOOK_LIMIT, FIELDS_LIMIT, KINDS_LIMIT, LINE_LIMIT,
    NAME_LIMIT, REGISTERS, TEXT_LIMIT, VALUES_LIMIT, WORKERS_LIMIT,
};
pub use memory::NoMemory;
pub use names::{ActorName, ObjName, Serial, Thing, Value};
pub use options::Options;
pub use parting::Parting;
pub use reader::{Reading, RowReader};
pub use reason::{Edge, Reason, Why};
pub use row::{Args, Fields, Row};
pub use rows::Rows;
pub use tally::{Sums, Tally};
pub use trace::Trace;
