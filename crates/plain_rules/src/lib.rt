//! The rules of the machine that frees nothing, against which the collector is measured: its state, what
//! each event makes of it, its runs, and what is reachable.
//!
//! The rules stand in `specs/`, a file a topic; here is the data that they speak of.
#![tactic(auto)]

use behaviour_code::Name;
use orca_names::{Args, Fields, Row};
use plain_list::{Listed, Queue};
use turn_rules::FrameRoom;

/// An application letter: the name of a behaviour, and the arguments.
#[derive(Clone, Copy, Debug)]
pub struct PlainLetter {
    pub behaviour: Name,
    pub args: Args,
}

/// An actor of the machine that frees nothing: its kind, its fields, its frame while a behaviour
/// runs, the letters that wait for it, and the rows of all objects that it ever made, by serial.
#[derive(Debug, Drop)]
pub struct PlainActor {
    pub kind: u32,
    pub fields: Fields,
    pub frame: FrameRoom,
    pub letters: Queue<PlainLetter>,
    pub rows: Listed<Row>,
}
