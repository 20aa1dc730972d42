// What the machine keeps.

use actor_cell::{Sweep, Turned};
use actor_table::ActorTable;
use block_table::BlockTable;
use cycle_detect::{Detector, Token};
use letter_kinds::{Amounts, Note};
use orca_names::{ActorName, Value};
use std::collections::VecDeque;
use turn_step::Turn;

/// The parts of the machine's state, and what was found of the event that was prepared last. This is
/// kept here since it is large: room that serves again for the next event.
#[derive(Drop)]
pub struct Parts {
    pub table: ActorTable,
    pub detector: Detector,
    /// What the detector has still to hear.
    pub notes: VecDeque<Note>,
    pub prints: Vec<Value>,
    /// How many objects were ever made.
    pub objects: u64,
    /// Which object has which block; there is none where rows lie at hand.
    pub blocks: BlockTable,
    /// What the turn left.
    pub turn: Turn,
    /// Where the turn stopped, and what the actor does there.
    pub turned: Turned,
    /// The blocks of the rows that the turn made, once they lie there.
    pub placed: Vec<u32>,
    /// What the collection frees, gives back and forgets.
    pub sweep: Sweep,
    /// What the event gives back: to each of these owners goes a decrement of its things.
    pub letters: Vec<(ActorName, Amounts)>,
    /// What the actor reports.
    pub report: Option<Note>,
    /// The token that the scan opens.
    pub token: Option<Token>,
    /// Who is reaped.
    pub members: Vec<ActorName>,
}
