// What the words ask for.

ghost use Rattle.std.specs.Prelude.{◌≡◌};

use orca_names::Trace;
use thiserror::Error;

/// The least weight of a run.
pub const LEAST_WEIGHT: u32 = 2;

/// The most that the weight of a run may be.
pub const MOST_WEIGHT: u32 = 65_536;

/// The most blocks that rows may lie in.
pub const MOST_ROWS: u32 = 65_536;

/// What is to be done.
#[derive(Clone, Copy, Debug, PartialEq, Eq)]
pub enum Job {
    /// The program that the source gives is run.
    Run,
    /// The load program of so many nodes, 1 to 60,000, is run.
    Load(u32),
    /// The book that the source gives behind its program is audited.
    Audit,
    /// The program that the source gives is run by one worker, and the report says why each thing is
    /// left.
    Why,
}

/// What the words ask for.
#[derive(Clone, Copy, Debug, PartialEq, Eq)]
pub struct Order {
    pub job: Job,
    /// How many workers run the program, 1 to 16.
    pub workers: u32,
    /// The most entries that the run book may have, 1 to 100,000,000.
    pub budget: u64,
    /// The report is to have the counts of what is left.
    pub counts: bool,
    /// The report is to have the run book.
    pub book: bool,
    /// The amount of an increment, and the first count of a new actor, 2 to 65,536.
    pub weight: u32,
    /// How far letters are traced.
    pub trace: Trace,
    /// With a number each row of an object lies in one of so many blocks of words, 1 to 65,536;
    /// without one rows lie at hand.
    pub rows: Option<u32>,
}

/// What no words ask for: a run of the program that the source gives, with two workers, at most
/// 1,000,000 entries, weight 256, deep tracing and rows at hand, and a report without counts and
/// book.
impl Default for Order {
    ghost use Rattle.word_line.specs.Orders.{default_order};

    ghost is_default = { λ order. order ≡ default_order };

    fn default() -> Order {
        Order {
            job: Job::Run,
            workers: 2,
            budget: 1_000_000,
            counts: false,
            book: false,
            weight: 256,
            trace: Trace::Deep,
            rows: None,
        }
    }
}

/// Why the words gave no order.
#[derive(Clone, Copy, Debug, PartialEq, Eq, Error)]
pub enum WordErr {
    #[error("the words have no reading")]
    BadWords,
    #[error("out of memory")]
    NoMemory,
}
