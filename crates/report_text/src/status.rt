// How a call ends.

ghost use Rattle.std.specs.Prelude.{◌≡◌};
ghost use Rattle.report_text.specs.Ends.{code_of};

use orca_names::ActorName;

/// How a call ends.
#[derive(Clone, Copy, Debug, PartialEq, Eq)]
pub enum Status {
    /// The run ended where no event is enabled.
    Quiet,
    /// The words have no reading.
    BadWords,
    /// The bytes are no program: the first line with a fault, counted from 1, and the fault's kind.
    BadText {
        line: u32,
        kind: u8,
    },
    /// A rule of the checker fails: the first place, counted from 1, and the rule.
    BadProgram {
        kind: u64,
        behaviour: u64,
        step: u64,
        rule: u8,
    },
    /// The run book is as long as the budget, and an event is enabled.
    Budget,
    /// This actor would make one more than may be made.
    ActorsFull {
        actor: ActorName,
    },
    /// This actor would make more rows than there are free blocks.
    RowsFull {
        actor: ActorName,
    },
    /// The source failed.
    ReadFault,
    /// The sink failed while the report was written.
    WriteFault,
    /// Memory was refused.
    NoMemory,
    /// The source gave more bytes than a text may have.
    TooLong,
    /// The book that was audited is a run of its program.
    Audited,
    /// The bytes behind the program are no book: the first line with a fault, counted from 1 at the
    /// book's first, and the fault's kind.
    BadBook {
        line: u32,
        kind: u8,
    },
    /// The book is no run of the program: the entry at this place, counted from 0, is refused, with
    /// cause 1 where it is not enabled and 2 where it would make an actor too many.
    NotARun {
        place: u64,
        cause: u8,
    },
}

impl Status {
    /// The exit code.
    pub fn code(&self) -> u8
        ensures { result ≡ code_of self.now }
    {
        match self {
            Status::Quiet => 0,
            Status::BadWords => 2,
            Status::BadText { .. } => 3,
            Status::BadProgram { .. } => 4,
            Status::Budget => 5,
            Status::ActorsFull { .. } => 6,
            Status::RowsFull { .. } => 11,
            Status::ReadFault => 7,
            Status::WriteFault => 8,
            Status::NoMemory => 9,
            Status::TooLong => 10,
            Status::Audited => 0,
            Status::BadBook { .. } => 12,
            Status::NotARun { .. } => 13,
        }
    }
}
