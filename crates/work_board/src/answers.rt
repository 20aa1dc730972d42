// What a board answers.

ghost use Rattle.std.specs.Prelude.{◌≡◌};
ghost use Rattle.work_board.specs.Answered.{is_end, spoils};

use event_rule::Event;
use orca_names::ActorName;
use thiserror::Error;

/// Why a board refuses a claim or an entry.
#[derive(Clone, Copy, Debug, PartialEq, Eq, Error)]
pub enum Refuse {
    /// The actor was not made yet: its name is not below `made`, the number of actors that were.
    #[error("only {made} actors are made")]
    Unknown { made: u64 },
    /// The actor was collected.
    #[error("the actor is gone")]
    Gone,
    /// A claim on the actor is out: the one that pass `holder` has.
    #[error("pass {holder} has the actor")]
    Busy { holder: u32 },
    /// The event is not enabled, or none of the actor is.
    #[error("the event is not enabled")]
    NotReady,
    /// The run has as many entries as its budget allows: `length`.
    #[error("the budget of {length} entries is spent")]
    Budget { length: u64 },
    /// The actor would make one more, and as many as there may be are made.
    #[error("all actors are made")]
    Full { actor: ActorName },
    /// Memory was refused.
    #[error("out of memory")]
    NoMemory,
}

impl Refuse {
    /// Whether the run can't be finished after this refusal: an actor found no room, or memory was
    /// refused. The other refusals come of what other workers do, and pass.
    pub fn spoils(&self) -> bool
        ensures { result ≡ spoils self.now }
    {
        matches!(self, Refuse::Full { .. } | Refuse::NoMemory)
    }
}

/// An entry that was made.
#[derive(Clone, Copy, Debug, PartialEq, Eq)]
pub struct Committed {
    /// Its place in the run book, from 0.
    pub place: u64,
    /// The lowest actor that got a letter or was made by it; `None` where none was.
    pub woke: Option<ActorName>,
}

/// What there is to do.
#[derive(Clone, Copy, Debug, PartialEq, Eq)]
pub enum Look {
    /// The first actor, in the one-worker order, that has an event and that nobody has claimed.
    Actor(ActorName),
    /// No such actor; the first event of the detector.
    Detector(Event),
    /// Nothing now, but a claim is out, which may lead to more.
    Others,
    /// Nothing, and nothing will come: no event is enabled and no claim is out.
    Rest,
    /// A stop was asked, or the budget is spent.
    Stop,
}

impl Look {
    /// Whether a worker ends here.
    pub fn is_end(&self) -> bool
        ensures { result ≡ is_end self.now }
    {
        matches!(self, Look::Rest | Look::Stop)
    }
}
