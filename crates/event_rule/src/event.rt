// Events, their order and their text.

ghost use Rattle.std.specs.Prelude.{◌≡◌, Some};
ghost use Rattle.std.proofs.Common.{rules};
ghost use Rattle.std.specs.Cmp.{partial_order_from_own_ties};
ghost use Rattle.std.specs.Cmp.Rules.{comparing};
ghost use Rattle.std.specs.Ordering.{as_partial_cmp};
ghost use Rattle.event_rule.specs.Events.{event_cmp, event_text, actor_or_token, round_of, turn_in_round};

use orca_names::{ActorName, Serial};
use std::cmp::Ordering;
use std::fmt;

/// One atomic step of the collector, as the run book lists it.
#[derive(Clone, Copy, Debug, PartialEq, Eq, Hash)]
pub enum Event {
    /// The actor takes the first of its letters.
    Take(ActorName),
    /// The actor goes on in its behaviour, up to and with the next act.
    Go(ActorName),
    /// The actor frees what its fields do not reach, and gives foreign counts back.
    Collect(ActorName),
    /// The actor, which nobody holds, goes with all that it owns.
    Leave(ActorName),
    /// The actor reports to the detector that it is blocked.
    Block(ActorName),
    /// The detector takes the first of its notes.
    Hear,
    /// The detector looks for the largest closed set of reported actors.
    Scan,
    /// The actors of this token go, with all that they own. The token's number stands in two halves, as
    /// a serial does, so that an event takes twelve bytes.
    Reap(Serial),
}

impl Event {
    /// The round of the one-worker order that has the event.
    fn round(&self) -> u8
        ensures { result ≡ round_of self.now }
    {
        match self {
            Event::Take(_) | Event::Go(_) => 0,
            Event::Collect(_) | Event::Leave(_) | Event::Block(_) => 1,
            Event::Hear => 2,
            Event::Scan => 3,
            Event::Reap(_) => 4,
        }
    }

    /// The number of its actor or token, 0 where it has none.
    fn number(&self) -> u64
        ensures { result ≡ actor_or_token self.now }
    {
        match self {
            Event::Take(a) | Event::Go(a) => u64::from(a.0),
            Event::Collect(a) | Event::Leave(a) | Event::Block(a) => u64::from(a.0),
            Event::Hear | Event::Scan => 0,
            Event::Reap(token) => token.get(),
        }
    }

    /// Its place among the events that an actor has in a round.
    fn turn(&self) -> u8
        ensures { result ≡ turn_in_round self.now }
    {
        match self {
            Event::Take(_) | Event::Leave(_) => 1,
            Event::Block(_) => 2,
            _ => 0,
        }
    }
}

/// The one-worker order: of the enabled events, one worker does the least.
impl Ord for Event {
    ghost cmp = { event_cmp };

    ghost total = { Prim.search (comparing, rules) };

    ghost matches_partial_cmp = { Prim.search (comparing, rules) };

    ghost matches_eq = { Prim.search (comparing, rules) };

    fn cmp(&self, other: &Event) -> Ordering {
        self.round()
            .cmp(&other.round())
            .then(self.number().cmp(&other.number()))
            .then(self.turn().cmp(&other.turn()))
    }
}

impl PartialOrd for Event {
    ghost partial_cmp = { as_partial_cmp event_cmp };

    ghost laws = { partial_order_from_own_ties (Prim.search (comparing, rules)) (Prim.search (comparing, rules)) };

    fn partial_cmp(&self, other: &Event) -> Option<Ordering> {
        Some(self.cmp(other))
    }
}

/// As the run book writes it, without a line feed.
impl fmt::Display for Event {
    ghost output = { λ e. Some (event_text e) };

    fn fmt<W: fmt::Write>(&self, f: &mut fmt::Formatter<W>) -> fmt::Result {
        match self {
            Event::Take(a) => write!(f, "take {}", a.0),
            Event::Go(a) => write!(f, "go {}", a.0),
            Event::Collect(a) => write!(f, "collect {}", a.0),
            Event::Leave(a) => write!(f, "leave {}", a.0),
            Event::Block(a) => write!(f, "block {}", a.0),
            Event::Hear => write!(f, "hear"),
            Event::Scan => write!(f, "scan"),
            Event::Reap(token) => write!(f, "reap {}", token.get()),
        }
    }
}
