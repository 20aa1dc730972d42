// Letters between actors.

use crate::load::Load;
use crate::sent::SentArgs;
use behaviour_code::Name;
use orca_names::Thing;
use plain_list::Listed;

/// Things, each with an amount by which its count rises or falls.
pub type Amounts = Listed<(Thing, u64)>;

/// A letter from one actor to another, or from the detector to an actor.
#[derive(Debug, Drop)]
pub enum Letter {
    /// An application letter: it starts a behaviour, and counts its load. With deep tracing that is all
    /// that its arguments reach; with root-only tracing it is what stands in them, and the owners of
    /// that, and the rows that they reach come uncounted.
    App {
        behaviour: Name,
        args: SentArgs,
        load: Load,
        rows: Load,
    },
    /// The counts of these things, which the taker owns, rise.
    Inc {
        things: Amounts,
    },
    /// The counts of these things, which the taker owns, fall.
    Dec {
        things: Amounts,
    },
    /// The detector asks whether the actor is still blocked (MAC, OOPSLA 2013).
    Confirm {
        token: u64,
    },
}
