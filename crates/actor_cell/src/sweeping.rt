// What a collection is found to do.

use letter_kinds::{Amounts, SweepPlan};
use orca_names::ActorName;
use plain_list::Listed;
use std::alloc::Global;

/// What a collection frees, gives back and forgets.
#[derive(Debug, Drop)]
pub struct Sweep {
    /// What it frees and gives back.
    pub plan: SweepPlan,
    /// The objects, in groups of their owners, whose rows letters brought and that are in use no
    /// more.
    pub unused: Listed<(ActorName, Amounts)>,
}

impl Sweep {
    /// Nothing is freed, given back or forgotten. It takes no memory.
    pub fn new(alloc: Global) -> Sweep {
        Sweep {
            plan: SweepPlan {
                free: Listed::new(alloc),
                back: Listed::new(alloc),
            },
            unused: Listed::new(alloc),
        }
    }
}
