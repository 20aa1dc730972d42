// What a collection is going to do.

use crate::letter::Amounts;
use orca_names::{ActorName, ObjName};
use plain_list::Listed;

/// What an actor's collection frees and gives back.
#[derive(Debug, Drop)]
pub struct SweepPlan {
    /// Own objects that nothing reaches and no count keeps, by rising serial.
    pub free: Listed<ObjName>,
    /// For each owner, rising, its things that are held no more, with the counts that go back.
    pub back: Listed<(ActorName, Amounts)>,
}
