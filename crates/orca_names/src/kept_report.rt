// What the detector of blocked actors knows of one of them.

use crate::names::ActorName;
use plain_list::Listed;

/// What a blocked actor reported, as the detector of blocked actors keeps it (MAC, OOPSLA 2013).
#[derive(Debug, Drop)]
pub struct KeptReport {
    pub actor: ActorName,
    /// The actor's own count.
    pub count: u64,
    /// Its counts on other actors.
    pub held: Listed<(ActorName, u64)>,
}
