// A claim.

use orca_names::ActorName;

/// A claim of a pass on an actor.
#[derive(Clone, Copy, Debug, PartialEq, Eq)]
pub struct Claim {
    pub pass: u32,
    pub actor: ActorName,
}
