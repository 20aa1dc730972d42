// Notes from actors to the detector.

use orca_names::ActorName;
use plain_list::Listed;

/// A note to the detector of blocked actors (MAC, OOPSLA 2013).
#[derive(Debug, Drop)]
pub enum Note {
    /// The actor is blocked: it has this count, and holds these counts on other actors.
    Block {
        actor: ActorName,
        count: u64,
        held: Listed<(ActorName, u64)>,
    },
    /// The actor has work again.
    Unblock {
        actor: ActorName,
    },
    /// The actor is still blocked, which answers the token's Confirm.
    Ack {
        token: u64,
        actor: ActorName,
    },
}

/// What a blocked actor told, as the detector keeps it.
#[derive(Debug, Drop)]
pub struct Report {
    pub actor: ActorName,
    /// Its own count.
    pub count: u64,
    /// Its counts on other actors.
    pub held: Listed<(ActorName, u64)>,
}
