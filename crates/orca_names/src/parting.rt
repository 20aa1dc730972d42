// What went by an entry of a run book.

use crate::kept_report::KeptReport;
use crate::names::ActorName;
use plain_list::Listed;

/// Who went by one entry of a run book.
#[derive(Debug, Drop)]
pub enum Parting {
    /// An actor that left by itself.
    Left {
        actor: ActorName,
    },
    /// The members of a token that were reaped together, by rising names, with what the detector had
    /// kept of each (MAC, OOPSLA 2013).
    Reaped {
        token: u64,
        members: Listed<KeptReport>,
    },
}
