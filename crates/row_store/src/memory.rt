// What proofs remember of rows.

use orca_names::{ActorName, ObjName, Row};
use std::snapshot::Snapshot;

/// Rows by the names of their objects, as they came to be remembered. None is ever forgotten, since
/// rows never change and names are never used again.
#[derive(Drop)]
pub(crate) enum Memory {
    /// No row.
    Nothing,
    /// The rows that another memory has.
    Same {
        other: Snapshot<Snapshot<Memory>>,
    },
    /// One row more.
    Known {
        before: Snapshot<Snapshot<Memory>>,
        name: ObjName,
        row: Snapshot<Row>,
    },
    /// One row more, which another memory has.
    Taken {
        before: Snapshot<Snapshot<Memory>>,
        name: ObjName,
        other: Snapshot<Snapshot<Memory>>,
    },
    /// The rows of one actor's objects as one memory has them, those of all others as another has them.
    Parted {
        owner: ActorName,
        own: Snapshot<Snapshot<Memory>>,
        others: Snapshot<Snapshot<Memory>>,
    },
}
