// How a hall ends.

use orca_core::Orca;
use orca_names::ActorName;
use run_book::Book;

/// What a hall leaves at its end.
#[derive(Drop)]
pub enum Closing<'a> {
    /// No turn and no claim is out: the machine, which has no blocks, and the book of its run.
    Whole(Orca<'a>, Book),
    /// A turn is out: a call never returned, and has the hall. At the end passes had the tickets from
    /// `serving`, the one that was served, up to `ticket`, the one that would have been drawn next.
    Turning { ticket: u64, serving: u64 },
    /// A claim is out: the pass `holder` has the cell of this actor, the lowest such.
    Lent { holder: u32, actor: ActorName },
}
