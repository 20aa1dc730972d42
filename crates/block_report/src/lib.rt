//! What a blocked actor tells the detector (MAC, OOPSLA 2013): its report, and, where this is out, what
//! it makes of a letter that it takes.
#![tactic(auto)]

mod telling;

ghost use Rattle.std.specs.Prelude.{◌≡◌, IfOk};
ghost use Rattle.std.specs.FinMap as m;
ghost use Rattle.foreign_table.specs.Table.{on_actors};
ghost use Rattle.letter_kinds.specs.Reports.{block_note, report_told};

use foreign_table::ForeignTable;
use letter_kinds::Note;
use orca_names::{ActorName, NoMemory};
use plain_list::Listed;
use std::alloc::Global;
pub use telling::{Tells, tells_on};

/// The note that the actor is blocked, with this count of its own and all counts that it holds on
/// other actors.
///
/// # Errors
/// `NoMemory` where memory was refused.
pub fn report(
    alloc: Global,
    actor: ActorName,
    count: u64,
    foreign: &ForeignTable,
) -> Result<Note, NoMemory>
    ensures { let held = on_actors (m.entries foreign.now.entries) in
        IfOk result (λ note. note ≡ block_note (report_told actor count held)) }
{
    let held = foreign.held_actors(alloc)?;
    Ok(Note::Block {
        actor,
        count,
        held: Listed::from(held),
    })
}
