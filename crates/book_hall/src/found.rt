// What was found of a copy, once its event is to become an entry.

ghost use Rattle.std.specs.Prelude.{◌≡◌, [], Some};
ghost use Rattle.std.specs.Option.{ForSome};
ghost use Rattle.orca_core.specs.Machine.{IsFoundIn};
ghost use Rattle.book_hall.specs.Proposals.{IsOf};

use crate::copy::Proposal;
use actor_cell::Found;
use event_rule::Event;
use hall_rules::{actor_of, has_cell};
use orca_core::Orca;
use std::alloc::Global;

// What was found in a box, where there is memory for it.
fn boxed(alloc: Global, found: Option<Found>) -> Option<Box<Found>>
    ensures { ForSome result (λ known. found ≡ Some known.value) }
{
    Box::new(alloc, found?).ok()
}

/// What was found, if it is of the cell that the event's actor has now, and there is memory for it. The
/// machine has no blocks.
pub(crate) fn fitting(
    alloc: Global,
    orca: &Orca<'_>,
    e: &Event,
    proposal: Option<Proposal<'_>>,
) -> Option<Box<Found>>
    requires none { orca.now.blocks ≡ [] }
    requires own { ForSome proposal (IsOf orca.now.state.program orca.now.state.options e.now) }
    ensures { ForSome result (λ known. IsFoundIn e.now known.value orca.now) }
{
    let proposal = proposal?;
    if has_cell(orca, actor_of(e)?, &proposal.copy.cell) {
        boxed(alloc, proposal.found)
    } else {
        None
    }
}
