// What an actor counts of its own.

ghost use Rattle.std.specs.Prelude.{◌≡◌, true};
ghost use Rattle.orca_names.specs.Names.{owner_of};
ghost use Rattle.letter_kinds.specs.Holdings.{has_own, own_in};
ghost use Rattle.actor_cell.specs.Cells.{as_cell};

use actor_cell::Cell;
use orca_names::Thing;

/// The count of a thing of its own.
pub(crate) fn own_count(cell: &Cell, thing: &Thing) -> u64
    requires mine { owner_of thing.now ≡ cell.now.heap.owner }
    requires there { has_own (as_cell cell.now).holdings thing.now ≡ true }
    ensures { result ≡ own_in (as_cell cell.now).holdings thing.now }
{
    match thing {
        Thing::Actor(_) => cell.count.get(),
        Thing::Obj(n) => cell.heap.count(*n),
    }
}
