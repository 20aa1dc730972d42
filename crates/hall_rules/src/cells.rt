// A cell compared with the one that its actor has now.

ghost use Rattle.std.specs.Prelude.{◌≡◌, ◌↔◌, [], IsSomeAnd, IsTrue};
ghost use Rattle.letter_kinds.specs.Telling.{TellsNothing};
ghost use Rattle.actor_cell.specs.Cells.{IsSame};
ghost use Rattle.actor_cell.specs.Tells.{Tells};
ghost use Rattle.actor_table.specs.Slots.{home_of, slot_at};

use actor_cell::Cell;
use orca_core::Orca;
use orca_names::ActorName;

/// Whether the actor's cell is in the machine, and the same as this one, none of whose rows lies in a
/// block. The machine has no blocks.
pub fn has_cell(orca: &Orca<'_>, a: ActorName, cell: &Cell) -> bool
    requires none { orca.now.blocks ≡ [] }
    requires untold { TellsNothing (Tells cell.now) }
    ensures { IsTrue result ↔ IsSomeAnd (home_of (slot_at orca.now.kept.table.slots a))
        (λ here. IsSame here cell.now) }
{
    match orca.cell(a) {
        Some(here) => here.same(cell),
        None => false,
    }
}
