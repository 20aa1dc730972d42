// Cells that are lent.

ghost use Rattle.std.specs.Prelude.{◌≡◌, ◌<◌, [], length, true, false, if◌then◌else◌, is_some, option_map, set, IfSome, Some};
ghost use Rattle.letter_kinds.specs.Telling.{TellsOnly};
ghost use Rattle.machine_rules.specs.Actors.{cell_at};
ghost use Rattle.actor_cell.specs.Cells.{as_cell};
ghost use Rattle.actor_cell.specs.Tells.{AllIn, Tells};
ghost use Rattle.actor_table.specs.declared.slot.Place.TheVariants.{Home};
ghost use Rattle.actor_table.specs.Slots.{slot_at};
ghost use Rattle.actor_table.specs.Telling.{PlaceTells};
ghost use Rattle.orca_parts.specs.Blocks.{AreKept};
ghost use Rattle.orca_parts.specs.Away.{is_out};
ghost use Rattle.orca_core.specs.Machine.{cell_here};

use crate::machine::Orca;
use actor_cell::Cell;
use orca_names::ActorName;

impl<'a> Orca<'a> {
    /// Lends the cell of an actor; `None` exactly where the actor is not present, or its cell is away.
    /// The state stays as it is, with the cell that is lent; no event of the actor is enabled until the
    /// cell is put back. It takes no memory.
    pub fn lift(&mut self, a: ActorName) -> Option<Cell>
        ensures cell { option_map as_cell result ≡ cell_here self.old a }
        ensures owner { IfSome result (λ c. c.heap.owner ≡ a) }
        ensures kept { IfSome result (λ c. AreKept self.old.blocks (Tells c)) }
        ensures lie { 0 < length self.old.blocks → IfSome result (λ c. AllIn c.heap) }
        ensures state { self.new.state ≡ self.old.state }
        ensures steps { self.new.steps ≡ self.old.steps }
        ensures out { self.new.out ≡ (if is_some result then set self.old.out a true else self.old.out) }
        ensures blocks { self.new.blocks ≡ self.old.blocks }
        ensures lent { IfSome result (λ _. is_out self.new.out a ≡ true) }
    {
        self.core.parts.table.lift(a)
    }

    /// Takes back the cell that was lent, as it was, with its rows where they lay. It takes no memory.
    pub fn put_back(&mut self, a: ActorName, cell: Cell)
        requires away { is_out self.old.out a ≡ true }
        requires same { cell_at self.old.state.actors a ≡ Some (as_cell cell) }
        requires owner { cell.heap.owner ≡ a }
        requires told { TellsOnly (PlaceTells (slot_at self.old.kept.table.slots a).place) [] (Tells cell) }
        requires lie { 0 < length self.old.blocks → AllIn cell.heap }
        ensures state { self.new.state ≡ self.old.state }
        ensures steps { self.new.steps ≡ self.old.steps }
        ensures out { self.new.out ≡ set self.old.out a false }
        ensures blocks { self.new.blocks ≡ self.old.blocks }
        ensures place { (slot_at self.new.kept.table.slots a).place ≡ Home cell }
    {
        self.core.parts.table.put_back(a, cell);
    }
}
