// Rows that letters bring uncounted.

ghost use Rattle.std.specs.Prelude.{◌≡◌, ◌+◌, ◌<◌, ◌≤◌, [], ◌∷◌, IsSome, length};
ghost use Rattle.foreign_table.specs.Table.{row_length};
ghost use Rattle.letter_kinds.specs.Load.{as_load, as_loaded};
ghost use Rattle.row_store.specs.Memory.{remembered};
ghost use Rattle.row_store.specs.Told.{lies_as, row_here, told_block, told_row};
ghost use Rattle.machine_rules.specs.Take.{learn};
ghost use Rattle.trace_send.specs.Room.{values_of};
ghost use Rattle.letter_kinds.specs.Telling.{TellsOnly};
ghost use Rattle.actor_cell.specs.Tells.{BroughtTells};

use letter_kinds::Load;
use orca_names::{ActorName, Thing};
use row_store::{Remembered, Told};
use row_table::RowTable;

// The row of another's object is known.
fn learn_one(known: &mut RowTable, me: ActorName, brought: &(Thing, Told), from: &Remembered)
    requires room { 0 < known.old.spare }
    requires told { IsSome (told_block brought.now.1)
        → IsSome (told_row (remembered from.now) brought.now.0 brought.now.1) }
    requires values { row_length (row_here brought.now.1) ≤ known.old.spare_values }
    ensures rows { let its = as_loaded (lies_as (remembered from.now) brought.now) in
        known.new.rows ≡ learn me (its ∷ []) known.old.rows }
    ensures told { let its = lies_as (remembered from.now) brought.now in
        TellsOnly (BroughtTells known.old) (its ∷ []) (BroughtTells known.new) }
    ensures room { known.old.spare ≤ known.new.spare + 1 }
    ensures values { let its = row_length (row_here brought.now.1) in
        known.old.spare_values ≤ known.new.spare_values + its }
{
    if brought.0.owner() != me {
        known.learn(brought.0, &brought.1, from);
    }
}

/// The rows of others' objects are known. It takes no memory.
pub(crate) fn learn_all(known: &mut RowTable, me: ActorName, rows: &Load)
    requires room { length rows.now ≤ known.old.spare }
    requires values { values_of rows.now ≤ known.old.spare_values }
    ensures rows { known.new.rows ≡ learn me (as_load rows.now) known.old.rows }
    ensures told { TellsOnly (BroughtTells known.old) rows.now (BroughtTells known.new) }
{
    let (items, memory) = rows.parts();
    for brought in items {
        learn_one(known, me, brought, memory);
    }
}
