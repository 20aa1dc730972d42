// The rows that a turn made go into blocks.

ghost use Rattle.std.specs.Prelude.{◌≡◌, ◌+◌, ◌==◌, ◌<◌, ◌≤◌, ℕ, false, true, length, IfErr, OnOk};
ghost use Rattle.std.specs.List.Sorted.{IsStrictlySortedBy};
ghost use Rattle.std.specs.Ordering.{nat_cmp};
ghost use Rattle.object_heap.specs.Free.{SerialsRise};
ghost use Rattle.row_blocks.specs.Blocks.{MayPutFree, is_one_of, without};
ghost use Rattle.letter_kinds.specs.Detector.{has};
ghost use Rattle.actor_cell.specs.Moves.{act_in};
ghost use Rattle.actor_table.specs.Changes.{HasCell};
ghost use Rattle.actor_table.specs.Slots.{slot_at};
ghost use Rattle.orca_parts.specs.Blocks.{AreThere, HasBlocksFor, OwnFit, is_mint};
ghost use Rattle.orca_parts.specs.Goes.{FitsPlaces, HasRoomToPlace};
ghost use Rattle.orca_parts.specs.Placing.{HasMade, IsLack, Places};

use crate::fault::StepFault;
use crate::insides::Core;
use crate::parts::Parts;
use actor_cell::{Doing, Turned};
use actor_table::ActorTable;
use block_table::BlockTable;
use orca_names::{ActorName, ObjName};
use row_blocks::{give_back_all, give_back_freed, place_rows};
use row_store::RowWords;

// Whether the actor mints before its turn.
#[inline(always)]
fn mints(found: &Turned) -> bool
    ensures { result ≡ is_mint (act_in found.now) }
{
    matches!(found.doing, Doing::Mint { owner: _ })
}

/// Takes the memory to tell which blocks the rows of the turn get, where there are blocks.
///
/// # Errors
/// `NoRows` exactly where there are blocks, and the actor keeps more rows than are free; `NoMemory` where
/// memory was refused.
#[inline(always)]
pub(crate) fn reserve_placed(parts: &mut Parts, a: ActorName) -> Result<(), StepFault>
    ensures same { parts.new ≡ record parts.old { placed = parts.new.placed } }
    ensures blocks { OnOk result (HasBlocksFor (act_in parts.old.turned) parts.old) }
    ensures room { OnOk result (HasRoomToPlace parts.new) }
    ensures fault { IfErr result (IsLack a parts.old) }
{
    if parts.blocks.len() == 0 {
        return Ok(());
    }
    let count = parts.turn.made().len();
    if !mints(&parts.turned) && parts.blocks.count_free() < count {
        return Err(StepFault::NoRows { actor: a });
    }
    parts.placed.clear();
    Ok(parts.placed.reserve(count)?)
}

/// The blocks of an actor's objects are free: the actor goes.
#[inline(always)]
pub(crate) fn give_back(blocks: &mut BlockTable, table: &ActorTable, a: ActorName)
    requires { HasCell (slot_at table.now.slots a) (λ c. c.heap.owner ≡ a → OwnFit blocks.old c) }
    ensures { blocks.new ≡ without (λ n. n.owner == a) blocks.old }
{
    if blocks.len() == 0 {
        return;
    }
    let Some(cell) = table.cell(a) else {
        unreachable!();
    };
    give_back_all(blocks, &cell.heap);
}

/// The blocks of the objects of all these actors are free.
pub(crate) fn give_back_each(blocks: &mut BlockTable, table: &ActorTable, members: &[ActorName])
    requires rising { IsStrictlySortedBy nat_cmp members.now }
    requires home { (a : ℕ) → has members.now a ≡ true
        → HasCell (slot_at table.now.slots a) (λ c. c.heap.owner ≡ a → OwnFit blocks.old c) }
    ensures { blocks.new ≡ without (λ n. has members.now n.owner) blocks.old }
{
    for member in members {
        give_back(blocks, table, *member);
    }
}

/// The blocks of these objects of the actor, whose serials rise, are free.
#[inline(always)]
pub(crate) fn give_back_some(
    blocks: &mut BlockTable,
    table: &ActorTable,
    a: ActorName,
    gone: &[ObjName],
)
    requires rising { SerialsRise gone.now }
    requires home { HasCell (slot_at table.now.slots a) (λ c. c.heap.owner ≡ a
        → OwnFit blocks.old c × AreThere gone.now c) }
    ensures { blocks.new ≡ without (is_one_of gone.now) blocks.old }
{
    if blocks.len() == 0 {
        return;
    }
    let Some(cell) = table.cell(a) else {
        unreachable!();
    };
    give_back_freed(blocks, &cell.heap, gone);
}

// The rows that the actor's turn made go into the lowest free blocks; the letter that was found tells so.
#[inline(never)]
fn place_in_blocks<W: RowWords>(m: &mut Core<'_>, a: ActorName, words: &mut W)
    requires some { 0 < length m.old.parts.blocks }
    requires kept { is_mint (act_in m.old.parts.turned) ≡ false }
    requires made { HasMade a m.old.parts }
    requires room { FitsPlaces m.old.parts }
    requires put { MayPutFree m.old.parts.blocks (W.places words.old) }
    ensures same { m.new ≡ record m.old { parts = m.new.parts } }
    ensures places { Places a m.old.parts m.new.parts (W.known words.old) (W.known words.new) }
    ensures words { W.places words.new ≡ W.places words.old }
    ensures beside { W.beside words.new ≡ W.beside words.old }
{
    let parts = &mut m.parts;
    let Some(cell) = parts.table.cell(a) else {
        unreachable!();
    };
    let first = cell.heap.made();
    let made = parts.turn.made();
    place_rows(&mut parts.blocks, &mut parts.placed, a, first, made, words);
    if let Doing::Post {
        to: _,
        behaviour: _,
    } = parts.turned.doing
    {
        parts
            .turned
            .load
            .lie_in(a, first, made, parts.placed.as_slice());
    }
}

/// The rows that the actor's turn made go into the lowest free blocks, where there are blocks and it
/// keeps them; the letter that was found tells so. It takes no memory.
#[inline(always)]
pub(crate) fn place_made<W: RowWords>(m: &mut Core<'_>, a: ActorName, words: &mut W)
    requires made { HasMade a m.old.parts }
    requires room { FitsPlaces m.old.parts }
    requires put { MayPutFree m.old.parts.blocks (W.places words.old) }
    ensures same { m.new ≡ record m.old { parts = m.new.parts } }
    ensures places { Places a m.old.parts m.new.parts (W.known words.old) (W.known words.new) }
    ensures words { W.places words.new ≡ W.places words.old }
    ensures beside { W.beside words.new ≡ W.beside words.old }
{
    if m.parts.blocks.len() == 0 || mints(&m.parts.turned) {
        m.parts.placed.clear();
        return;
    }
    place_in_blocks(m, a, words);
}
