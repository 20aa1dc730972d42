// What was found of a turn is done.

ghost use Rattle.std.specs.Prelude.{◌≡◌, ◌∷◌, ◌+◌, ◌<◌, ◌≤◌, ◌^◌, [], IsSome, OnOk, Some, length, slice_get};
ghost use Rattle.turn_rules.specs.declared.act.Frame.{Frame as frame_of_rules};
ghost use Rattle.letter_kinds.specs.Counting.{send};
ghost use Rattle.letter_kinds.specs.Load.{as_load};
ghost use Rattle.object_heap.specs.Heap.{with_new};
ghost use Rattle.trace_send.specs.Can.{CanSend};
ghost use Rattle.actor_cell.specs.Cells.{IsCellOf, IsSame, as_cell};
ghost use Rattle.actor_cell.specs.Finding.{HasRoomToMove};
ghost use Rattle.actor_cell.specs.Goes.{CanMove, cell_by, cell_kept, new_entries, out_of};
ghost use Rattle.actor_cell.specs.Moves.{act_in};
ghost use Rattle.letter_kinds.specs.Telling.{TellsOnly, made_in};
ghost use Rattle.actor_cell.specs.Tells.{AllIn, PutsAll, Tells, blocks_for};

use crate::cell::Cell;
use crate::turning::{Doing, Turned};
use foreign_table::ForeignTable;
use letter_kinds::Load;
use object_heap::ObjectHeap;
use orca_names::{NoMemory, Row};
use trace_send::{mint_counts, send_trace};
use turn_rules::SpareFrame;
use turn_step::Turn;

// The block at a place, where there is one.
fn block_at(blocks: &[u32], i: usize) -> Option<u32>
    ensures { result ≡ slice_get blocks.now i }
{
    blocks.get(i).copied()
}

// The row is that of an own object now: it lies in the block, where there is one, and is at hand else.
fn make_one(heap: &mut ObjectHeap, row: &Row, block: Option<u32>)
    requires room { 0 < heap.old.spare }
    requires serials { heap.old.next + 1 < 2 ^ 64 }
    ensures { heap.new ≡ with_new (row.now ∷ []) (block ∷ []) heap.old }
{
    match block {
        Some(block) => {
            heap.make_in(block, row);
        }
        None => {
            heap.make(*row);
        }
    }
}

// The rows that a turn made are those of own objects now, each in its block, where there is one.
fn make_all(heap: &mut ObjectHeap, made: &[Row], blocks: &[u32])
    requires room { length made.now ≤ heap.old.spare }
    requires serials { heap.old.next + length made.now < 2 ^ 64 }
    ensures { heap.new ≡ with_new made.now (blocks_for made.now blocks.now) heap.old }
{
    for i in 0..made.len() {
        make_one(heap, &made[i], block_at(blocks, i));
    }
}

// Takes the memory for the entries that what was found may bring into the table of what is held.
fn reserve_entries(foreign: &mut ForeignTable, found: &Turned) -> Result<(), NoMemory>
    ensures room { OnOk result (new_entries (act_in found.now) foreign.old.entries ≤ foreign.new.spare) }
    ensures same { foreign.new ≡ record foreign.old { spare = foreign.new.spare } }
{
    match found.doing {
        Doing::New {
            kind: _,
            register: _,
        } => foreign.reserve(1),
        Doing::Mint { owner: _ } => foreign.reserve_for(&found.things),
        _ => Ok(()),
    }
}

impl Cell {
    // A letter with this load is sent.
    fn send(&mut self, load: &Load)
        requires { CanSend self.old.heap.owner (as_load load.now) (as_cell self.old).holdings }
        ensures cell { let me = self.old.heap.owner in
            let h = send me (as_load load.now) (as_cell self.old).holdings in
            IsCellOf me (record (as_cell self.old) { holdings = h }) self.new }
        ensures told { TellsOnly (Tells self.old) [] (Tells self.new) }
        ensures lie { AllIn self.old.heap → AllIn self.new.heap }
    {
        let me = self.heap.owner();
        send_trace(load, me, &mut self.count, &mut self.heap, &mut self.foreign);
    }

    // The fields and the rows of a turn are its own now, each row in its block, where there is one.
    #[inline(always)]
    fn keep_turn(&mut self, turn: &Turn, blocks: &[u32])
        requires room { length turn.now.made ≤ self.old.heap.spare }
        requires serials { self.old.heap.next + length turn.now.made < 2 ^ 64 }
        ensures cell { IsCellOf self.old.heap.owner
            (cell_kept turn.now self.old.frame (as_cell self.old)) self.new }
        ensures foreign { self.new.foreign ≡ self.old.foreign }
        ensures told { TellsOnly (Tells self.old)
            (made_in self.old.heap.owner self.old.heap.next turn.now.made blocks.now)
            (Tells self.new) }
        ensures lie { length turn.now.made ≤ length blocks.now → AllIn self.old.heap
            → AllIn self.new.heap }
    {
        make_all(&mut self.heap, turn.made(), blocks);
        self.fields.copy_from(turn.fields());
    }

    /// Takes the memory for what was found of its turn.
    ///
    /// # Errors
    /// `NoMemory` where memory was refused.
    pub fn reserve_go(&mut self, turn: &Turn, found: &Turned) -> Result<(), NoMemory>
        ensures same { IsSame self.new self.old }
        ensures room { OnOk result (HasRoomToMove turn.now (act_in found.now) self.new) }
        ensures told { TellsOnly (Tells self.old) [] (Tells self.new) }
        ensures lie { AllIn self.old.heap → AllIn self.new.heap }
    {
        self.heap.reserve(turn.made().len())?;
        reserve_entries(&mut self.foreign, found)
    }

    /// Does what was found of its turn. The rows that the turn made lie in these blocks then, the first in
    /// the first; those for which there is none are at hand. It takes no memory. That of a frame that ends
    /// serves again as the spare.
    #[inline(always)]
    pub fn apply_go(&mut self, turn: &Turn, found: &Turned, blocks: &[u32], spare: &mut SpareFrame)
        requires running { IsSome self.old.frame }
        requires can { let me = self.old.heap.owner in
            CanMove me (as_cell self.old).holdings turn.now (act_in found.now) }
        requires room { HasRoomToMove turn.now (act_in found.now) self.old }
        requires serials { self.old.heap.next + length turn.now.made < 2 ^ 64 }
        ensures cell { let me = self.old.heap.owner in
            (frame : frame_of_rules) → self.old.frame ≡ Some frame → as_cell self.new
            ≡ cell_by me (as_cell self.old) frame turn.now found.now.place (act_in found.now) }
        ensures owner { self.new.heap.owner ≡ self.old.heap.owner }
        ensures room { IsSome (out_of (act_in found.now)).made → 0 < self.new.foreign.spare }
        ensures told { TellsOnly (Tells self.old)
            (made_in self.old.heap.owner self.old.heap.next turn.now.made blocks.now)
            (Tells self.new) }
        ensures lie { PutsAll turn.now.made (act_in found.now) blocks.now → AllIn self.old.heap
            → AllIn self.new.heap }
    {
        match found.doing {
            Doing::Post {
                to: _,
                behaviour: _,
            } => {
                self.keep_turn(turn, blocks);
                self.frame.stop_at(found.place, turn.registers());
                self.send(&found.load);
            }
            Doing::Mint { owner: _ } => mint_counts(&found.things, &mut self.foreign),
            Doing::New {
                kind: _,
                register: _,
            } => {
                self.keep_turn(turn, blocks);
                self.frame.stop_at(found.place, turn.registers());
            }
            Doing::Print { value: _ } => {
                self.keep_turn(turn, blocks);
                self.frame.stop_at(found.place, turn.registers());
            }
            Doing::End => {
                self.keep_turn(turn, blocks);
                self.frame.end(spare);
                self.dirty = true;
            }
            Doing::Rest => {
                make_all(&mut self.heap, turn.made(), blocks);
                self.frame.end(spare);
                self.dirty = true;
            }
        }
    }
}
