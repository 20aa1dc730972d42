// Cells copied and compared.

ghost use Rattle.std.specs.Prelude.{◌≡◌, ◌↔◌, [], IfOk, IsTrue};
ghost use Rattle.letter_kinds.specs.Telling.{TellsNothing, TellsOnly};
ghost use Rattle.object_heap.specs.Heap.{AllHere as AllOwnHere};
ghost use Rattle.foreign_table.specs.Table.{AllHere as AllHeldHere};
ghost use Rattle.row_table.specs.Table.{AllKnownHere};
ghost use Rattle.actor_cell.specs.Cells.{IsSame};
ghost use Rattle.actor_cell.specs.Tells.{Tells};

use crate::cell::Cell;
use orca_names::NoMemory;
use std::alloc::Global;
use turn_rules::SpareFrame;

impl Cell {
    // Kind, fields, frame and marks are those of another cell.
    fn same_but_counts(&self, other: &Cell) -> bool
        ensures { IsTrue result ↔ ((self.now.kind ≡ other.now.kind)
            × (self.now.fields ≡ other.now.fields)
            × (self.now.frame ≡ other.now.frame) × (self.now.dirty ≡ other.now.dirty)
            × (self.now.reported ≡ other.now.reported)) }
    {
        self.kind == other.kind
            && self.dirty == other.dirty
            && self.reported == other.reported
            && self.fields == other.fields
            && self.frame.same(&other.frame)
    }

    /// The same cell.
    ///
    /// # Errors
    /// `NoMemory` where memory was refused.
    pub fn copy(&self, alloc: Global) -> Result<Cell, NoMemory>
        ensures same { IfOk result (λ copied. IsSame copied self.now) }
        ensures told { IfOk result (λ copied. TellsOnly (Tells self.now) [] (Tells copied)) }
    {
        let frame = self.frame.copy(alloc)?;
        let heap = self.heap.copy(alloc)?;
        let foreign = self.foreign.copy(alloc)?;
        let known = self.known.copy(alloc)?;
        Ok(Cell {
            kind: self.kind,
            dirty: self.dirty,
            reported: self.reported,
            fields: self.fields,
            frame,
            room: SpareFrame::new(alloc),
            heap,
            foreign,
            known,
            count: self.count,
        })
    }

    /// Where it tells of no row that it lies in a block, none does. It serves proofs alone.
    #[inline(always)]
    pub fn untold_are_here(&self)
        requires { TellsNothing (Tells self.now) }
        ensures own { AllOwnHere self.now.heap }
        ensures held { AllHeldHere self.now.foreign }
        ensures brought { AllKnownHere self.now.known }
    {
        let _own = self.heap.memory();
        self.foreign.untold_are_here();
        self.known.untold_are_here();
    }

    /// Whether it is the same cell, of the same actor. Neither tells of a row in a block.
    pub fn same(&self, other: &Cell) -> bool
        requires here { TellsNothing (Tells self.now) }
        requires there { TellsNothing (Tells other.now) }
        ensures { IsTrue result ↔ IsSame self.now other.now }
    {
        self.untold_are_here();
        other.untold_are_here();
        self.count == other.count
            && self.same_but_counts(other)
            && self.heap.same(&other.heap)
            && self.foreign.same(&other.foreign)
            && self.known.same(&other.known)
    }
}
