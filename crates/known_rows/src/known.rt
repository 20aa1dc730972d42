// Both tables of an actor, read as one.

ghost use Rattle.row_store.specs.Memory.{remembered};
ghost use Rattle.row_store.specs.Standing.{AreRemembered};
ghost use Rattle.known_rows.specs.Known.{block_known, row_known};

use foreign_table::ForeignTable;
use object_heap::ObjectHeap;
use orca_names::ObjName;
use reach_walk::{BlockRows, LentRows};
use row_store::{Lent, Remembered};

/// The rows that an actor has in both of its tables.
#[derive(Clone, Copy)]
pub struct KnownRows<'a> {
    pub heap: &'a ObjectHeap,
    pub foreign: &'a ForeignTable,
}

impl KnownRows<'_> {
    /// The rows of both tables that lie in blocks.
    #[inline(always)]
    pub fn memory(&self) -> Remembered
        ensures { let heap = self.now.heap.now in let foreign = self.now.foreign.now in
            AreRemembered (row_known heap foreign) (block_known heap foreign) (remembered result) }
    {
        let KnownRows { heap, foreign } = *self;
        Remembered::parted(heap.owner(), heap.memory(), foreign.memory())
    }
}

impl BlockRows for KnownRows<'_> {
    ghost use Rattle.std.specs.Prelude.{Some, Contains};
    ghost use Rattle.known_rows.specs.Known.{names_known, row_known-within};

    ghost rows = { λ s. row_known s.heap.now s.foreign.now };

    ghost blocks = { λ s. block_known s.heap.now s.foreign.now };

    ghost all = { λ s. names_known s.heap.now s.foreign.now };

    ghost within = { λ s n row e. row_known-within s.heap.now s.foreign.now n row e };
}

impl LentRows for KnownRows<'_> {
    #[inline(always)]
    fn row_of(&self, n: ObjName) -> Lent<'_> {
        let heap = self.heap;
        if n.owner == heap.owner() {
            heap.row(n)
        } else {
            let foreign = self.foreign;
            foreign.row(n)
        }
    }
}
