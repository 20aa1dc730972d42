// Block: an actor with nothing to do reports (MAC, OOPSLA 2013).

ghost use Rattle.std.specs.Prelude.{◌≡◌, [], true, IfOk};
ghost use Rattle.actor_cell.specs.Cells.{IsCellOf, as_cell};
ghost use Rattle.actor_cell.specs.Outs.{report_of};
ghost use Rattle.letter_kinds.specs.Telling.{TellsOnly};
ghost use Rattle.actor_cell.specs.Tells.{AllIn, Tells};

use crate::cell::Cell;
use block_report::report;
use letter_kinds::Note;
use orca_names::NoMemory;
use std::alloc::Global;

impl Cell {
    /// The report of its count and of its counts on other actors.
    ///
    /// # Errors
    /// `NoMemory` where memory was refused.
    pub fn report(&self, alloc: Global) -> Result<Note, NoMemory>
        ensures { IfOk result (λ note. note ≡ report_of self.now.heap.owner (as_cell self.now)) }
    {
        report(alloc, self.heap.owner(), self.count.get(), &self.foreign)
    }

    /// It reported.
    pub fn apply_block(&mut self)
        ensures cell { IsCellOf self.old.heap.owner
            (record (as_cell self.old) { reported = true }) self.new }
        ensures told { TellsOnly (Tells self.old) [] (Tells self.new) }
        ensures lie { AllIn self.old.heap → AllIn self.new.heap }
    {
        self.reported = true;
    }
}
