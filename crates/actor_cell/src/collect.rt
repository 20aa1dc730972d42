// Collect: an idle actor frees what its fields do not reach (Orca, OOPSLA 2017).

ghost use Rattle.std.specs.Prelude.{◌≡◌, [], IfOk};
ghost use Rattle.orca_names.specs.declared.trace.Trace.{Trace as tracing};
ghost use Rattle.orca_names.specs.declared.trace.Trace.TheVariants.{Deep as deep, Roots as roots};
ghost use Rattle.actor_cell.specs.Cells.{as_cell};
ghost use Rattle.row_store.specs.Words.{SameWords};
ghost use Rattle.actor_cell.specs.Sweeps.{IsSweep, KnowsOthersOnly, sweep_of, swept};
ghost use Rattle.letter_kinds.specs.Telling.{HoldsTold, TellsOnly};
ghost use Rattle.actor_cell.specs.Tells.{AllIn, Tells};

use crate::cell::Cell;
use crate::sweeping::Sweep;
use local_sweep::{apply, plan};
use orca_names::{NoMemory, Trace};
use plain_list::Listed;
use root_trace::{plan_roots, unused_rows};
use row_store::RowWords;
use std::alloc::Global;

impl Cell {
    // What it frees and gives back with deep tracing.
    fn find_deep<W: RowWords>(&self, alloc: Global, words: &mut W) -> Result<Sweep, NoMemory>
        requires others { KnowsOthersOnly self.now }
        requires stand { HoldsTold (W.known words.old) (Tells self.now) }
        ensures sweep { IfOk result (λ found. found ≡ sweep_of deep self.now) }
        ensures words { SameWords W.known W.places W.beside words.old words.new }
    {
        let plan = plan(alloc, &self.fields, &self.heap, &self.foreign, words)?;
        Ok(Sweep {
            plan,
            unused: Listed::new(alloc),
        })
    }

    // What it frees, gives back and forgets with root-only tracing.
    fn find_roots<W: RowWords>(&self, alloc: Global, words: &mut W) -> Result<Sweep, NoMemory>
        requires others { KnowsOthersOnly self.now }
        requires stand { HoldsTold (W.known words.old) (Tells self.now) }
        ensures sweep { IfOk result (λ found. found ≡ sweep_of roots self.now) }
        ensures words { SameWords W.known W.places W.beside words.old words.new }
    {
        let plan = plan_roots(alloc, &self.fields, &self.heap, &self.foreign, words)?;
        let unused = unused_rows(alloc, &self.fields, &self.heap, &self.known, words)?;
        Ok(Sweep { plan, unused })
    }

    /// What its collection does.
    ///
    /// # Errors
    /// `NoMemory` where memory was refused.
    pub fn find_collect<W: RowWords>(
        &self,
        alloc: Global,
        trace: Trace,
        words: &mut W,
    ) -> Result<Sweep, NoMemory>
        requires others { KnowsOthersOnly self.now }
        requires stand { HoldsTold (W.known words.old) (Tells self.now) }
        ensures sweep { IfOk result (λ found. found ≡ sweep_of trace self.now) }
        ensures words { SameWords W.known W.places W.beside words.old words.new }
    {
        match trace {
            Trace::Deep => self.find_deep(alloc, words),
            Trace::Roots => self.find_roots(alloc, words),
        }
    }

    /// Frees, gives back and forgets what was found, and is clean then. It takes no memory.
    pub fn apply_collect(&mut self, found: &Sweep)
        requires { IsSweep self.old found.now }
        ensures cell { (trace : tracing) → found.now ≡ sweep_of trace self.old
            → as_cell self.new ≡ swept trace self.old.heap.owner (as_cell self.old) }
        ensures owner { self.new.heap.owner ≡ self.old.heap.owner }
        ensures told { TellsOnly (Tells self.old) [] (Tells self.new) }
        ensures lie { AllIn self.old.heap → AllIn self.new.heap }
    {
        apply(&found.plan, &mut self.heap, &mut self.foreign);
        self.known.forget(found.unused.as_slice());
        self.dirty = false;
    }
}
