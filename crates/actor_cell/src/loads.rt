// What a letter loads, and which rows it carries.

ghost use Rattle.std.specs.Prelude.{◌≡◌, [], IfOk, IfSome, IsTrue, List, OnOk, map};
ghost use Rattle.orca_names.specs.declared.names.Value.{Value as value};
ghost use Rattle.orca_names.specs.declared.trace.Trace.TheVariants.{Deep as deep, Roots as roots};
ghost use Rattle.reach_walk.specs.Reach.{thing_row};
ghost use Rattle.letter_kinds.specs.Holdings.{row_of, with_made};
ghost use Rattle.letter_kinds.specs.Load.{as_load};
ghost use Rattle.letter_kinds.specs.Telling.{HoldsTold, TellsOnly, Told};
ghost use Rattle.machine_rules.specs.Go.{load_from, rows_from};
ghost use Rattle.row_store.specs.Words.{SameWords};
ghost use Rattle.actor_cell.specs.Cells.{as_cell};
ghost use Rattle.actor_cell.specs.Goes.{having_made, things_from};
ghost use Rattle.actor_cell.specs.Tells.{Tells};

use crate::cell::Cell;
use foreign_table::ForeignTable;
use known_rows::{KnownRows, TurnPlaces, TurnRows, may_reach_many};
use letter_kinds::Load;
use orca_names::{Args, NoMemory, Row, Thing, Trace};
use reach_walk::{ThingList, WithWords, find_flat, find_loaded, load_by_place, with_rows};
use root_trace::{find_loaded_roots, rows_of, without_rows};
use row_store::RowWords;
use std::alloc::Global;

impl Cell {
    // The rows that it has by this table, with those that its turn made.
    fn rows_with<'a>(&'a self, table: &'a ForeignTable, made: &'a [Row]) -> TurnRows<'a>
        ensures { (result.known.heap.now ≡ self.now.heap)
            × (result.known.foreign.now ≡ table.now) × (result.made.now ≡ made.now) }
    {
        TurnRows {
            known: KnownRows {
                heap: &self.heap,
                foreign: table,
            },
            made,
        }
    }

    // Finds the things that these arguments reach, where the turn made these rows.
    fn find_reached<W: RowWords>(
        &self,
        alloc: Global,
        made: &[Row],
        args: &Args,
        things: &mut ThingList,
        words: &mut W,
    ) -> Result<(), NoMemory>
        requires stand { HoldsTold (W.known words.old) (Tells self.now) }
        ensures things { let h = with_made made.now (as_cell self.now).holdings in
            OnOk result (things.new ≡ things_from deep self.now.heap.owner h args.now) }
        ensures words { SameWords W.known W.places W.beside words.old words.new }
    {
        let rows = self.rows_with(&self.foreign, made);
        if find_flat(args, &rows, things, words)? {
            return Ok(());
        }
        find_loaded(alloc, args, &mut WithWords::of(&rows, words), things)
    }

    // Whether the arguments may reach so much that places are worth while.
    pub(crate) fn reaches_many(&self, trace: Trace, made: &[Row], args: &Args) -> bool
        ensures { IsTrue result → trace ≡ deep }
    {
        match trace {
            Trace::Deep => may_reach_many(&self.rows_with(&self.foreign, made), args),
            Trace::Roots => false,
        }
    }

    // The load of a letter with these arguments, by places, where the turn made these rows; `None`
    // where places do not serve.
    #[inline(never)]
    pub(crate) fn load_of_many<W: RowWords>(
        &self,
        alloc: Global,
        made: &[Row],
        args: &Args,
        words: &mut W,
    ) -> Result<Option<Load>, NoMemory>
        requires stand { HoldsTold (W.known words.old) (Tells self.now) }
        ensures load { let h = with_made made.now (as_cell self.now).holdings in
            IfOk result (λ found. IfSome found (λ load.
            as_load load ≡ load_from deep self.now.heap.owner h args.now)) }
        ensures told { IfOk result (λ found. IfSome found (λ load.
            TellsOnly (Tells self.now) [] (Told load))) }
        ensures words { SameWords W.known W.places W.beside words.old words.new }
    {
        let rows = self.rows_with(&self.foreign, made);
        match TurnPlaces::of(rows) {
            Some(places) => match load_by_place(alloc, args, &places, words)? {
                Some(items) => Ok(Some(Load::with(items, rows.memory()))),
                None => Ok(None),
            },
            None => Ok(None),
        }
    }

    // These things with their rows, where the turn made these.
    #[inline(always)]
    fn rowed<W: RowWords>(
        &self,
        alloc: Global,
        made: &[Row],
        things: &[Thing],
        words: &mut W,
    ) -> Result<Load, NoMemory>
        requires stand { HoldsTold (W.known words.old) (Tells self.now) }
        ensures load { let rows = row_of self.now.heap.owner
            (with_made made.now (as_cell self.now).holdings) in
            IfOk result (λ load. as_load load ≡ map (λ x. (x, thing_row rows x)) things.now) }
        ensures told { IfOk result (λ load. TellsOnly (Tells self.now) [] (Told load)) }
        ensures words { SameWords W.known W.places W.beside words.old words.new }
    {
        let rows = self.rows_with(&self.foreign, made);
        let items = with_rows(alloc, things, &mut WithWords::of(&rows, words))?;
        Ok(Load::with(items, rows.memory()))
    }

    // Finds the things that a letter with these arguments loads, where the turn made these rows.
    pub(crate) fn find_things<W: RowWords>(
        &self,
        alloc: Global,
        trace: Trace,
        made: &[Row],
        args: &Args,
        things: &mut ThingList,
        words: &mut W,
    ) -> Result<(), NoMemory>
        requires stand { HoldsTold (W.known words.old) (Tells self.now) }
        ensures things { let h = with_made made.now (as_cell self.now).holdings in
            OnOk result (things.new ≡ things_from trace self.now.heap.owner h args.now) }
        ensures words { SameWords W.known W.places W.beside words.old words.new }
    {
        match trace {
            Trace::Deep => self.find_reached(alloc, made, args, things, words),
            Trace::Roots => find_loaded_roots(alloc, args, things),
        }
    }

    // What a letter loads whose arguments lead to these things, where the turn made these rows.
    #[inline(always)]
    pub(crate) fn load<W: RowWords>(
        &self,
        alloc: Global,
        trace: Trace,
        made: &[Row],
        things: &[Thing],
        words: &mut W,
    ) -> Result<Load, NoMemory>
        requires stand { HoldsTold (W.known words.old) (Tells self.now) }
        ensures load { let h = with_made made.now (as_cell self.now).holdings in
            (args : List value) → things.now ≡ things_from trace self.now.heap.owner h args
            → IfOk result (λ load. as_load load ≡ load_from trace self.now.heap.owner h args) }
        ensures told { IfOk result (λ load. TellsOnly (Tells self.now) [] (Told load)) }
        ensures words { SameWords W.known W.places W.beside words.old words.new }
    {
        match trace {
            Trace::Deep => self.rowed(alloc, made, things, words),
            Trace::Roots => without_rows(alloc, things),
        }
    }

    // The rows that these arguments reach, its own and those that letters brought, where the turn
    // made these.
    #[inline(never)]
    fn brought<'a, W: RowWords>(
        &'a self,
        alloc: Global,
        made: &'a [Row],
        args: &Args,
        words: &mut W,
    ) -> Result<Load, NoMemory>
        requires stand { HoldsTold (W.known words.old) (Tells self.now) }
        ensures rows { let c = having_made made.now (as_cell self.now) in
            IfOk result (λ rows. as_load rows ≡ rows_from roots self.now.heap.owner c args.now) }
        ensures told { IfOk result (λ rows. TellsOnly (Tells self.now) [] (Told rows)) }
        ensures words { SameWords W.known W.places W.beside words.old words.new }
    {
        let nothing = ForeignTable::new(alloc);
        let rows = self.rows_with(self.known.held_or(&nothing), made);
        let memory = rows.memory();
        rows_of(alloc, args, &mut WithWords::of(&rows, words), memory)
    }

    // The rows that a letter with these arguments carries, where the turn made these.
    #[inline(always)]
    pub(crate) fn carried<W: RowWords>(
        &self,
        alloc: Global,
        trace: Trace,
        made: &[Row],
        args: &Args,
        words: &mut W,
    ) -> Result<Load, NoMemory>
        requires stand { HoldsTold (W.known words.old) (Tells self.now) }
        ensures rows { let c = having_made made.now (as_cell self.now) in
            IfOk result (λ rows. as_load rows ≡ rows_from trace self.now.heap.owner c args.now) }
        ensures told { IfOk result (λ rows. TellsOnly (Tells self.now) [] (Told rows)) }
        ensures words { SameWords W.known W.places W.beside words.old words.new }
    {
        match trace {
            Trace::Deep => Ok(Load::new(alloc)),
            Trace::Roots => self.brought(alloc, made, args, words),
        }
    }
}
