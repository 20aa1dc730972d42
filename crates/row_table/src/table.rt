// The table.

ghost use Rattle.std.specs.Prelude.{◌≡◌, ◌↔◌, ◌<◌, ◌≤◌, not, IfOk, IsSome, IsTrue, MatchOption, OnOk, Some};
ghost use Rattle.std.specs.FinMap as m;
ghost use Rattle.orca_names.specs.declared.names.Thing.TheVariants.{Obj as object};
ghost use Rattle.letter_kinds.specs.Telling.{TellsNothing};
ghost use Rattle.row_store.specs.Memory.{remembered};
ghost use Rattle.row_store.specs.Told.{row_here, told_block, told_row};
ghost use Rattle.foreign_table.specs.Back.{BackRises, goes_back};
ghost use Rattle.foreign_table.specs.Table.{block_at, no_table, row_length};
ghost use Rattle.row_table.specs.Table.{AllKnownHere, as_held, learnt, nothing_known};

use foreign_table::ForeignTable;
use letter_kinds::Amounts;
use orca_names::{ActorName, NoMemory, Thing};
use row_store::{Remembered, Told};
use std::alloc::Global;
use std::marker::Model;

/// The rows of others' objects that letters brought, and the room for new ones. No count is kept:
/// for what reads rows by a table of held things, each stands in one with count 0. The table stands
/// in memory of its own, which is taken when it is first needed: most actors know no such row.
#[derive(Drop)]
pub struct RowTable {
    held: Option<Box<ForeignTable>>,
    alloc: Global,
}

impl Model for RowTable {
    ghost use Rattle.row_table.specs.Table.{AreUncounted, KnownRows, coded_rows, known_in};

    ghost Value = { KnownRows };

    ghost coded = { coded_rows };

    ghost view = { λ s. known_in s.held };

    ghost invariant = { λ s. AreUncounted s.held };
}

// Raises the room of a table.
fn reserve_in(table: &mut ForeignTable, n: usize, values: usize) -> Result<(), NoMemory>
    ensures room { OnOk result (n ≤ table.new.spare) }
    ensures values { OnOk result (values ≤ table.new.spare_values) }
    ensures more { (table.old.spare ≤ table.new.spare)
        × (table.old.spare_values ≤ table.new.spare_values) }
    ensures same { (table.new.entries ≡ table.old.entries)
        × (table.new.blocks ≡ table.old.blocks) }
{
    table.reserve(n)?;
    table.reserve_values(values)
}

impl RowTable {
    /// No row is known. It takes no memory.
    pub fn new(alloc: Global) -> RowTable
        ensures { result ≡ nothing_known }
    {
        RowTable { held: None, alloc }
    }

    // Raises the room, where some is wanted.
    #[inline(never)]
    fn reserve_some(&mut self, n: usize, values: usize) -> Result<(), NoMemory>
        ensures room { OnOk result (n ≤ self.new.spare) }
        ensures values { OnOk result (values ≤ self.new.spare_values) }
        ensures more { (self.old.spare ≤ self.new.spare)
            × (self.old.spare_values ≤ self.new.spare_values) }
        ensures same { (self.new.rows ≡ self.old.rows) × (self.new.blocks ≡ self.old.blocks) }
    {
        match &mut self.held {
            Some(table) => reserve_in(table, n, values),
            None => {
                let mut table = ForeignTable::new(self.alloc);
                reserve_in(&mut table, n, values)?;
                self.held = Some(Box::new(self.alloc, table)?);
                Ok(())
            }
        }
    }

    /// Raises the room for new rows, and for their values, to at least this.
    ///
    /// # Errors
    /// `NoMemory` where memory was refused; the rows are then as before.
    #[inline(always)]
    pub fn reserve(&mut self, n: usize, values: usize) -> Result<(), NoMemory>
        ensures room { OnOk result (n ≤ self.new.spare) }
        ensures values { OnOk result (values ≤ self.new.spare_values) }
        ensures more { (self.old.spare ≤ self.new.spare)
            × (self.old.spare_values ≤ self.new.spare_values) }
        ensures same { self.new ≡ record self.old {
          spare = self.new.spare;
          spare_values = self.new.spare_values;
        } }
    {
        if n == 0 && values == 0 {
            return Ok(());
        }
        self.reserve_some(n, values)
    }

    /// The row of a thing is from now on the one that is told, if one is; in a block it is the one that
    /// is remembered there. It takes no memory.
    pub fn learn(&mut self, thing: Thing, told: &Told, from: &Remembered)
        requires room { 0 < self.old.spare }
        requires values { row_length (row_here told.now) ≤ self.old.spare_values }
        requires told { IsSome (told_block told.now)
            → IsSome (told_row (remembered from.now) thing told.now) }
        ensures { let row = told_row (remembered from.now) thing told.now in
            self.new ≡ learnt thing row (told_block told.now) self.old }
    {
        if !told.is_told() {
            return;
        }
        let Some(held) = &mut self.held else {
            unreachable!();
        };
        held.gain(thing, told, from, 0);
    }

    /// The rows, as entries of count 0 among held things; `None` only where no row is known.
    pub fn held(&self) -> Option<&ForeignTable>
        ensures { MatchOption result (self.now.rows ≡ m.empty) (λ t. t.now ≡ as_held self.now) }
    {
        match &self.held {
            Some(held) => Some(&**held),
            None => None,
        }
    }

    /// The same, or where there is none this table of no entries.
    pub fn held_or<'a>(&'a self, empty: &'a ForeignTable) -> &'a ForeignTable
        requires { empty.now ≡ no_table }
        ensures { result.now ≡ as_held self.now }
    {
        match &self.held {
            Some(held) => &**held,
            None => empty,
        }
    }

    /// Forgets the rows of these things, whose owners and things rise, in one pass.
    pub fn forget(&mut self, gone: &[(ActorName, Amounts)])
        requires { BackRises gone.now }
        ensures rows { self.new.rows
            ≡ m.retain_keys self.old.rows (λ x. not (goes_back gone.now x)) }
        ensures blocks { self.new.blocks
            ≡ m.retain_keys self.old.blocks (λ x. not (goes_back gone.now x)) }
    {
        match &mut self.held {
            Some(held) => held.give_back(gone),
            None => {}
        }
    }

    /// Where nothing tells of a row that it lies in a block, none does. It serves proofs, and does nothing.
    pub fn untold_are_here(&self)
        ensures { TellsNothing (λ n row block. (m.get self.now.rows (object n) ≡ Some row)
            × (block_at self.now.blocks (object n) ≡ Some block)) → AllKnownHere self.now }
    {
        match &self.held {
            Some(held) => held.untold_are_here(),
            None => {}
        }
    }

    /// The same rows.
    ///
    /// # Errors
    /// `NoMemory` where memory was refused.
    pub fn copy(&self, alloc: Global) -> Result<RowTable, NoMemory>
        ensures { IfOk result (λ copied. (copied.rows ≡ self.now.rows)
            × (copied.blocks ≡ self.now.blocks)) }
    {
        let held = match &self.held {
            Some(held) => Some(Box::new(alloc, held.copy(alloc)?)?),
            None => None,
        };
        Ok(RowTable { held, alloc })
    }

    // Whether no row is known.
    fn is_empty(&self) -> bool
        ensures rows { IsTrue result ↔ (self.now.rows ≡ m.empty) }
        ensures blocks { IsTrue result → self.now.blocks ≡ m.empty }
    {
        match &self.held {
            Some(held) => held.len() == 0,
            None => true,
        }
    }

    /// Whether the rows are those of another table. No row lies in a block.
    pub fn same(&self, other: &RowTable) -> bool
        requires { AllKnownHere self.now }
        ensures same { IsTrue result
            ↔ ((self.now.rows ≡ other.now.rows) × (self.now.blocks ≡ other.now.blocks)) }
        ensures alike { AllKnownHere other.now → self.now.rows ≡ other.now.rows
            → self.now.blocks ≡ other.now.blocks }
    {
        let Some(held) = &self.held else {
            return other.is_empty();
        };
        let Some(others) = &other.held else {
            return self.is_empty();
        };
        held.same(others)
    }
}
