// Rows that are lent, read from words where they lie in blocks.

ghost use Rattle.std.specs.Prelude.{◌≡◌, ℕ, List, Option, slice_get};
ghost use Rattle.std.specs.Borrow.{GName};
ghost use Rattle.orca_names.specs.declared.names.ObjName.{ObjName as object_name};
ghost use Rattle.row_store.specs.Standing.{Stand, Stand-prop};
ghost use Rattle.orca_names.specs.declared.names.Value.{Value as names};
ghost use Rattle.row_store.specs.Words.{HasRow, HoldsRow, SameWords, Words};

use crate::lent_rows::LentRows;
use crate::telling::{TellsRows, tell_here};
use orca_names::{ObjName, Row, RowReader, Thing, Value};
use row_store::{Lent, RowWords, Told, read, read_value, row_len};

/// A reader of rows that are lent: those in blocks it reads from words.
#[derive(Drop)]
pub struct WithWords<'a, R: LentRows, W: RowWords> {
    pub rows: &'a R,
    pub words: &'a mut W,
    ghost stand: { Stand (R.rows rows.now) (R.blocks rows.now) (W.known words.now) } by { Stand-prop (R.rows rows.now) (R.blocks rows.now) (W.known words.now) },
}

impl<'a, R: LentRows, W: RowWords> WithWords<'a, R, W> {
    /// Reads these rows, whose blocks are known.
    #[inline(always)]
    pub fn of(rows: &'a R, words: &'a mut W) -> WithWords<'a, R, W>
        requires { Stand (R.rows rows.now) (R.blocks rows.now) (W.known words.old) }
        ensures rows { result.rows.now ≡ rows.now }
        ensures words { result.words.now ≡ words.old }
        ensures same { result.words.ghost_name ≡ words.entry.ghost_name }
    {
        WithWords { rows, words }
    }
}

// Writes the row that lies in a block. Out of line: where no row lies in a block it is not called.
#[inline(never)]
fn read_block<W: RowWords>(words: &mut W, block: u32, row: &mut Row)
    requires { HasRow block (W.known words.old) }
    ensures row { (its : List names) → HoldsRow block its (W.known words.old) → row.new ≡ its }
    ensures words { SameWords W.known W.places W.beside words.old words.new }
{
    *row = read(words, block);
}

// The value at a place of the row that lies in a block. Out of line, as `read_block`.
#[inline(never)]
fn read_block_place<W: RowWords>(words: &mut W, block: u32, i: u64) -> Option<Value>
    requires { HasRow block (W.known words.old) }
    ensures value { (its : List names) → HoldsRow block its (W.known words.old)
        → result ≡ slice_get its i }
    ensures words { SameWords W.known W.places W.beside words.old words.new }
{
    let len = row_len(words, block);
    if i < len {
        Some(read_value(words, block, i))
    } else {
        None
    }
}

impl<R: LentRows, W: RowWords> RowReader for WithWords<'_, R, W> {
    ghost Beside = { (object_name → Option ℕ) × GName × Words × List ℕ × W.Beside };

    ghost beside = { λ s. (
      R.blocks s.rows.now,
      s.words.ghost_name,
      W.known s.words.now,
      W.places s.words.now,
      W.beside s.words.now,
    ) };

    ghost rows = { λ s. R.rows s.rows.now };

    ghost all = { λ s. R.all s.rows.now };

    #[inline(always)]
    fn read_into(&mut self, n: ObjName, row: &mut Row) -> bool {
        match self.rows.row_of(n) {
            Lent::Nothing => false,
            Lent::Here(values) => {
                row.set_values(values);
                true
            }
            Lent::In(block) => {
                read_block(self.words, block, row);
                true
            }
        }
    }

    fn read_place(&mut self, n: ObjName, i: u64) -> Option<Value> {
        match self.rows.row_of(n) {
            Lent::Nothing => None,
            Lent::Here(values) => values.get(i as usize).copied(),
            Lent::In(block) => read_block_place(self.words, block, i),
        }
    }

    ghost within = { λ s n row e. R.within s.rows.now n row e };
}

impl<R: LentRows, W: RowWords> TellsRows for WithWords<'_, R, W> {
    ghost use Rattle.std.proofs.Common.{ap};

    ghost blocks = { λ s. R.blocks s.rows.now };

    #[inline(always)]
    fn tell(&mut self, thing: &Thing, told: &mut Told) {
        match thing {
            Thing::Actor(_) => *told = Told::Nothing,
            Thing::Obj(n) => match self.rows.row_of(*n) {
                Lent::Nothing => *told = Told::Nothing,
                Lent::Here(values) => tell_here(told, values),
                Lent::In(block) => *told = Told::In(block),
            },
        }
    }

    ghost same_blocks = { λ s t e. ap (λ beside. beside.0) e };
}
