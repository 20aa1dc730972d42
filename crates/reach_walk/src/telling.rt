// Telling the rows of things.

ghost use Rattle.std.specs.Prelude.{◌≡◌, ◌≤◌, ℕ, None, Option, length};
ghost use Rattle.orca_names.specs.declared.names.ObjName.{ObjName as object_name};
ghost use Rattle.row_store.specs.declared.told.Told.TheVariants.{Here as here};
ghost use Rattle.row_store.specs.Told.{thing_block, thing_row, told_block, told_row};

use orca_names::{Args, Reading, Row, RowReader, Rows, Thing, Value};
use row_store::Told;

/// Rows that are told with the things of a load: a row that lies in a block is told by the number of
/// the block, and is not read.
pub trait TellsRows: RowReader {
    /// The block in which each row lies, if it lies in one.
    ghost blocks: { Self → object_name → Option ℕ };

    /// Writes what is told of a thing's row to the last parameter.
    fn tell(&mut self, thing: &Thing, told: &mut Told)
        ensures row { let rows = Self.rows self.old in
            told_row rows thing.now told.new ≡ thing_row rows thing.now }
        ensures block { told_block told.new ≡ thing_block (blocks self.old) thing.now }
        ensures same { (Self.rows self.new ≡ Self.rows self.old)
            × (Self.all self.new ≡ Self.all self.old)
            × (Self.beside self.new ≡ Self.beside self.old) };

    /// The blocks stay with what the reader stands beside.
    ghost same_blocks: { (s t : Self) → Self.beside t ≡ Self.beside s → blocks t ≡ blocks s };
}

// The row is at hand. It is written into its place: as a part of what is told it would be copied.
#[inline(always)]
pub(crate) fn tell_here(told: &mut Told, values: &[Value])
    requires { (1 ≤ length values.now) × (length values.now ≤ 8) }
    ensures { told.new ≡ here values.now }
{
    *told = Told::Here(Row::from_args(Args::nulls(1)));
    if let Told::Here(row) = told {
        row.set_values(values);
    }
}

/// None of these lies in a block.
impl<R: Rows> TellsRows for Reading<'_, R> {
    ghost use Rattle.std.specs.Prelude.{refl};

    ghost blocks = { λ _ _. None };

    #[inline(always)]
    fn tell(&mut self, thing: &Thing, told: &mut Told) {
        match thing {
            Thing::Actor(_) => *told = Told::Nothing,
            Thing::Obj(n) => match self.rows.row_of(*n) {
                Some(values) => tell_here(told, values),
                None => *told = Told::Nothing,
            },
        }
    }

    ghost same_blocks = { λ _ _ _. refl };
}
