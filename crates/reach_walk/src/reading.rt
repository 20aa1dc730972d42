// The row of a thing.

ghost use Rattle.std.specs.Prelude.{◌≡◌, if◌then◌else◌, None, Some};
ghost use Rattle.reach_walk.specs.Reach.{thing_row};

use orca_names::{Row, RowReader, Thing};

/// Whether a thing has a row, which is then written to the last parameter.
pub(crate) fn read_row<R: RowReader>(rows: &mut R, thing: &Thing, row: &mut Row) -> bool
    ensures row { thing_row (R.rows rows.old) thing.now ≡ (if result then Some row.new else None) }
    ensures rows { (R.rows rows.new ≡ R.rows rows.old) × (R.all rows.new ≡ R.all rows.old)
        × (R.beside rows.new ≡ R.beside rows.old) }
{
    match thing {
        Thing::Actor(_) => false,
        Thing::Obj(n) => rows.read_into(*n, row),
    }
}
