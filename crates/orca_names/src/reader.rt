// Reading rows one at a time.

ghost use Rattle.std.specs.Prelude.{◌≡◌, ⊤, if◌then◌else◌, List, Option, None, Some, Contains, option_and_then, slice_get};
ghost use Rattle.orca_names.specs.declared.names.ObjName.{ObjName as object_name};
ghost use Rattle.orca_names.specs.declared.names.Value as names;

use crate::names::{ObjName, Value};
use crate::row::Row;
use crate::rows::Rows;

/// Finitely many rows, read one at a time by the names of their objects. A read may use the reader
/// up to its own ends, as one does that reads shared memory, but the rows stay as they are.
pub trait RowReader {
    /// What the reader stands beside: all else that reading leaves as it is.
    ghost Beside: { Type 0 };

    ghost beside: { Self → Beside };

    /// The row at each name, if there is one.
    ghost rows: { Self → object_name → Option (List names.Value) };

    /// All names that have a row: there are finitely many, so that a walk through rows ends.
    ghost all: { Self → List object_name };

    /// Whether an object's row is there; it is then written to the last parameter. What that holds
    /// where there is none is left open.
    fn read_into(&mut self, n: ObjName, row: &mut Row) -> bool
        ensures row { rows self.old n ≡ (if result then Some row.new else None) }
        ensures same { (rows self.new ≡ rows self.old) × (all self.new ≡ all self.old)
            × (beside self.new ≡ beside self.old) };

    /// The row of an object; `None` exactly where it is not there.
    fn read_row(&mut self, n: ObjName) -> Option<Row>
        ensures row { result ≡ rows self.old n }
        ensures same { (rows self.new ≡ rows self.old) × (all self.new ≡ all self.old)
            × (beside self.new ≡ beside self.old) }
    {
        let mut row = Row::of(&[Value::Null]);
        if self.read_into(n, &mut row) {
            Some(row)
        } else {
            None
        }
    }

    /// The value at a place of an object's row, counted from 0; `None` exactly where there is no
    /// such row or place.
    fn read_place(&mut self, n: ObjName, i: u64) -> Option<Value>
        ensures value { result ≡ option_and_then (λ row. slice_get row i) (rows self.old n) }
        ensures same { (rows self.new ≡ rows self.old) × (all self.new ≡ all self.old)
            × (beside self.new ≡ beside self.old) }
    {
        let row = self.read_row(n)?;
        row.get(i)
    }

    /// What has a row is among all names.
    ghost within: { (s : Self) (n : object_name) (row : List names.Value) →
        rows s n ≡ Some row → Contains (all s) n };
}

/// Rows that stand where they can be looked up, as a reader of them.
#[derive(Clone, Copy)]
pub struct Reading<'a, R> {
    pub rows: &'a R,
}

impl<R: Rows> RowReader for Reading<'_, R> {
    ghost Beside = { ⊤ };

    ghost beside = { λ _. tt };

    ghost rows = { λ s. R.rows s.rows.now };

    ghost all = { λ s. R.all s.rows.now };

    #[inline(always)]
    fn read_into(&mut self, n: ObjName, row: &mut Row) -> bool {
        match self.rows.row_of(n) {
            Some(values) => {
                row.set_values(values);
                true
            }
            None => false,
        }
    }

    fn read_place(&mut self, n: ObjName, i: u64) -> Option<Value> {
        self.rows.row_of(n)?.get(i as usize).copied()
    }

    ghost within = { λ s n row e. R.within s.rows.now n row e };
}
