// Where the rows of objects are found.

ghost use Rattle.std.specs.Prelude.{◌≡◌, ◌≤◌, List, Option, Some, Contains, IfSome, length};
ghost use Rattle.std.specs.Option.{option_copied};
ghost use Rattle.orca_names.specs.declared.names.ObjName.{ObjName as object_name};
ghost use Rattle.orca_names.specs.declared.names.Value as names;

use crate::names::{ObjName, Value};

/// Finitely many rows, found by the names of their objects.
pub trait Rows {
    /// The row at each name, if there is one.
    ghost rows: { Self → object_name → Option (List names.Value) };

    /// All names that have a row: there are finitely many, so that a walk through rows ends.
    ghost all: { Self → List object_name };

    /// The values of an object's row; `None` exactly where it is not there.
    fn row_of(&self, n: ObjName) -> Option<&[Value]>
        ensures row { option_copied result ≡ rows self.now n }
        ensures room { IfSome result (λ values.
            (1 ≤ length values.now) × (length values.now ≤ 8)) };

    /// What has a row is among all names.
    ghost within: { (s : Self) (n : object_name) (row : List names.Value) →
        rows s n ≡ Some row → Contains (all s) n };
}
