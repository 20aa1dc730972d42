// Rows that are lent where they are at hand, and told to lie in blocks where they are not.

ghost use Rattle.std.specs.Prelude.{◌≡◌, ℕ, List, Option, Some, Contains};
ghost use Rattle.orca_names.specs.declared.names.ObjName.{ObjName as object_name};
ghost use Rattle.orca_names.specs.declared.names.Value as names;
ghost use Rattle.row_store.specs.Lent.{IsLent};

use orca_names::ObjName;
use row_store::Lent;

/// Finitely many rows of objects, each of which is at hand or lies in a block.
pub trait BlockRows {
    /// The row at each name, if there is one.
    ghost rows: { Self → object_name → Option (List names.Value) };

    /// The block in which each row lies, if it lies in one.
    ghost blocks: { Self → object_name → Option ℕ };

    /// All names that have a row: there are finitely many, so that a walk through rows ends.
    ghost all: { Self → List object_name };

    /// What has a row is among all names.
    ghost within: { (s : Self) (n : object_name) (row : List names.Value) →
        rows s n ≡ Some row → Contains (all s) n };
}

/// Rows that are lent by the names of their objects.
pub trait LentRows: BlockRows {
    /// The row of an object.
    fn row_of(&self, n: ObjName) -> Lent<'_>
        ensures { IsLent (Self.rows self.now n) (Self.blocks self.now n) result };
}
