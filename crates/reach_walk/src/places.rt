// Places of things, and rows that are lent by place.

ghost use Rattle.std.specs.Prelude.{◌≡◌, ◌<◌, ℕ, Option, None, Some};
ghost use Rattle.std.specs.Ordering.{nat_cmp};
ghost use Rattle.orca_names.specs.Names.{thing_cmp};
ghost use Rattle.orca_names.specs.declared.names.ObjName.{ObjName as object_name};
ghost use Rattle.orca_names.specs.declared.names.Thing.{Thing as thing};
ghost use Rattle.orca_names.specs.declared.names.Thing.TheVariants.{Obj as object};
ghost use Rattle.reach_walk.specs.Dense.{StandTogether};
ghost use Rattle.row_store.specs.Lent.{IsLent};
ghost use Rattle.row_store.specs.Told.{thing_block, thing_row};

use crate::dense::Dense;
use crate::lent_rows::BlockRows;
use orca_names::Thing;
use row_store::Lent;

/// Places that many things have, as those in a table, in the order of things: what was seen of them
/// is told by one bit a place. A thing without a place is allowed.
pub trait Places {
    /// The place of a thing, if it has one.
    ghost place: { Self → thing → Option ℕ };

    /// How many places there are.
    ghost count: { Self → ℕ };

    /// How many places there are.
    fn places(&self) -> usize
        ensures { result ≡ count self.now };

    /// The place of a thing; `None` exactly where it has none.
    fn place_of(&self, thing: &Thing) -> Option<usize>
        ensures { result ≡ place self.now thing.now };

    /// Places are below their number.
    ghost below: { (s : Self) (x : thing) (p : ℕ) → place s x ≡ Some p → p < count s };

    /// Places go in the order of things.
    ghost in_order: { (s : Self) (x y : thing) (p q : ℕ) →
        place s x ≡ Some p → place s y ≡ Some q → thing_cmp x y ≡ nat_cmp p q };
}

/// Rows of things that have places: a place leads to its thing and to the row. A thing without a
/// place has no row.
pub trait PlacedRows: BlockRows + Places {
    /// The thing at a place, and its row. What is answered where there is no such place means
    /// nothing.
    fn entry_at(&self, at: usize) -> (Thing, Lent<'_>)
        ensures thing { at < Self.count self.now → Self.place self.now result.0 ≡ Some at }
        ensures row { let rows = thing_row (Self.rows self.now) in
            let blocks = thing_block (Self.blocks self.now) in
            at < Self.count self.now → IsLent (rows result.0) (blocks result.0) result.1 };

    /// Objects of one owner that stand together: none, or as many as do. What a walk meets of these it
    /// finds by their serials alone.
    fn dense(&self) -> Dense<'_>
        ensures { StandTogether (Self.place self.now) (Self.rows self.now) (Self.blocks self.now)
            result };

    /// What has a row has a place.
    ghost only_placed: { (s : Self) (n : object_name) →
        Self.place s (object n) ≡ None → Self.rows s n ≡ None };
}
