// A row that is lent.

ghost use Rattle.std.specs.Prelude.{◌≤◌, IfSome, None, length};
ghost use Rattle.std.specs.Option.{option_copied};
ghost use Rattle.row_store.specs.Lent.{IsLent};

use orca_names::Value;

/// A row as a table lends it: its values, or the number of the block in which they lie.
#[derive(Clone, Copy, Debug)]
pub enum Lent<'a> {
    /// No row is known.
    Nothing,
    /// The row is at hand: 1 to 8 values.
    Here(&'a [Value]),
    /// It lies in this block.
    In(u32),
}

impl<'a> Lent<'a> {
    /// A row of 1 to 8 values that lies in no block, if there is one.
    #[inline(always)]
    pub fn at_hand(row: Option<&'a [Value]>) -> Lent<'a>
        requires { IfSome row (λ values. (1 ≤ length values.now) × (length values.now ≤ 8)) }
        ensures { IsLent (option_copied row.entry) None result }
    {
        match row {
            None => Lent::Nothing,
            Some(values) => Lent::Here(values),
        }
    }
}
