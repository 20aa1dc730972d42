// What is told of a row.

ghost use Rattle.std.specs.Prelude.{◌≡◌, ◌||◌, is_some};
ghost use Rattle.row_store.specs.Told.{row_here, told_block};

use orca_names::Row;

/// What is told of a thing's row, where the thing is owned, known or loaded: the row itself, or the
/// number of the block in which it lies. Which row that is proofs remember beside the list in which it
/// is told (`Remembered`). It is as large as an `Option` of a row: a row that does not come with its
/// thing is a case of this enum, and not an `Option` around it.
#[derive(Clone, Copy, Debug, PartialEq)]
pub enum Told {
    /// No row: the thing is an actor, or its row is not known.
    Nothing,
    /// The row is at hand.
    Here(Row),
    /// It lies in this block.
    In(u32),
}

impl Told {
    /// The block in which the row lies, if it does.
    #[inline(always)]
    pub fn block(&self) -> Option<u32>
        ensures { result ≡ told_block self.now }
    {
        match self {
            Told::Nothing => None,
            Told::Here(_) => None,
            Told::In(block) => Some(*block),
        }
    }

    /// Whether a row is told.
    #[inline(always)]
    pub fn is_told(&self) -> bool
        ensures { result ≡ (is_some (row_here self.now) || is_some (told_block self.now)) }
    {
        match self {
            Told::Nothing => false,
            Told::Here(_) => true,
            Told::In(_) => true,
        }
    }
}
