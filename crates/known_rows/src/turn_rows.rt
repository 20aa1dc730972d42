// The rows that an actor has in a turn.

ghost use Rattle.std.specs.Prelude.{◌≡◌};
ghost use Rattle.std.specs.Option.{option_copied};
ghost use Rattle.row_store.specs.Memory.{remembered};
ghost use Rattle.row_store.specs.Standing.{AreRemembered};
ghost use Rattle.letter_kinds.specs.Holdings.{row_of, with_made};
ghost use Rattle.known_rows.specs.Holdings.{holdings_of};
ghost use Rattle.known_rows.specs.InTurn.{made_in_turn, turn_block};

use crate::known::KnownRows;
use orca_names::{ActorName, ObjName, Row};
use reach_walk::{BlockRows, LentRows};
use row_store::{Lent, Remembered};

/// The rows that an actor has where a turn stops: those of before, and those that the turn made,
/// which are at hand.
#[derive(Clone, Copy)]
pub struct TurnRows<'a> {
    pub known: KnownRows<'a>,
    pub made: &'a [Row],
}

// A row that the turn made; the first of them has this serial.
fn made_row<'a>(made: &'a [Row], me: ActorName, first: u64, n: &ObjName) -> Option<&'a Row>
    ensures { option_copied result ≡ made_in_turn me first made.now n.now }
{
    if n.owner != me {
        return None;
    }
    let serial = n.serial.get();
    if serial < first {
        return None;
    }
    made.get((serial - first) as usize)
}

impl TurnRows<'_> {
    /// The rows that lie in blocks.
    #[inline(always)]
    pub fn memory(&self) -> Remembered
        ensures { let heap = self.now.known.heap.now in let foreign = self.now.known.foreign.now in
            let made = self.now.made.now in
            let rows = row_of heap.owner (with_made made (holdings_of 0 heap foreign)) in
            AreRemembered rows (turn_block made heap foreign) (remembered result) }
    {
        self.known.memory()
    }
}

impl BlockRows for TurnRows<'_> {
    ghost use Rattle.letter_kinds.specs.Holdings.{known_objects};
    ghost use Rattle.known_rows.specs.InTurn.{row_is_known};

    ghost rows = { λ s. row_of s.known.heap.now.owner
        (with_made s.made.now (holdings_of 0 s.known.heap.now s.known.foreign.now)) };

    ghost blocks = { λ s. turn_block s.made.now s.known.heap.now s.known.foreign.now };

    ghost all = { λ s. known_objects s.known.heap.now.owner
        (with_made s.made.now (holdings_of 0 s.known.heap.now s.known.foreign.now)) };

    ghost within = { λ s n row e. row_is_known s.known.heap.now.owner
        (with_made s.made.now (holdings_of 0 s.known.heap.now s.known.foreign.now)) n row e };
}

impl LentRows for TurnRows<'_> {
    #[inline(always)]
    fn row_of(&self, n: ObjName) -> Lent<'_> {
        let heap = self.known.heap;
        match made_row(self.made, heap.owner(), heap.made(), &n) {
            Some(row) => Lent::Here(row.as_slice()),
            None => self.known.row_of(n),
        }
    }
}
