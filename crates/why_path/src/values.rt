// The values by which a thing leads to others.

ghost use Rattle.std.specs.Prelude.{◌≡◌, ◌≤◌, [], length};
ghost use Rattle.letter_kinds.specs.Letters.{as_letter};
ghost use Rattle.orca_core.specs.Machine.{NoneIsAway};
ghost use Rattle.why_path.specs.Edges.{args_of, registers_of, row_left};
ghost use Rattle.why_path.specs.Seats.{as_seat};

use crate::seats::{Seated, seat_of};
use letter_kinds::Letter;
use orca_core::Orca;
use orca_names::{ObjName, Value};
use row_store::Lent;

/// The arguments of an application letter; another letter has none.
pub(crate) fn args_of(letter: &Letter) -> &[Value]
    ensures value { result.now ≡ args_of (as_letter letter.now) }
    ensures few { length result.now ≤ 8 }
{
    match letter {
        Letter::App {
            behaviour: _,
            args,
            load: _,
            rows: _,
        } => args.as_args().as_slice(),
        Letter::Inc { things: _ } => &[],
        Letter::Dec { things: _ } => &[],
        Letter::Confirm { token: _ } => &[],
    }
}

/// The registers of an actor that stands within a turn; another has none.
pub(crate) fn registers_of<'a>(seat: &Seated<'a>) -> &'a [Value]
    ensures value { result.now ≡ registers_of (as_seat seat.now) }
    ensures few { length result.now ≤ 16 }
{
    match seat.cell.frame.get() {
        Some(frame) => frame.registers.as_slice(),
        None => &[],
    }
}

/// The row of an object that is left, as its owner has it; empty where the object is not left. The
/// machine has no blocks.
pub(crate) fn row_left<'a>(orca: &'a Orca<'_>, n: ObjName) -> &'a [Value]
    requires home { NoneIsAway orca.now }
    requires none { orca.now.blocks ≡ [] }
    ensures value { result.now ≡ row_left orca.now.state.actors n }
    ensures few { length result.now ≤ 8 }
{
    let Some(seat) = seat_of(orca, n.owner) else {
        return &[];
    };
    seat.cell.untold_are_here();
    match seat.cell.heap.row(n) {
        Lent::Here(values) => values,
        Lent::Nothing => &[],
        Lent::In(_) => unreachable!(),
    }
}
