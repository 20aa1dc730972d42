// How much room the rows of a load take.

ghost use Rattle.std.specs.Prelude.{◌≡◌, ◌≤◌, ◌^◌, MatchOption};
ghost use Rattle.row_store.specs.Told.{row_here};
ghost use Rattle.foreign_table.specs.Table.{row_length};
ghost use Rattle.trace_send.specs.Room.{values_of};

use letter_kinds::Load;
use row_store::Told;

// The number of values of a row, where one is told and at hand.
#[inline(always)]
fn length_told(told: &Told) -> usize
    ensures { result ≡ row_length (row_here told.now) }
{
    match told {
        Told::Nothing | Told::In(_) => 0,
        Told::Here(row) => row.len() as usize,
    }
}

/// The number of values of all rows of a load that are at hand; `None` exactly where no number holds it.
pub fn count_values(load: &Load) -> Option<usize>
    ensures { let its = values_of load.now in
        MatchOption result (2 ^ 64 ≤ its) (λ count. count ≡ its) }
{
    let mut count: usize = 0;
    let (items, _) = load.parts();
    for loaded in items {
        count = count.checked_add(length_told(&loaded.1))?;
    }
    Some(count)
}
