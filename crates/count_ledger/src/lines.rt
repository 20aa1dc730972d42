// Lines of a tally, into which amounts are added.

ghost use Rattle.std.specs.Prelude.{◌≡◌, ◌+◌, ◌<◌, ◌^◌, map};
ghost use Rattle.std.specs.Result.{MatchResult};
ghost use Rattle.orca_names.specs.Names.{thing_cmp};
ghost use Rattle.plain_list.specs.Rising.{IsAt, IsGap};
ghost use Rattle.count_ledger.specs.Lines.{HasRoom, Rise, key_of, only, raised, raised_by, read};

use orca_names::{Sums, Thing};

/// A number of a line into which amounts are added.
#[derive(Clone, Copy)]
pub(crate) enum Column {
    Inc,
    Dec,
    Held,
    Letters,
}

// The place of the thing among lines that rise, or the place where it would stand.
fn place_of(sums: &[Sums], thing: &Thing) -> Result<usize, usize>
    requires { Rise sums.now }
    ensures { MatchResult result (IsAt thing_cmp (map key_of sums.now) thing.now)
        (IsGap thing_cmp (map key_of sums.now) thing.now) }
{
    sums.binary_search_by_key(thing, |line| line.thing)
}

fn raise(line: &mut Sums, column: Column, by: u64)
    requires { read column line.old + by < 2 ^ 64 }
    ensures { line.new ≡ raised column by line.old }
{
    match column {
        Column::Inc => line.inc += by,
        Column::Dec => line.dec += by,
        Column::Held => line.held += by,
        Column::Letters => line.letters += by,
    }
}

/// The line of the thing, where there is one, has so much more in the column.
pub(crate) fn add(sums: &mut [Sums], column: Column, thing: &Thing, by: u64)
    requires rising { Rise sums.old }
    requires room { HasRoom column (only thing.now by) sums.old }
    ensures { sums.new ≡ map (raised_by column (only thing.now by)) sums.old }
{
    if let Ok(i) = place_of(sums, thing) {
        raise(&mut sums[i], column, by);
    }
}
