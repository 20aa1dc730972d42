// The tally of all that is left.

ghost use Rattle.std.specs.Prelude.{◌≡◌, IfOk, map};
ghost use Rattle.std.specs.List.{All};
ghost use Rattle.machine_rules.specs.Left.{IsLeft};
ghost use Rattle.orca_core.specs.Machine.{NoneIsAway};
ghost use Rattle.count_ledger.specs.Lines.{line_below};
ghost use Rattle.count_ledger.specs.Tally.{Balances, IsTally};

use crate::actors::add_actor;
use crate::own::own_count;
use orca_core::Orca;
use orca_names::{ActorName, NoMemory, Sums, Tally, Thing};
use plain_list::Listed;
use std::alloc::Global;

// The line of a thing that is left, with its owner's count alone.
fn first_line(orca: &Orca<'_>, thing: Thing) -> Sums
    requires home { NoneIsAway orca.now }
    requires left { IsLeft orca.now.state.actors thing }
    ensures { result ≡ line_below 0 orca.now.state.actors thing }
{
    let Some(cell) = orca.cell(thing.owner()) else {
        unreachable!();
    };
    Sums {
        thing,
        count: own_count(cell, &thing),
        inc: 0,
        dec: 0,
        held: 0,
        letters: 0,
    }
}

// The lines of these things, with their owners' counts alone.
fn first_lines(alloc: Global, orca: &Orca<'_>, things: &[Thing]) -> Result<Vec<Sums>, NoMemory>
    requires home { NoneIsAway orca.now }
    requires left { All (λ x. IsLeft orca.now.state.actors x) things.now }
    ensures { IfOk result (λ sums. sums.items ≡ map (line_below 0 orca.now.state.actors) things.now) }
{
    let mut sums = Vec::new(alloc);
    for thing in things {
        sums.push(first_line(orca, *thing))?;
    }
    Ok(sums)
}

/// The sums of the balance of counts, for each thing that is left, in the order of things. It takes one
/// pass over all cells and letters.
///
/// # Errors
/// `NoMemory` where memory was refused.
pub fn tally(alloc: Global, orca: &Orca<'_>) -> Result<Tally, NoMemory>
    requires { NoneIsAway orca.now }
    ensures exact { IfOk result (λ tally. IsTally orca.now.state.actors tally.sums) }
    ensures balance { IfOk result (λ tally. All Balances tally.sums) }
{
    // The counts are small, and balance.
    orca.counts_in_few_bits();
    orca.keeps_the_reachable();
    let things = orca.left(alloc)?;
    let mut sums = first_lines(alloc, orca, things.as_slice())?;
    for a in 0..orca.made() {
        add_actor(&mut sums, orca, ActorName(a as u32));
    }
    Ok(Tally {
        sums: Listed::from(sums),
    })
}
