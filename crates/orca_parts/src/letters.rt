// Letters that an event gives out.

ghost use Rattle.std.specs.Prelude.{◌≡◌, ◌==◌, ◌≤◌, ◌<◌, ◌+◌, ◌^◌, [], ℕ, true, is_some, None, Some, OnOk, IfOk, if◌then◌else◌};
ghost use Rattle.letter_kinds.specs.Letters.{as_letter};
ghost use Rattle.letter_kinds.specs.Telling.{all_brought, brought_in};
ghost use Rattle.actor_cell.specs.Outs.{decs_to};
ghost use Rattle.actor_cell.specs.Pushing.{push_all};
ghost use Rattle.machine_rules.specs.Actors.{push_letter, seat_at};
ghost use Rattle.actor_table.specs.Changes.{OnlyTableRoom};
ghost use Rattle.actor_table.specs.Slots.{actors_of, slot_at};
ghost use Rattle.orca_parts.specs.Letters.{FitLetters, Posts, count_for, letters_to};
ghost use Rattle.orca_parts.specs.Touched.{receivers};
ghost use Rattle.orca_parts.specs.Woken.{lower_of};

use actor_table::ActorTable;
use letter_kinds::{Amounts, Letter};
use orca_names::{ActorName, NoMemory};
use std::alloc::Global;
use std::collections::BTreeMap;

// Counts one letter more to the actor, and tells how many they are then.
#[tactic(auto, using(crate::proofs::Reserving::counted_up))]
fn count_one(counts: &mut BTreeMap<ActorName, usize>, to: ActorName) -> Result<usize, NoMemory>
    requires { count_for counts.old to + 1 < 2 ^ 64 }
    ensures is { IfOk result (λ n. n ≡ count_for counts.old to + 1) }
    ensures counted { OnOk result ((b : ℕ) → count_for counts.new b
        ≡ count_for counts.old b + (if to == b then 1 else 0)) }
{
    let n = match counts.get(&to) {
        Some(n) => *n + 1,
        None => 1,
    };
    counts.insert(to, n)?;
    Ok(n)
}

/// Takes the memory for a letter to the owner of each group, several of which may be of one owner.
///
/// # Errors
/// `NoMemory` where memory was refused.
#[tactic(auto, using(crate::proofs::Reserving::more_room, crate::proofs::Reserving::still_room))]
pub(crate) fn reserve_all(
    alloc: Global,
    table: &mut ActorTable,
    groups: &[(ActorName, Amounts)],
) -> Result<(), NoMemory>
    ensures same { OnlyTableRoom table.old table.new }
    ensures ok { OnOk result (FitLetters (receivers groups.now) table.new.slots) }
{
    if groups.len() == 1 {
        table.reserve_letters(groups[0].0, 1)?;
        return Ok(());
    }
    let mut counts = BTreeMap::new(alloc);
    for group in groups {
        let n = count_one(&mut counts, group.0)?;
        table.reserve_letters(group.0, n)?;
    }
    Ok(())
}

/// Takes the memory for one letter to the owner of each group; no two groups are of one owner.
///
/// # Errors
/// `NoMemory` where memory was refused.
#[tactic(auto, using(crate::proofs::Reserving::more_room))]
pub(crate) fn reserve_each(
    table: &mut ActorTable,
    groups: &[(ActorName, Amounts)],
) -> Result<(), NoMemory>
    requires { (b : ℕ) → letters_to b (receivers groups.now) ≤ 1 }
    ensures same { OnlyTableRoom table.old table.new }
    ensures ok { OnOk result (FitLetters (receivers groups.now) table.new.slots) }
{
    for group in groups {
        table.reserve_letters(group.0, 1)?;
    }
    Ok(())
}

// The actor, where it is present.
fn present(table: &ActorTable, a: ActorName) -> Option<ActorName>
    ensures { result ≡ (if is_some (seat_at (actors_of table.now.slots) a) then Some a else None) }
{
    if table.lives(a) { Some(a) } else { None }
}

/// The lower of two actors, each of which may be none.
pub(crate) fn lower(one: Option<ActorName>, two: Option<ActorName>) -> Option<ActorName>
    ensures { result ≡ lower_of one two }
{
    match (one, two) {
        (None, two) => two,
        (Some(one), None) => Some(one),
        (Some(one), Some(two)) => Some(one.min(two)),
    }
}

/// The letter goes to its actor, which is told where it is present; one for an actor that is gone is
/// lost.
#[inline(always)]
pub(crate) fn post(table: &mut ActorTable, to: ActorName, letter: Letter) -> Option<ActorName>
    requires { is_some (seat_at (actors_of table.old.slots) to) ≡ true
        → 0 < (slot_at table.old.slots to).mail.spare }
    ensures posts { Posts (push_letter to (as_letter letter)) (all_brought (brought_in letter))
        table.old.slots table.new.slots result }
    ensures room { (b : ℕ) → (slot_at table.old.slots b).mail.spare
        ≤ (slot_at table.new.slots b).mail.spare + (if b == to then 1 else 0) }
{
    let woken = present(table, to);
    table.push_letter(to, letter);
    woken
}

/// To each owner goes a decrement of its things, in their order, and the lowest that gets one is told;
/// one for an actor that is gone is lost.
pub(crate) fn push_decs(
    table: &mut ActorTable,
    groups: Vec<(ActorName, Amounts)>,
) -> Option<ActorName>
    requires { FitLetters (receivers groups.items) table.old.slots }
    ensures { Posts (push_all (decs_to groups.items)) [] table.old.slots table.new.slots result }
{
    let mut lowest = None;
    for group in groups {
        lowest = lower(
            lowest,
            post(table, group.0, Letter::Dec { things: group.1 }),
        );
    }
    lowest
}
