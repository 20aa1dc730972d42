// What a letter loads of others that its sender can't spend.

ghost use Rattle.std.specs.Prelude.{◌≡◌, ℕ, ◌==◌, ◌&&◌, IfOk, filter, map, slice_get, option_map};
ghost use Rattle.std.specs.List.{list_any};
ghost use Rattle.orca_names.specs.Names.{owner_of};
ghost use Rattle.letter_kinds.specs.Load.{as_load};
ghost use Rattle.letter_kinds.specs.Counting.{is_lacking};
ghost use Rattle.object_heap.specs.Heap.{Heap};
ghost use Rattle.known_rows.specs.Holdings.{holdings_of};
ghost use Rattle.trace_send.specs.Lacking.{is_lacked as is_short, of_first_owner};

use foreign_table::ForeignTable;
use letter_kinds::{Amounts, Load};
use orca_names::{ActorName, NoMemory, Thing};
use plain_list::Listed;
use std::alloc::Global;

// Whether just one is held of another's thing.
fn is_lacked(thing: &Thing, me: ActorName, foreign: &ForeignTable) -> bool
    ensures { result ≡ is_short me foreign.now thing.now }
{
    if thing.owner() == me {
        return false;
    }
    foreign.count(*thing) == 1
}

// The owner of the first thing that is lacked.
fn first_owner(things: &[Thing], me: ActorName, foreign: &ForeignTable) -> Option<ActorName>
    ensures { let first = slice_get (filter (is_short me foreign.now) things.now) 0 in
        result ≡ option_map owner_of first }
{
    for thing in things {
        if is_lacked(thing, me, foreign) {
            return Some(thing.owner());
        }
    }
    None
}

/// Whether the sender of a letter with this load has to mint before it can send: whether it lacks
/// some thing of it.
pub fn lacks_any(load: &Load, me: ActorName, foreign: &ForeignTable) -> bool
    ensures { (count : ℕ) (heap : Heap) → let held = holdings_of count heap foreign.now in
        result ≡ list_any (λ e. is_lacking me held e.0) (as_load load.now) }
{
    let (items, _) = load.parts();
    for loaded in items {
        if is_lacked(&loaded.0, me, foreign) {
            return true;
        }
    }
    false
}

// Whether the thing is lacked, and this is its owner.
fn is_lacked_of(thing: &Thing, me: ActorName, foreign: &ForeignTable, owner: ActorName) -> bool
    ensures { result ≡ (is_short me foreign.now thing.now && (owner_of thing.now == owner)) }
{
    if thing.owner() != owner {
        return false;
    }
    is_lacked(thing, me, foreign)
}

// Those things that are lacked and have this owner, each with the weight.
#[inline(always)]
fn lacked_of(
    alloc: Global,
    things: &[Thing],
    me: ActorName,
    foreign: &ForeignTable,
    owner: ActorName,
    weight: u32,
) -> Result<Amounts, NoMemory>
    ensures { let its = filter (λ x. is_short me foreign.now x && (owner_of x == owner)) things.now in
        IfOk result (λ amounts. amounts ≡ map (λ x. (x, weight)) its) }
{
    let mut amounts = Listed::new(alloc);
    for thing in things {
        if is_lacked_of(thing, me, foreign, owner) {
            amounts.push((*thing, u64::from(weight)))?;
        }
    }
    Ok(amounts)
}

/// What the sender of a letter that loads these things has to mint before it can send: of the owners
/// whose things it lacks, the first one, which is the lowest where things are in order, and those of
/// its things, each with the weight. `None` exactly where it lacks none.
///
/// # Errors
/// `NoMemory` where memory was refused.
#[inline(always)]
pub fn lacking(
    alloc: Global,
    things: &[Thing],
    me: ActorName,
    foreign: &ForeignTable,
    weight: u32,
) -> Result<Option<(ActorName, Amounts)>, NoMemory>
    ensures { (count : ℕ) (heap : Heap) →
        let lacked = filter (is_lacking me (holdings_of count heap foreign.now)) things.now in
        IfOk result (λ found. found ≡ of_first_owner weight lacked) }
{
    match first_owner(things, me, foreign) {
        Some(owner) => {
            let amounts = lacked_of(alloc, things, me, foreign, owner, weight)?;
            Ok(Some((owner, amounts)))
        }
        None => Ok(None),
    }
}
