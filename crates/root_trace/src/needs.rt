// What an actor lacks of a thing that it got from a row.

ghost use Rattle.std.specs.Prelude.{◌≡◌, ◌∷◌, ◌++◌, ℕ, [], IfOk, OnOk, filter};
ghost use Rattle.object_heap.specs.Heap.{Heap};
ghost use Rattle.known_rows.specs.Holdings.{holdings_of};
ghost use Rattle.machine_rules.specs.Go.{lacks};
ghost use Rattle.root_trace.specs.Missing.{missing_of};

use foreign_table::ForeignTable;
use orca_names::{ActorName, NoMemory, Thing};
use std::alloc::Global;

// Whether the thing is neither the actor's own nor held.
fn is_lacked(thing: &Thing, me: ActorName, foreign: &ForeignTable) -> bool
    ensures { (count : ℕ) (heap : Heap) →
        result ≡ lacks me (holdings_of count heap foreign.now) thing.now }
{
    if thing.owner() == me {
        return false;
    }
    foreign.count(*thing) == 0
}

// The thing comes to what is lacked, if it is so.
fn push_lacked(
    lacked: &mut Vec<Thing>,
    thing: &Thing,
    me: ActorName,
    foreign: &ForeignTable,
) -> Result<(), NoMemory>
    ensures { (count : ℕ) (heap : Heap) →
        let its = filter (lacks me (holdings_of count heap foreign.now)) (thing.now ∷ []) in
        OnOk result (lacked.new.items ≡ lacked.old.items ++ its) }
{
    if is_lacked(thing, me, foreign) {
        lacked.push(*thing)?;
    }
    Ok(())
}

/// Of a thing that an actor got from a row and the thing's owner those that it lacks: for these it
/// has to mint before it can keep the thing.
///
/// # Errors
/// `NoMemory` where memory was refused.
pub fn missing(
    alloc: Global,
    thing: Thing,
    me: ActorName,
    foreign: &ForeignTable,
) -> Result<Vec<Thing>, NoMemory>
    ensures { (count : ℕ) (heap : Heap) →
        let its = missing_of me (holdings_of count heap foreign.now) thing in
        IfOk result (λ found. found.items ≡ its) }
{
    let mut lacked = Vec::new(alloc);
    push_lacked(&mut lacked, &Thing::Actor(thing.owner()), me, foreign)?;
    if let Thing::Obj(_) = thing {
        push_lacked(&mut lacked, &thing, me, foreign)?;
    }
    Ok(lacked)
}
