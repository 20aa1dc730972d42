// What a letter's sender lacks, by what it holds, and what its taker and its sender count.

ghost use Rattle.std.specs.Prelude.{◌≡◌, ◌∷◌, [], IfOk, IsSome};
ghost use Rattle.letter_kinds.specs.Load.{HaveGiven};
ghost use Rattle.row_store.specs.Memory.{remembered};
ghost use Rattle.row_store.specs.Told.{lies_as, told_block, told_row};

use crate::cases::{
    Amount, Given, Holding, Loaded, Named, are_amounts, gains_all, reserves_one, thing_of, told_of,
};
use foreign_table::ForeignTable;
use letter_kinds::Load;
use object_heap::ObjectHeap;
use orca_names::{ActorName, NoMemory, Row, Thing, Value};
use plain_list::Listed;
use ref_weights::OwnCount;
use row_store::{Remembered, Told};
use std::alloc::Global;
use trace_send::{lacking, receive_trace, send_trace};

const ONE_EACH: &[Holding] = &[
    (Named::Actor(0), &[], 1),
    (Named::Object(0, 0), &[Given::Num(9)], 1),
    (Named::Actor(2), &[], 1),
];

const MORE_EACH: &[Holding] = &[
    (Named::Actor(0), &[], 256),
    (Named::Object(0, 0), &[Given::Num(9)], 256),
    (Named::Actor(2), &[], 256),
];

// What the sender of a letter that loads all of these is to get of actor 0.
const LACKED: &[Amount] = &[(Named::Actor(0), 256), (Named::Object(0, 0), 256)];

/// Whether the sender that holds these lacks those of actor 0.
fn lacks_first(alloc: Global, things: &[Thing], foreign: &ForeignTable) -> bool {
    match lacking(alloc, things, ActorName(1), foreign, 256) {
        Ok(Some((owner, amounts))) => {
            owner == ActorName(0) && are_amounts(amounts.as_slice(), LACKED)
        }
        _ => false,
    }
}

fn lacks_none(alloc: Global, things: &[Thing], foreign: &ForeignTable) -> bool {
    matches!(lacking(alloc, things, ActorName(1), foreign, 256), Ok(None))
}

/// Whether a sender that holds one of each thing lacks those of the first owner, and one that holds more
/// lacks none.
fn lacks_what_it_holds_once(alloc: Global, foreign: &mut ForeignTable) -> bool {
    let things = [
        thing_of(Named::Actor(0)),
        thing_of(Named::Object(0, 0)),
        thing_of(Named::Actor(2)),
    ];
    gains_all(foreign, ONE_EACH)
        && lacks_first(alloc, &things, foreign)
        && gains_all(foreign, MORE_EACH)
        && lacks_none(alloc, &things, foreign)
}

#[test]
fn the_first_owner_is_told_what_is_lacked(rt: HostRuntime) {
    let mut foreign = ForeignTable::new(rt.alloc());
    let holds = lacks_what_it_holds_once(rt.alloc(), &mut foreign);
    drop(foreign);
    assert!(rt; holds);
}

// The load of one thing, whose row is remembered where it lies in a block.
fn load_with(
    alloc: Global,
    thing: &Thing,
    told: &Told,
    memory: Remembered,
) -> Result<Load, NoMemory>
    requires { IsSome (told_block told.now)
        → IsSome (told_row (remembered memory) thing.now told.now) }
    ensures { IfOk result (λ load. load ≡ lies_as (remembered memory) (thing.now, told.now) ∷ []) }
{
    let mut items = Listed::new(alloc);
    items.push((*thing, *told))?;
    Ok(Load::with(items, memory))
}

/// The actor takes a letter that loads this thing of another. Whether it could.
pub(crate) fn take(
    alloc: Global,
    heap: &mut ObjectHeap,
    foreign: &mut ForeignTable,
    thing: &Thing,
    told: &Told,
    memory: Remembered,
) -> bool
    requires { IsSome (told_block told.now)
        → IsSome (told_row (remembered memory) thing.now told.now) }
{
    let me = heap.owner();
    if !reserves_one(foreign, told) {
        return false;
    }
    if thing.owner() == me {
        return false;
    }
    if foreign.count(*thing) > 1000 {
        return false;
    }
    match load_with(alloc, thing, told, memory) {
        Ok(load) => {
            let mut own = OwnCount::new();
            receive_trace(&load, me, &mut own, heap, foreign);
            true
        }
        Err(_) => false,
    }
}

// The actor sends a letter that loads this thing of another. Whether it could.
fn send(
    alloc: Global,
    heap: &mut ObjectHeap,
    foreign: &mut ForeignTable,
    thing: &Thing,
    told: &Told,
) -> bool {
    let me = heap.owner();
    if told.block().is_some() || thing.owner() == me {
        return false;
    }
    if foreign.count(*thing) == 0 {
        return false;
    }
    match load_with(alloc, thing, told, Remembered::new()) {
        Ok(load) => {
            let mut own = OwnCount::new();
            send_trace(&load, me, &mut own, heap, foreign);
            true
        }
        Err(_) => false,
    }
}

const TAKEN: &[Loaded] = &[
    (Named::Actor(0), &[]),
    (Named::Object(0, 0), &[Given::Num(9)]),
    (Named::Actor(2), &[]),
];

const MINTED: &[Holding] = &[
    (Named::Actor(0), &[], 256),
    (Named::Object(0, 0), &[Given::Num(9)], 256),
];

const SENT: &[Loaded] = &[
    (Named::Actor(0), &[]),
    (Named::Object(0, 0), &[Given::Num(9)]),
];

/// Sends letters, or else takes them, each of which loads one of these things. Whether it could.
fn moves_all(
    alloc: Global,
    heap: &mut ObjectHeap,
    foreign: &mut ForeignTable,
    loads: &[Loaded],
    sends: bool,
) -> bool {
    for (named, values) in loads {
        let thing = thing_of(*named);
        let told = told_of(values);
        let moved = if sends {
            send(alloc, heap, foreign, &thing, &told)
        } else {
            take(alloc, heap, foreign, &thing, &told, Remembered::new())
        };
        if !moved {
            return false;
        }
    }
    true
}

/// What is held of each thing.
fn held(foreign: &ForeignTable) -> (u64, u64, u64) {
    (
        foreign.count(thing_of(Named::Actor(0))),
        foreign.count(thing_of(Named::Object(0, 0))),
        foreign.count(thing_of(Named::Actor(2))),
    )
}

/// Whether an actor that takes three things, mints two of them and sends these on counts so.
fn counts_so(alloc: Global, heap: &mut ObjectHeap, foreign: &mut ForeignTable) -> bool {
    moves_all(alloc, heap, foreign, TAKEN, false)
        && gains_all(foreign, MINTED)
        && moves_all(alloc, heap, foreign, SENT, true)
        && held(foreign) == (256, 256, 1)
}

#[test]
fn letters_are_counted(rt: HostRuntime) {
    let mut heap = ObjectHeap::new(rt.alloc(), ActorName(1));
    let mut foreign = ForeignTable::new(rt.alloc());
    let holds = counts_so(rt.alloc(), &mut heap, &mut foreign);
    drop(foreign);
    drop(heap);
    assert!(rt; holds);
}

/// Whether the row that is loaded at hand lies in this block once it was put there.
fn comes_to_lie_in(load: &mut Load, owner: ActorName, row: Row, block: u32) -> bool
    requires { HaveGiven owner 0 (row ∷ []) load.old }
{
    load.lie_in(owner, 0, &[row], &[block]);
    let (items, _) = load.parts();
    items.len() == 1 && items[0].1 == Told::In(block)
}

/// Whether so it is with a load of one object.
fn lies_where_it_was_put(alloc: Global) -> Result<bool, NoMemory> {
    let row = Row::of(&[Value::Num(9)]);
    let thing = thing_of(Named::Object(4, 0));
    let mut load = load_with(alloc, &thing, &Told::Here(row), Remembered::new())?;
    Ok(comes_to_lie_in(&mut load, ActorName(4), row, 5))
}

#[test]
fn a_loaded_row_is_put_into_its_block(rt: HostRuntime) {
    assert!(rt; matches!(lies_where_it_was_put(rt.alloc()), Ok(true)));
}
