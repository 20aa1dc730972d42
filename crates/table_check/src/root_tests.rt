// What letters load and carry, and what a thing that was got lets its taker lack.

ghost use Rattle.foreign_table.specs.Table.{AllHere as AllHeldHere};
ghost use Rattle.object_heap.specs.Heap.{AllHere as AllOwnHere};

use crate::cases::{
    Given, Holding, Loaded, Named, are_loaded, are_things, args_of, gains_all, thing_of,
};
use foreign_table::ForeignTable;
use known_rows::KnownRows;
use object_heap::ObjectHeap;
use orca_names::{ActorName, Args};
use reach_walk::{ThingList, WithWords};
use root_trace::{NoRows, find_loaded_roots, missing, rows_of, without_rows};
use row_store::{NoBlocks, Remembered};
use std::alloc::Global;

const ARGUMENTS: &[Given] = &[
    Given::Actor(7),
    Given::Object(0, 1),
    Given::Num(3),
    Given::Object(0, 1),
];

// What stands in these arguments, and the owner of the object.
const LOAD: &[Loaded] = &[
    (Named::Actor(0), &[]),
    (Named::Object(0, 1), &[]),
    (Named::Actor(7), &[]),
];

fn finds_load(alloc: Global, args: &Args, things: &mut ThingList) -> bool {
    if find_loaded_roots(alloc, args, things).is_err() {
        return false;
    }
    match without_rows(alloc, things.as_slice()) {
        Ok(load) => are_loaded(load.parts().0, LOAD),
        Err(_) => false,
    }
}

/// Whether a letter whose sender knows no row carries what it loads.
fn carries_load(alloc: Global, args: &Args) -> bool {
    match rows_of(alloc, args, &mut NoRows, Remembered::new()) {
        Ok(rows) => are_loaded(rows.parts().0, LOAD),
        Err(_) => false,
    }
}

#[test]
fn loads_are_what_stands_in_letters(rt: HostRuntime) {
    let args = args_of(ARGUMENTS);
    let mut things = ThingList::new(rt.alloc());
    let found = finds_load(rt.alloc(), &args, &mut things);
    drop(things);
    assert!(rt; found && carries_load(rt.alloc(), &args));
}

// An object of actor 0 whose row names another one, and both as they are carried.
const HELD: &[Holding] = &[(Named::Object(0, 1), &[Given::Object(0, 2)], 1)];

const CARRIED: &[Loaded] = &[
    (Named::Actor(0), &[]),
    (Named::Object(0, 1), &[Given::Object(0, 2)]),
    (Named::Object(0, 2), &[]),
];

/// Whether a letter whose sender holds that object carries its row, and what that leads to.
fn carries_rows(alloc: Global, heap: &ObjectHeap, foreign: &mut ForeignTable) -> bool
    requires own { AllOwnHere heap.now }
    requires held { AllHeldHere foreign.old }
{
    if !gains_all(foreign, HELD) {
        return false;
    }
    let args = args_of(&[Given::Object(0, 1)]);
    let known = KnownRows { heap, foreign };
    match rows_of(
        alloc,
        &args,
        &mut WithWords::of(&known, &mut NoBlocks::default()),
        Remembered::new(),
    ) {
        Ok(rows) => are_loaded(rows.parts().0, CARRIED),
        Err(_) => false,
    }
}

#[test]
fn letters_carry_the_rows_that_are_known(rt: HostRuntime) {
    let heap = ObjectHeap::new(rt.alloc(), ActorName(1));
    let mut foreign = ForeignTable::new(rt.alloc());
    let holds = carries_rows(rt.alloc(), &heap, &mut foreign);
    drop(foreign);
    drop(heap);
    assert!(rt; holds);
}

// What actor 1 holds then.
const OWNER: &[Holding] = &[(Named::Actor(0), &[], 1)];

/// Whether an object of actor 0 lets this actor lack these things.
fn lacks(alloc: Global, me: u32, foreign: &ForeignTable, want: &[Named]) -> bool {
    match missing(alloc, thing_of(Named::Object(0, 1)), ActorName(me), foreign) {
        Ok(lacked) => are_things(lacked.as_slice(), want),
        Err(_) => false,
    }
}

/// Whether actor 1 lacks the owner and its object, and once it holds the owner the object alone; actor 0
/// lacks nothing of its own.
fn lacks_owner(alloc: Global, foreign: &mut ForeignTable) -> bool {
    lacks(alloc, 1, foreign, &[Named::Actor(0), Named::Object(0, 1)])
        && gains_all(foreign, OWNER)
        && lacks(alloc, 1, foreign, &[Named::Object(0, 1)])
        && lacks(alloc, 0, foreign, &[])
}

#[test]
fn owners_are_lacked_too(rt: HostRuntime) {
    let mut foreign = ForeignTable::new(rt.alloc());
    let holds = lacks_owner(rt.alloc(), &mut foreign);
    drop(foreign);
    assert!(rt; holds);
}
