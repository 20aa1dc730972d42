// A table through its calls that may want memory.

ghost use Rattle.foreign_table.specs.Table.{AllHere};

use crate::cases::{Given, Holding, Named, gains_all, number_in, object, thing_of};
use foreign_table::ForeignTable;
use letter_kinds::Amounts;
use orca_names::{ActorName, NoMemory};
use std::alloc::Global;

const COUNTED: &[Holding] = &[
    (Named::Object(3, 0), &[Given::Num(7)], 256),
    (Named::Actor(5), &[], 256),
    (Named::Actor(3), &[], 256),
    (Named::Actor(3), &[], 256),
];

fn differs_once_spent(table: &mut ForeignTable, before: &ForeignTable) -> bool
    requires { AllHere table.old }
{
    let five = &thing_of(Named::Actor(5));
    let same = table.same(before);
    if table.count(*five) > 0 {
        table.spend(*five);
    }
    same && !table.same(before)
}

/// Whether a table differs from its copy once a count is spent.
fn differs_from_copy(alloc: Global, table: &mut ForeignTable) -> bool
    requires { AllHere table.old }
{
    match table.copy(alloc) {
        Ok(before) => differs_once_spent(table, &before),
        Err(_) => false,
    }
}

fn tells_two_actors(alloc: Global, table: &ForeignTable) -> bool {
    let held = [(ActorName(3), 512), (ActorName(5), 255)];
    match table.held_actors(alloc) {
        Ok(told) => told.as_slice() == held.as_slice(),
        Err(_) => false,
    }
}

/// Whether a table differs from its copy once a count is spent, and then has these counts and places.
fn counts_so(alloc: Global, table: &mut ForeignTable) -> bool
    requires { AllHere table.old }
{
    gains_all(table, COUNTED)
        && differs_from_copy(alloc, table)
        && tells_two_actors(alloc, table)
        && table.place(&thing_of(Named::Object(3, 0))) == Some(1)
        && table.len() == 3
}

#[test]
fn counts_are_held_and_copied(rt: HostRuntime) {
    let mut table = ForeignTable::new(rt.alloc());
    let holds = counts_so(rt.alloc(), &mut table);
    drop(table);
    assert!(rt; holds);
}

// Five objects of actor 3 with their numbers, and five of actor 2 with none.
const TEN: &[Holding] = &[
    (Named::Object(3, 0), &[Given::Num(0)], 256),
    (Named::Object(2, 0), &[], 256),
    (Named::Object(3, 1), &[Given::Num(1)], 256),
    (Named::Object(2, 1), &[], 256),
    (Named::Object(3, 2), &[Given::Num(2)], 256),
    (Named::Object(2, 2), &[], 256),
    (Named::Object(3, 3), &[Given::Num(3)], 256),
    (Named::Object(2, 3), &[], 256),
    (Named::Object(3, 4), &[Given::Num(4)], 256),
    (Named::Object(2, 4), &[], 256),
];

fn take_out(table: &mut ForeignTable, named: Named) {
    let thing = &thing_of(named);
    if table.count(*thing) > 0 {
        table.take_out(*thing);
    }
}

// The number in the row of an object of actor 3.
fn number(table: &ForeignTable, serial: u64) -> Option<u64> {
    number_in(table.row(object(3, serial)))
}

// What is held on a thing: its count, and the number in its row.
fn entry(table: &ForeignTable, named: Named) -> Option<(u64, Option<u64>)> {
    let (count, row) = table.entry(thing_of(named))?;
    Some((count, number_in(row)))
}

/// Whether of ten objects all but two are there, with their rows.
fn has_eight(table: &ForeignTable) -> bool {
    number(table, 0) == Some(0)
        && number(table, 1) == None
        && number(table, 2) == Some(2)
        && table.len() == 8
        && entry(table, Named::Object(3, 2)) == Some((256, Some(2)))
        && entry(table, Named::Object(2, 3)) == Some((256, None))
        && entry(table, Named::Object(2, 4)) == None
}

/// Whether the objects of actor 3 keep their rows once the second is taken out.
fn keeps_rows(table: &mut ForeignTable) -> bool {
    let gained = gains_all(table, TEN);
    take_out(table, Named::Object(3, 1));
    take_out(table, Named::Object(2, 4));
    gained && has_eight(table)
}

#[test]
fn rows_stay_with_their_things(rt: HostRuntime) {
    let mut table = ForeignTable::new(rt.alloc());
    let holds = keeps_rows(&mut table);
    drop(table);
    assert!(rt; holds);
}

// One of nine objects of actor 3.
const FIFTH: &[Holding] = &[(Named::Object(3, 4), &[], 256)];

fn nine_objects(alloc: Global) -> Result<Amounts, NoMemory> {
    let mut things = Amounts::new(alloc);
    for serial in 0..9 {
        things.push((thing_of(Named::Object(3, serial)), 1))?;
    }
    Ok(things)
}

fn stays_for_nine(alloc: Global, table: &mut ForeignTable, before: &ForeignTable) -> bool
    requires { AllHere table.old }
{
    let reserved = match nine_objects(alloc) {
        Ok(things) => table.reserve_for(&things).is_ok(),
        Err(_) => false,
    };
    reserved && table.same(before)
}

/// Whether a table that takes room for nine things, one of which it holds, has what it had.
fn is_as_before(alloc: Global, table: &mut ForeignTable) -> bool
    requires { AllHere table.old }
{
    let gained = gains_all(table, FIFTH);
    let stays = match table.copy(alloc) {
        Ok(before) => stays_for_nine(alloc, table, &before),
        Err(_) => false,
    };
    gained && stays && table.count(thing_of(Named::Object(3, 4))) == 256 && table.len() == 1
}

#[test]
fn room_for_what_is_not_held_changes_no_entry(rt: HostRuntime) {
    let mut table = ForeignTable::new(rt.alloc());
    let holds = is_as_before(rt.alloc(), &mut table);
    drop(table);
    assert!(rt; holds);
}
