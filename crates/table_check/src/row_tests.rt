// What is told of others' objects.

ghost use Rattle.std.specs.Prelude.{◌≡◌, ◌∷◌, [], IfOk};
ghost use Rattle.row_table.specs.Table.{AllKnownHere};

use crate::cases::{number_in, object};
use letter_kinds::Amounts;
use orca_names::{ActorName, NoMemory, Row, Thing, Value};
use row_store::{Remembered, Told};
use row_table::RowTable;
use std::alloc::Global;

/// Learns that an object of actor 3 has this number. Whether there was memory.
fn learns(table: &mut RowTable, serial: u64, number: u64) -> bool
    ensures { AllKnownHere table.old → AllKnownHere table.new }
{
    if table.reserve(1, 1).is_err() {
        return false;
    }
    let told = Told::Here(Row::of(&[Value::Num(number)]));
    table.learn(Thing::Obj(object(3, serial)), &told, &Remembered::new());
    true
}

/// Learns each of these numbers, by the serial. Whether there was memory.
fn learns_all(table: &mut RowTable, told: &[(u64, u64)]) -> bool
    ensures { AllKnownHere table.old → AllKnownHere table.new }
{
    for (serial, number) in told {
        if !learns(table, *serial, *number) {
            return false;
        }
    }
    true
}

/// The number that is known of an object of actor 3.
fn number(table: &RowTable, serial: u64) -> Option<u64> {
    number_in(table.held()?.row(object(3, serial)))
}

/// Whether no object of actor 3 is counted.
fn counts_none(table: &RowTable, serial: u64) -> bool {
    match table.held() {
        Some(held) => held.count(Thing::Obj(object(3, serial))) == 0,
        None => false,
    }
}

/// Whether a table knows what it was told last, and counts none of it.
fn knows_the_last(table: &mut RowTable) -> bool
    ensures { AllKnownHere table.old → AllKnownHere table.new }
{
    learns_all(table, &[(5, 1), (4, 2), (5, 3)])
        && number(table, 5) == Some(3)
        && number(table, 4) == Some(2)
        && number(table, 6) == None
        && counts_none(table, 5)
}

fn differs_once_told(table: &mut RowTable, copied: &RowTable) -> bool
    requires { AllKnownHere copied.now }
{
    copied.same(table) && learns(table, 4, 7) && !copied.same(table)
}

/// Whether a table differs from its copy once it is told more.
fn differs_from_copy(alloc: Global, table: &mut RowTable) -> bool
    requires { AllKnownHere table.old }
{
    match table.copy(alloc) {
        Ok(copied) => differs_once_told(table, &copied),
        Err(_) => false,
    }
}

/// This thing alone.
fn one(alloc: Global, thing: Thing) -> Result<Amounts, NoMemory>
    ensures { IfOk result (λ things. things ≡ (thing, 0) ∷ []) }
{
    let mut things = Amounts::new(alloc);
    things.push((thing, 0))?;
    Ok(things)
}

/// Whether a table forgets an object of actor 3, and none else.
fn forgets_one(alloc: Global, table: &mut RowTable) -> bool {
    match one(alloc, Thing::Obj(object(3, 5))) {
        Ok(things) => {
            table.forget(&[(ActorName(3), things)]);
            number(table, 5) == None && number(table, 4) == Some(7)
        }
        Err(_) => false,
    }
}

/// Whether a table knows what it is told, and forgets what it is to forget.
fn changes(alloc: Global, table: &mut RowTable) -> bool
    requires { AllKnownHere table.old }
{
    knows_the_last(table) && differs_from_copy(alloc, table) && forgets_one(alloc, table)
}

#[test]
fn what_was_told_last_is_known(rt: HostRuntime) {
    let mut table = RowTable::new(rt.alloc());
    let holds = changes(rt.alloc(), &mut table);
    drop(table);
    assert!(rt; holds);
}
