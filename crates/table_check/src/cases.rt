// What tables of cases write as numbers, what is made of it, and the calls that may want memory.

ghost use Rattle.std.specs.Prelude.{◌≡◌, ◌≤◌, IsTrue, None};
ghost use Rattle.foreign_table.specs.Table.{AllHere as AllHeldHere, row_length};
ghost use Rattle.object_heap.specs.Heap.{AllHere as AllOwnHere};
ghost use Rattle.row_store.specs.Told.{row_here, told_block};

use foreign_table::ForeignTable;
use object_heap::ObjectHeap;
use orca_names::{ActorName, Args, NoMemory, ObjName, Row, Serial, Thing, Value};
use row_store::{Lent, Remembered, Told};
use std::alloc::Global;

/// A thing by numbers, since a constant can't hold a name.
#[derive(Clone, Copy)]
pub(crate) enum Named {
    Actor(u32),
    /// An object, by its owner and its serial.
    Object(u32, u64),
}

/// A value by numbers.
#[derive(Clone, Copy)]
pub(crate) enum Given {
    Null,
    Num(u64),
    Actor(u32),
    Object(u32, u64),
}

/// A thing, and the values of its row, none where that is not known.
pub(crate) type Loaded = (Named, &'static [Given]);

/// A thing, the values of its row, none where that is not known, and a count.
pub(crate) type Holding = (Named, &'static [Given], u64);

/// A thing with an amount.
pub(crate) type Amount = (Named, u64);

pub(crate) fn object(owner: u32, serial: u64) -> ObjName {
    ObjName {
        owner: ActorName(owner),
        serial: Serial::of(serial),
    }
}

pub(crate) fn thing_of(named: Named) -> Thing {
    match named {
        Named::Actor(a) => Thing::Actor(ActorName(a)),
        Named::Object(owner, serial) => Thing::Obj(object(owner, serial)),
    }
}

pub(crate) fn things_of(alloc: Global, names: &[Named]) -> Result<Vec<Thing>, NoMemory> {
    let mut things = Vec::new(alloc);
    for named in names {
        things.push(thing_of(*named))?;
    }
    Ok(things)
}

fn value_of(given: Given) -> Value {
    match given {
        Given::Null => Value::Null,
        Given::Num(number) => Value::Num(number),
        Given::Actor(a) => Value::Actor(ActorName(a)),
        Given::Object(owner, serial) => Value::Obj(object(owner, serial)),
    }
}

/// These values; no more than the first eight.
pub(crate) fn args_of(values: &[Given]) -> Args {
    let mut args = Args::new();
    for given in values {
        if args.len() < 8 {
            args.push(value_of(*given));
        }
    }
    args
}

/// The row of these values; `None` where there are none.
pub(crate) fn row_of(values: &[Given]) -> Option<Row> {
    let args = args_of(values);
    if args.len() == 0 {
        return None;
    }
    Some(Row::from_args(args))
}

/// What is told of the row of these values, which is at hand: nothing where there are none.
pub(crate) fn told_of(values: &[Given]) -> Told
    ensures { told_block result ≡ None }
{
    match row_of(values) {
        Some(row) => Told::Here(row),
        None => Told::Nothing,
    }
}

/// The number that a row at hand begins with; one that no table writes where it begins with no number.
pub(crate) fn number_in(row: Lent<'_>) -> Option<u64> {
    let Lent::Here(values) = row else {
        return None;
    };
    match values.first() {
        Some(Value::Num(number)) => Some(*number),
        _ => Some(u64::MAX),
    }
}

/// Whether these things were found, in this order.
pub(crate) fn are_things(found: &[Thing], want: &[Named]) -> bool {
    if found.len() != want.len() {
        return false;
    }
    for (thing, named) in found.iter().zip(want.iter()) {
        if *thing != thing_of(*named) {
            return false;
        }
    }
    true
}

/// Whether these amounts were found, in this order.
pub(crate) fn are_amounts(found: &[(Thing, u64)], want: &[Amount]) -> bool {
    if found.len() != want.len() {
        return false;
    }
    for (amount, wanted) in found.iter().zip(want.iter()) {
        if amount.0 != thing_of(wanted.0) || amount.1 != wanted.1 {
            return false;
        }
    }
    true
}

/// Whether these things were found with these rows, in this order.
pub(crate) fn are_loaded(found: &[(Thing, Told)], want: &[Loaded]) -> bool {
    if found.len() != want.len() {
        return false;
    }
    for (loaded, wanted) in found.iter().zip(want.iter()) {
        if loaded.0 != thing_of(wanted.0) || loaded.1 != told_of(wanted.1) {
            return false;
        }
    }
    true
}

// How many values the row has that is told.
fn told_len(told: &Told) -> usize
    ensures { result ≡ row_length (row_here told.now) }
{
    match told {
        Told::Here(row) => row.len() as usize,
        Told::Nothing | Told::In(_) => 0,
    }
}

/// Takes room for one thing and the row that is told. Whether there was memory.
pub(crate) fn reserves_one(table: &mut ForeignTable, told: &Told) -> bool
    ensures room { IsTrue result → 1 ≤ table.new.spare }
    ensures values { IsTrue result → row_length (row_here told.now) ≤ table.new.spare_values }
    ensures blocks { table.new.blocks ≡ table.old.blocks }
{
    table.reserve(1).is_ok() && table.reserve_values(told_len(told)).is_ok()
}

/// Gains so much on the thing. Whether there was memory, and no more than a million was held.
fn gains(table: &mut ForeignTable, thing: &Thing, told: &Told, by: u64) -> bool
    ensures { AllHeldHere table.old → AllHeldHere table.new }
{
    if by > 1_000_000
        || told.block().is_some()
        || !reserves_one(table, told)
        || table.count(*thing) > 1_000_000
    {
        return false;
    }
    table.gain(*thing, told, &Remembered::new(), by);
    true
}

/// Gains so much on each of these things. Whether there was memory.
pub(crate) fn gains_all(table: &mut ForeignTable, holdings: &[Holding]) -> bool
    ensures { AllHeldHere table.old → AllHeldHere table.new }
{
    for (named, values, by) in holdings {
        if !gains(table, &thing_of(*named), &told_of(values), *by) {
            return false;
        }
    }
    true
}

/// Makes an object of these values. Whether there was memory, and no more than a million were made.
fn makes(heap: &mut ObjectHeap, values: &[Given]) -> bool
    ensures { AllOwnHere heap.old → AllOwnHere heap.new }
{
    let Some(row) = row_of(values) else {
        return false;
    };
    if heap.reserve(1).is_err() || heap.made() > 1_000_000 {
        return false;
    }
    heap.make(row);
    true
}

/// Makes an object of each of these rows. Whether there was memory.
pub(crate) fn makes_all(heap: &mut ObjectHeap, rows: &[&[Given]]) -> bool
    ensures { AllOwnHere heap.old → AllOwnHere heap.new }
{
    for values in rows {
        if !makes(heap, values) {
            return false;
        }
    }
    true
}

/// The count of an object rises, where it is there and below a million.
pub(crate) fn raise(heap: &mut ObjectHeap, n: &ObjName, by: u32)
    ensures { heap.new.blocks ≡ heap.old.blocks }
{
    if heap.has(*n) {
        if heap.count(*n) < 1_000_000 {
            heap.raise(*n, u64::from(by));
        }
    }
}
