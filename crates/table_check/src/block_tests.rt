// What tables keep and tell of rows that lie in blocks.

ghost use Rattle.std.specs.Prelude.{◌+◌, ◌<◌, ◌≤◌};

use crate::cases::{Given, makes_all, number_in, object};
use crate::trace_tests::take;
use foreign_table::ForeignTable;
use object_heap::ObjectHeap;
use orca_names::{ActorName, ObjName, Row, Thing, Value};
use row_store::{Lent, Remembered, Told};
use std::alloc::Global;

/// Makes an object whose row lies in a block. Whether there was memory, and no more than a million
/// were made.
fn makes_in(heap: &mut ObjectHeap, block: u32) -> bool {
    if heap.reserve(1).is_err() || heap.made() > 1_000_000 {
        return false;
    }
    heap.make_in(block, &Row::of(&[Value::Num(7)]));
    true
}

/// Whether the block of the first object is told, as it is lent and as a load has it.
fn tells_own(heap: &ObjectHeap) -> bool {
    let first = &object(4, 0);
    let loaded = (Thing::Obj(*first), Told::In(5));
    matches!(heap.row(*first), Lent::In(5)) && heap.objects().first() == Some(&loaded)
}

/// Whether the block of an object is told until this is freed, and the row of the next one is at hand.
fn keeps_own(heap: &mut ObjectHeap) -> bool {
    let first = &object(4, 0);
    let made = makes_in(heap, 5) && makes_all(heap, &[&[Given::Num(8)]]);
    let told = tells_own(heap);
    if heap.has(*first) {
        heap.remove(*first);
    }
    made && told
        && matches!(heap.row(*first), Lent::Nothing)
        && number_in(heap.row(object(4, 1))) == Some(8)
}

#[test]
fn heaps_tell_blocks(rt: HostRuntime) {
    let mut heap = ObjectHeap::new(rt.alloc(), ActorName(4));
    let holds = keeps_own(&mut heap);
    drop(heap);
    assert!(rt; holds);
}

/// Gains 1 on an object whose row lies in a block. Whether no more than a million was held.
fn gains_in(table: &mut ForeignTable, n: &ObjName, block: u32) -> bool
    requires { 0 < table.old.spare }
    ensures room { table.old.spare ≤ table.new.spare + 1 }
    ensures values { table.old.spare_values ≤ table.new.spare_values }
{
    let thing = &Thing::Obj(*n);
    if table.count(*thing) > 1_000_000 {
        return false;
    }
    let mut from = Remembered::new();
    from.know(*n, &Row::of(&[Value::Num(7)]));
    table.gain(*thing, &Told::In(block), &from, 1);
    true
}

/// Gains 1 on an object whose row is at hand. Whether no more than a million was held.
fn gains_here(table: &mut ForeignTable, n: &ObjName, number: u64) -> bool
    requires room { 0 < table.old.spare }
    requires values { 1 ≤ table.old.spare_values }
{
    let thing = &Thing::Obj(*n);
    if table.count(*thing) > 1_000_000 {
        return false;
    }
    let told = Told::Here(Row::of(&[Value::Num(number)]));
    table.gain(*thing, &told, &Remembered::new(), 1);
    true
}

/// Gains an object whose row lies in a block, and then one whose value has the room that the other's
/// row leaves. Whether there was memory.
fn gains_both(table: &mut ForeignTable) -> bool {
    if table.reserve(2).is_err() || table.reserve_values(1).is_err() {
        return false;
    }
    gains_in(table, &object(3, 0), 6) && gains_here(table, &object(3, 1), 8)
}

/// Whether the block of a held object is told until this is taken out, and the other row is at hand.
fn keeps_held(table: &mut ForeignTable) -> bool {
    let n = &object(3, 0);
    let first = &Thing::Obj(*n);
    let gained = gains_both(table);
    let told = matches!(table.entry(*first), Some((1, Lent::In(6))));
    if table.count(*first) > 0 {
        table.take_out(*first);
    }
    gained
        && told
        && matches!(table.row(*n), Lent::Nothing)
        && number_in(table.row(object(3, 1))) == Some(8)
}

#[test]
fn held_things_tell_blocks(rt: HostRuntime) {
    let mut table = ForeignTable::new(rt.alloc());
    let holds = keeps_held(&mut table);
    drop(table);
    assert!(rt; holds);
}

/// Whether an actor that takes a letter which tells the block of an object holds it in that block.
fn takes_block(alloc: Global, heap: &mut ObjectHeap, table: &mut ForeignTable) -> bool {
    let n = &object(3, 0);
    let thing = &Thing::Obj(*n);
    let mut memory = Remembered::new();
    memory.know(*n, &Row::of(&[Value::Num(7)]));
    take(alloc, heap, table, thing, &Told::In(6), memory)
        && matches!(table.entry(*thing), Some((1, Lent::In(6))))
}

#[test]
fn letters_are_taken_with_blocks(rt: HostRuntime) {
    let mut heap = ObjectHeap::new(rt.alloc(), ActorName(1));
    let mut table = ForeignTable::new(rt.alloc());
    let holds = takes_block(rt.alloc(), &mut heap, &mut table);
    drop(table);
    drop(heap);
    assert!(rt; holds);
}
