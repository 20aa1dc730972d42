// What is left at quiet with root-only tracing: what is reached where an actor also leads to its own
// objects that some actor that is left holds.

use actor_cell::Cell;
use foreign_table::ForeignTable;
use object_heap::ObjectHeap;
use orca_core::Orca;
use orca_names::{ActorName, NoMemory, ObjName, Thing, Value};
use row_store::Lent;
use std::alloc::Global;
use std::collections::BTreeSet;

/// Things, each with one to which it leads.
type Edges = Vec<(Thing, Thing)>;

/// The thing leads to those among these values.
fn add_values(edges: &mut Edges, from: &Thing, values: &[Value]) -> Result<(), NoMemory> {
    for value in values {
        if let Some(to) = value.thing() {
            edges.push((*from, to))?;
        }
    }
    Ok(())
}

/// An object leads to its owner, and to what its row names.
fn add_row(edges: &mut Edges, object: ObjName, row: Lent<'_>) -> Result<(), NoMemory> {
    let from = Thing::Obj(object);
    edges.push((from, Thing::Actor(from.owner())))?;
    match row {
        Lent::Here(values) => add_values(edges, &from, values),
        Lent::Nothing | Lent::In(_) => Ok(()),
    }
}

/// The edges of an actor's own objects.
fn add_objects(edges: &mut Edges, heap: &ObjectHeap) -> Result<(), NoMemory> {
    for i in 0..heap.len() {
        let (object, row, _) = heap.at(i);
        add_row(edges, object, row)?;
    }
    Ok(())
}

/// What an actor holds: to these objects their owners lead.
fn add_held(edges: &mut Edges, held: &ForeignTable) -> Result<(), NoMemory> {
    for i in 0..held.len() {
        let thing = held.thing_at(i);
        if matches!(thing, Thing::Obj(_)) {
            edges.push((Thing::Actor(thing.owner()), thing))?;
        }
    }
    Ok(())
}

/// The edges from an actor's fields and its objects, and those to the objects that it holds.
fn add_cell(edges: &mut Edges, a: ActorName, cell: &Cell) -> Result<(), NoMemory> {
    add_values(edges, &Thing::Actor(a), cell.fields.values.as_slice())?;
    add_objects(edges, &cell.heap)?;
    add_held(edges, &cell.foreign)
}

/// The edges of the actors among these things.
fn edges_of(alloc: Global, orca: &Orca<'_>, left: &[Thing]) -> Result<Edges, NoMemory> {
    let mut edges = Vec::new(alloc);
    for thing in left {
        if let Thing::Actor(a) = *thing {
            if let Some(cell) = orca.cell(a) {
                add_cell(&mut edges, a, cell)?;
            }
        }
    }
    Ok(edges)
}

/// Adds the ends of the edges that begin in the set, and answers whether one was new.
fn grows(set: &mut BTreeSet<Thing>, edges: &[(Thing, Thing)]) -> Result<bool, NoMemory> {
    let mut grown = false;
    for (from, to) in edges {
        if set.contains(from) && set.insert(*to)? {
            grown = true;
        }
    }
    Ok(grown)
}

/// Adds all to which edges lead from the set: each round but the last one adds something.
fn close(set: &mut BTreeSet<Thing>, edges: &[(Thing, Thing)]) -> Result<(), NoMemory> {
    for _ in 0..=edges.len() {
        if !grows(set, edges)? {
            break;
        }
    }
    Ok(())
}

/// The things as a set.
fn set_of(alloc: Global, things: &[Thing]) -> Result<BTreeSet<Thing>, NoMemory> {
    let mut set = BTreeSet::new(alloc);
    for thing in things {
        set.insert(*thing)?;
    }
    Ok(set)
}

/// Whether what is left is what is led to from the things that are reached.
pub(crate) fn is_reached_or_held(
    alloc: Global,
    orca: &Orca<'_>,
    left: &[Thing],
    reached: &[Thing],
) -> Result<bool, NoMemory> {
    let edges = edges_of(alloc, orca, left)?;
    let mut set = set_of(alloc, reached)?;
    close(&mut set, &edges)?;
    Ok(set.len() == left.len() && left.iter().all(|thing| set.contains(thing)))
}
