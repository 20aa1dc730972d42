// A heap through its calls that may want memory.

ghost use Rattle.object_heap.specs.Heap.{AllHere};

use crate::cases::{Given, makes_all, number_in, object, raise};
use object_heap::ObjectHeap;
use orca_names::{ActorName, ObjName};
use std::alloc::Global;

// The rows of the two objects of actor 4.
const TWO_ROWS: &[&[Given]] = &[&[Given::Num(7)], &[Given::Num(8)]];

// The number of an object, and its place.
fn look(heap: &ObjectHeap, n: &ObjName) -> (Option<u64>, Option<usize>) {
    (number_in(heap.row(*n)), heap.place(*n))
}

fn differs_once_raised(heap: &mut ObjectHeap, before: &ObjectHeap) -> bool
    requires { AllHere heap.old }
{
    let same = heap.same(before);
    raise(heap, &object(4, 1), 256);
    same && !heap.same(before) && before.len() == 2
}

/// Whether a heap differs from its copy once the count of the second object is raised.
fn differs_from_copy(alloc: Global, heap: &mut ObjectHeap) -> bool
    requires { AllHere heap.old }
{
    match heap.copy(alloc) {
        Ok(before) => differs_once_raised(heap, &before),
        Err(_) => false,
    }
}

/// Whether two objects are made, of which the second has its number and its place, and are copied.
fn makes_two(alloc: Global, heap: &mut ObjectHeap) -> bool
    requires { AllHere heap.old }
{
    makes_all(heap, TWO_ROWS)
        && differs_from_copy(alloc, heap)
        && look(heap, &object(4, 1)) == (Some(8), Some(1))
        && heap.len() == 2
        && heap.made() == 2
}

#[test]
fn objects_are_made_and_copied(rt: HostRuntime) {
    let mut heap = ObjectHeap::new(rt.alloc(), ActorName(4));
    let holds = makes_two(rt.alloc(), &mut heap);
    drop(heap);
    assert!(rt; holds);
}

/// Whether of two objects the second stays with its number once the first is removed.
fn removes_one(heap: &mut ObjectHeap) -> bool {
    let first = &object(4, 0);
    let made = makes_all(heap, TWO_ROWS) && heap.has(*first);
    if heap.has(*first) {
        heap.remove(*first);
    }
    made && !heap.has(*first)
        && look(heap, &object(4, 1)) == (Some(8), Some(0))
        && heap.len() == 1
        && heap.made() == 2
}

#[test]
fn an_object_is_removed_alone(rt: HostRuntime) {
    let mut heap = ObjectHeap::new(rt.alloc(), ActorName(4));
    let holds = removes_one(&mut heap);
    drop(heap);
    assert!(rt; holds);
}
