// What an actor frees and gives back.

ghost use Rattle.foreign_table.specs.Table.{AllHere as AllHeldHere};
ghost use Rattle.object_heap.specs.Heap.{AllHere as AllOwnHere};

use crate::cases::{
    Amount, Given, Holding, Named, are_amounts, args_of, gains_all, makes_all, object, raise,
};
use foreign_table::ForeignTable;
use known_rows::KnownPlaces;
use letter_kinds::{Amounts, SweepPlan};
use local_sweep::{apply, plan, plan_of_marks};
use object_heap::ObjectHeap;
use orca_names::{ActorName, Fields};
use reach_walk::Places;
use ready_set::PlaceSet;
use root_trace::plan_roots;
use row_store::NoBlocks;
use std::alloc::Global;

/// What keeps a thing.
#[derive(Clone, Copy)]
enum Keeper {
    /// The field that has this value, if there is one, and all rows. The sweep is planned and done.
    Field(&'static [Given]),

    /// The field that has this value, and the rows of own objects alone. The sweep is planned alone.
    FieldAndOwnRows(&'static [Given]),

    /// The mark on this place. The sweep is planned alone.
    Mark(usize),
}

/// An actor and its sweep.
struct Sweep {
    actor: u32,
    held: &'static [Holding],

    /// The rows of its objects, and how often the first of these is counted.
    rows: &'static [&'static [Given]],
    counted: u32,
    keeper: Keeper,

    /// The serial of the object that is freed, if one is, and what goes back to each owner.
    freed: Option<u64>,
    back: &'static [(u32, &'static [Amount])],

    /// Whether the first object is there then, and how many things are held.
    stays: bool,
    left: usize,
}

const ALL_THAT_IS_HELD_GOES_BACK: Sweep = Sweep {
    actor: 1,
    held: &[
        (Named::Actor(0), &[], 256),
        (Named::Actor(2), &[], 1),
        (Named::Object(0, 0), &[Given::Num(9)], 256),
    ],
    rows: &[],
    counted: 0,
    keeper: Keeper::Field(&[]),
    freed: None,
    back: &[
        (0, &[(Named::Actor(0), 256), (Named::Object(0, 0), 256)]),
        (2, &[(Named::Actor(2), 1)]),
    ],
    stays: false,
    left: 0,
};

const A_COUNTED_OBJECT_STAYS_BUT_NOT_WHAT_IT_NAMES: Sweep = Sweep {
    actor: 1,
    held: &[(Named::Actor(2), &[], 256)],
    rows: &[&[Given::Actor(2)]],
    counted: 1,
    keeper: Keeper::Field(&[]),
    freed: None,
    back: &[(2, &[(Named::Actor(2), 256)])],
    stays: true,
    left: 0,
};

// Actors 0 and 2 and an object of 0.
const THREE_HELD: &[Holding] = &[
    (Named::Actor(0), &[], 256),
    (Named::Actor(2), &[], 1),
    (Named::Object(0, 0), &[Given::Num(9)], 7),
];

const WHAT_THE_FIELDS_NAME_STAYS: Sweep = Sweep {
    actor: 1,
    held: THREE_HELD,
    rows: &[&[Given::Actor(2)]],
    counted: 0,
    keeper: Keeper::Field(&[Given::Object(0, 0)]),
    freed: Some(0),
    back: &[(2, &[(Named::Actor(2), 1)])],
    stays: false,
    left: 2,
};

const WHAT_ROWS_LEAD_TO_STAYS: Sweep = Sweep {
    actor: 1,
    held: THREE_HELD,
    rows: &[&[Given::Actor(2)]],
    counted: 0,
    keeper: Keeper::Field(&[Given::Object(1, 0)]),
    freed: None,
    back: &[(0, &[(Named::Actor(0), 256), (Named::Object(0, 0), 7)])],
    stays: true,
    left: 1,
};

const WHAT_OWN_ROWS_REACH_STAYS: Sweep = Sweep {
    actor: 0,
    held: &[],
    rows: &[&[Given::Num(4)], &[Given::Null], &[Given::Object(0, 0)]],
    counted: 0,
    keeper: Keeper::FieldAndOwnRows(&[Given::Object(0, 2)]),
    freed: Some(1),
    back: &[],
    stays: true,
    left: 0,
};

const WHAT_A_ROW_COUNTED_ONCE_REACHES_STAYS: Sweep = Sweep {
    actor: 0,
    held: &[],
    rows: &[&[Given::Object(0, 1)], &[Given::Null]],
    counted: 1,
    keeper: Keeper::FieldAndOwnRows(&[]),
    freed: None,
    back: &[],
    stays: true,
    left: 0,
};

// Actor 1 stands before what it holds of actor 2.
const MARKED_PLACES_STAY: Sweep = Sweep {
    actor: 1,
    held: &[(Named::Actor(0), &[], 256), (Named::Actor(2), &[], 1)],
    rows: &[],
    counted: 0,
    keeper: Keeper::Mark(2),
    freed: None,
    back: &[(0, &[(Named::Actor(0), 256)])],
    stays: false,
    left: 2,
};

fn gives_back(back: &[(ActorName, Amounts)], want: &[(u32, &[Amount])]) -> bool {
    if back.len() != want.len() {
        return false;
    }
    for (group, wanted) in back.iter().zip(want.iter()) {
        if group.0 != ActorName(wanted.0) || !are_amounts(group.1.as_slice(), wanted.1) {
            return false;
        }
    }
    true
}

/// Whether the plan frees and gives back what is wanted.
fn is_wanted(plan: &SweepPlan, sweep: &Sweep) -> bool {
    let free = plan.free.as_slice();
    let frees = match sweep.freed {
        Some(serial) => free == [object(sweep.actor, serial)].as_slice(),
        None => free.is_empty(),
    };
    frees && gives_back(plan.back.as_slice(), sweep.back)
}

fn fields_of(values: &[Given]) -> Fields {
    Fields {
        values: args_of(values),
        pinned: false,
    }
}

/// Plans the sweep by the fields, and does it.
fn sweeps(
    alloc: Global,
    fields: &Fields,
    sweep: &Sweep,
    heap: &mut ObjectHeap,
    foreign: &mut ForeignTable,
) -> bool
    requires own { AllOwnHere heap.old }
    requires held { AllHeldHere foreign.old }
{
    let known = KnownPlaces::of(heap, foreign);
    if !known.holds_others_only() {
        return false;
    }
    match plan(alloc, fields, heap, foreign, &mut NoBlocks::default()) {
        Ok(plan) => {
            apply(&plan, heap, foreign);
            is_wanted(&plan, sweep)
        }
        Err(_) => false,
    }
}

fn plans_by_own_rows(
    alloc: Global,
    fields: &Fields,
    sweep: &Sweep,
    heap: &ObjectHeap,
    foreign: &ForeignTable,
) -> bool
    requires own { AllOwnHere heap.now }
    requires held { AllHeldHere foreign.now }
{
    let known = KnownPlaces::of(heap, foreign);
    if !known.holds_others_only() {
        return false;
    }
    match plan_roots(alloc, fields, heap, foreign, &mut NoBlocks::default()) {
        Ok(plan) => is_wanted(&plan, sweep),
        Err(_) => false,
    }
}

fn plans_by_marks(
    alloc: Global,
    marks: &PlaceSet,
    sweep: &Sweep,
    heap: &ObjectHeap,
    foreign: &ForeignTable,
) -> bool {
    let known = KnownPlaces::of(heap, foreign);
    if known.places() > marks.len() {
        return false;
    }
    match plan_of_marks(alloc, marks, heap, foreign) {
        Ok(plan) => is_wanted(&plan, sweep),
        Err(_) => false,
    }
}

/// Plans the sweep by a mark on this place of three.
fn plans_by_a_mark(
    alloc: Global,
    place: usize,
    sweep: &Sweep,
    heap: &ObjectHeap,
    foreign: &ForeignTable,
) -> bool {
    let Ok(mut marks) = PlaceSet::with_places(alloc, 3) else {
        return false;
    };
    if marks.len() > place {
        marks.insert(place);
    }
    plans_by_marks(alloc, &marks, sweep, heap, foreign)
}

/// Whether an actor that holds nothing yet and has no object sweeps as is wanted once it has all this.
fn ends_so(alloc: Global, sweep: &Sweep, heap: &mut ObjectHeap, foreign: &mut ForeignTable) -> bool
    requires own { AllOwnHere heap.old }
    requires held { AllHeldHere foreign.old }
{
    let first = &object(sweep.actor, 0);
    let ready = gains_all(foreign, sweep.held) && makes_all(heap, sweep.rows);
    if sweep.counted > 0 {
        raise(heap, first, sweep.counted);
    }
    let swept = match sweep.keeper {
        Keeper::Field(field) => sweeps(alloc, &fields_of(field), sweep, heap, foreign),
        Keeper::FieldAndOwnRows(field) => {
            plans_by_own_rows(alloc, &fields_of(field), sweep, heap, foreign)
        }
        Keeper::Mark(place) => plans_by_a_mark(alloc, place, sweep, heap, foreign),
    };
    ready && swept && heap.has(*first) == sweep.stays && foreign.len() == sweep.left
}

fn holds(alloc: Global, sweep: &Sweep) -> bool {
    let mut heap = ObjectHeap::new(alloc, ActorName(sweep.actor));
    let mut foreign = ForeignTable::new(alloc);
    let holds = ends_so(alloc, sweep, &mut heap, &mut foreign);
    drop(foreign);
    drop(heap);
    holds
}

#[test]
fn what_nothing_keeps_is_freed_or_goes_back(rt: HostRuntime) {
    assert!(rt; holds(rt.alloc(), &ALL_THAT_IS_HELD_GOES_BACK));
    assert!(rt; holds(rt.alloc(), &A_COUNTED_OBJECT_STAYS_BUT_NOT_WHAT_IT_NAMES));
    assert!(rt; holds(rt.alloc(), &WHAT_THE_FIELDS_NAME_STAYS));
    assert!(rt; holds(rt.alloc(), &WHAT_ROWS_LEAD_TO_STAYS));
    assert!(rt; holds(rt.alloc(), &WHAT_OWN_ROWS_REACH_STAYS));
    assert!(rt; holds(rt.alloc(), &WHAT_A_ROW_COUNTED_ONCE_REACHES_STAYS));
    assert!(rt; holds(rt.alloc(), &MARKED_PLACES_STAY));
}
