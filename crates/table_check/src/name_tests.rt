// Examples from outside of the contracts: the order of things, and values kept in their places.

ghost use Rattle.std.specs.Prelude.{◌≡◌, length};

use crate::cases::{Named, are_things, thing_of, things_of};
use orca_names::{ActorName, Args, Fields, Row, Value};
use std::alloc::Global;

const RISING: &[Named] = &[
    Named::Actor(0),
    Named::Object(0, 0),
    Named::Object(0, 7),
    Named::Actor(1),
    Named::Object(1, 3),
    Named::Actor(2),
];

// The same, mixed.
const MIXED: &[Named] = &[
    Named::Object(1, 3),
    Named::Object(0, 0),
    Named::Actor(2),
    Named::Actor(0),
    Named::Actor(1),
    Named::Object(0, 7),
];

/// Whether the mixed things, once sorted, rise.
fn rise_once_sorted(alloc: Global) -> bool {
    let Ok(mut things) = things_of(alloc, MIXED) else {
        return false;
    };
    things.sort().is_ok() && are_things(things.as_slice(), RISING)
}

#[test]
fn things_rise_by_owner_and_serial(rt: HostRuntime) {
    assert!(rt; thing_of(Named::Object(1, 3)).owner() == ActorName(1));
    assert!(rt; rise_once_sorted(rt.alloc()));
}

fn nulls_are_null() -> bool {
    Args::nulls(2).as_slice() == [Value::Null; 2].as_slice()
}

fn arguments_keep_their_places() -> bool {
    let want = [Value::Num(7), Value::Num(9), Value::Actor(ActorName(2))];
    let mut args = Args::of(&[Value::Num(7), Value::Null]);
    args.push(Value::Actor(ActorName(2)));
    args.set(1, Value::Num(9));
    args.as_slice() == want.as_slice()
}

fn rows_keep_their_places() -> bool {
    let row = Row::of(&[Value::Num(7), Value::Num(9), Value::Actor(ActorName(2))]);
    row.len() == 3 && row.at(2) == Value::Actor(ActorName(2))
}

fn two_values() -> Args
    ensures { length result ≡ 2 }
{
    Args::of(&[Value::Num(7), Value::Null])
}

fn fields_are_copied() -> bool {
    let mut fields = Fields {
        values: Args::nulls(8),
        pinned: false,
    };
    let other = Fields {
        values: two_values(),
        pinned: true,
    };
    fields.copy_from(&other);
    fields == other
}

fn rows_are_copied() -> bool {
    let values = two_values();
    let mut row = Row::of(&[Value::Null; 8]);
    row.set_values(values.as_slice());
    row.as_slice() == values.as_slice() && row.len() == 2
}

#[test]
fn values_keep_their_places_and_are_copied(rt: HostRuntime) {
    assert!(rt; nulls_are_null());
    assert!(rt; arguments_keep_their_places() && rows_keep_their_places());
    assert!(rt; fields_are_copied() && rows_are_copied());
}
