// The machine that frees nothing, driven event by event over checked texts.

use crate::programs::SEVEN;
use behaviour_check::{Checked, check};
use behaviour_text::parse;
use event_rule::Event;
use orca_names::{ActorName, ObjName, Serial, Thing, Value};
use plain_machine::{Plain, PlainFault};
use std::alloc::Global;
use std::test::Fail;

const MAIN: ActorName = ActorName(0);

const CELL: ActorName = ActorName(1);

// Two letters to a cell, which keeps the object of the first one and prints what came.
const TWO_LETTERS: &str =
    "kind Main 0\non start 0\nint r0 4\nrow r1 r0\nrow r2 r1\nnew r3 Cell\nsend r3 keep r1 r0\nsend r3 keep r0 r3\nend\nkind Cell 1\non keep 2\nstore f0 r0\nprint r0\nprint r1\nend\n";

/// The first object of the first actor.
fn first_object() -> ObjName {
    ObjName {
        owner: MAIN,
        serial: Serial::of(0),
    }
}

/// The program of a text.
pub(crate) fn checked(alloc: Global, text: &str) -> Result<Checked, Fail> {
    if text.len() > 4096 {
        return Err(Fail::from("a long text"));
    }
    Ok(check(parse(alloc, text.as_bytes())?)?)
}

/// Does this event, if the machine is young enough.
fn does(alloc: Global, machine: &mut Plain<'_>, event: Event) -> Result<(), PlainFault> {
    if machine.steps() > 1000 {
        return Err(PlainFault::NoMemory);
    }
    match event {
        Event::Take(a) => machine.take(a),
        Event::Go(a) => machine.go(alloc, a),
        _ => Err(PlainFault::NotReady),
    }
}

/// Whether these events were enabled where this is wanted, each after those before it.
fn answers(alloc: Global, machine: &mut Plain<'_>, events: &[(bool, u32, bool)]) -> bool {
    for (goes, actor, enabled) in events {
        let name = ActorName(*actor);
        let event = if *goes {
            Event::Go(name)
        } else {
            Event::Take(name)
        };
        if does(alloc, machine, event).is_ok() != *enabled {
            return false;
        }
    }
    true
}

/// Does the first enabled events, at most as many as these, and answers how many they were.
fn run(alloc: Global, machine: &mut Plain<'_>, most: u64) -> Result<u64, Fail> {
    for done in 0..most {
        let Some(event) = machine.first_enabled() else {
            return Ok(done);
        };
        does(alloc, machine, event)?;
    }
    Ok(most)
}

/// What is expected of a machine after some events: what is reachable, what was printed, and how many
/// events, actors and objects there were.
type Seen<'a> = (&'a [Thing], &'a [Value], [u64; 3]);

/// Whether these events were enabled where this is wanted, and this is seen of the machine after them and its
/// first events then, at most so many.
fn is_seen(
    alloc: Global,
    machine: &mut Plain<'_>,
    events: &[(bool, u32, bool)],
    most: u64,
    want: Seen<'_>,
) -> Result<bool, Fail> {
    let well = answers(alloc, machine, events);
    let done = run(alloc, machine, most)?;
    let things = machine.reach(alloc)?;
    let numbers = [done, machine.made(), machine.objects_made()];
    Ok(well && things.as_slice() == want.0 && machine.prints() == want.1 && numbers == want.2)
}

fn shows_over(
    alloc: Global,
    code: &Checked,
    events: &[(bool, u32, bool)],
    most: u64,
    want: Seen<'_>,
) -> Result<bool, Fail> {
    let mut machine = Plain::start(alloc, code)?;
    is_seen(alloc, &mut machine, events, most, want)
}

/// The same, of the machine of a program.
fn shows(
    alloc: Global,
    text: &str,
    events: &[(bool, u32, bool)],
    most: u64,
    want: Seen<'_>,
) -> Result<bool, Fail> {
    let code = checked(alloc, text)?;
    shows_over(alloc, &code, events, most, want)
}

// Events of the program that prints, some of them before or after their time: whether an actor goes,
// else it takes a letter, which one, and whether the event is enabled.
const EVENTS: &[(bool, u32, bool)] = &[
    (true, 0, false),
    (false, 1, false),
    (false, 0, true),
    (false, 0, false),
    (true, 1, false),
    (true, 0, true),
    (true, 0, true),
    (true, 0, false),
    (false, 0, false),
];

#[test]
fn events_that_are_not_enabled_change_nothing(rt: HostRuntime) -> Result<(), Fail> {
    let seven = [Value::Num(7)];
    assert!(rt; shows(rt.alloc(), SEVEN, EVENTS, 0, (&[], &seven, [0, 1, 0]))?);
    Ok(())
}

#[test]
fn letters_hold_what_they_bring(rt: HostRuntime) -> Result<(), Fail> {
    // The turn has ended; the letters hold the cell, the object and by it its owner.
    let held = [
        Thing::Actor(MAIN),
        Thing::Obj(first_object()),
        Thing::Actor(CELL),
    ];
    assert!(rt; shows(rt.alloc(), TWO_LETTERS, &[], 5, (&held, &[], [5, 2, 2]))?);
    Ok(())
}

#[test]
fn letters_come_in_their_order(rt: HostRuntime) -> Result<(), Fail> {
    let prints = [
        Value::Obj(first_object()),
        Value::Num(4),
        Value::Num(4),
        Value::Actor(CELL),
    ];
    assert!(rt; shows(rt.alloc(), TWO_LETTERS, &[], 99, (&[], &prints, [13, 2, 2]))?);
    Ok(())
}

#[test]
fn faults_have_their_texts(rt: HostRuntime) -> Result<(), Fail> {
    let alloc = rt.alloc();
    let actor = ActorName(3);
    let texts = [
        (PlainFault::NotReady, "the event is not enabled"),
        (PlainFault::ActorsFull { actor }, "all actors are made"),
        (PlainFault::NoMemory, "out of memory"),
    ];
    for (fault, want) in &texts {
        let text = format!(in alloc; "{fault}")?;
        assert_eq!(rt; text.as_str(), *want);
    }
    Ok(())
}
