// The machine that collects, driven event by event over checked texts.

ghost use Rattle.std.specs.Prelude.{◌≡◌, []};
ghost use Rattle.machine_check.specs.Driven.{IsDriven};
ghost use Rattle.orca_core.specs.Machine.{NoneIsAway};

use crate::driving::{Drive, WEIGHT, does};
use crate::plain_tests::checked;
use crate::programs::{OPENED, PING, SEVEN};
use behaviour_check::Checked;
use event_rule::Event;
use orca_core::{Orca, StepFault};
use orca_names::{ActorName, Serial, Trace, Value};
use row_store::NoBlocks;
use std::alloc::Global;
use std::test::Fail;

pub(crate) const TAKE: u8 = 0;

pub(crate) const GO: u8 = 1;

pub(crate) const COLLECT: u8 = 2;

pub(crate) const LEAVE: u8 = 3;

pub(crate) const BLOCK: u8 = 4;

pub(crate) const HEAR: u8 = 5;

pub(crate) const SCAN: u8 = 6;

pub(crate) const REAP: u8 = 7;

/// What is expected of an event.
#[derive(Clone, Copy)]
enum Want {
    /// It is not enabled.
    Refused,
    /// It is done.
    Done,
    /// It is done, and this is the lowest actor that it wakes.
    Wakes(u32),
    /// It is done, and wakes none.
    WakesNone,
}

use Want::{Done, Refused, Wakes, WakesNone};

/// Events by their kinds and numbers, with what is expected of each.
type Events = &'static [(u8, u32, Want)];

// A run of the program that pokes. Each peer reports; one acknowledges the first token, and the letter
// that waits for the other cancels it. Neither may leave then. The second token takes both.
const TO_THE_REAP: Events = &[
    (TAKE, 0, WakesNone),
    (GO, 0, Wakes(1)),
    (GO, 0, Wakes(2)),
    (GO, 0, Wakes(2)),
    (GO, 0, Wakes(1)),
    (GO, 0, Wakes(1)),
    (GO, 0, WakesNone),
    (COLLECT, 0, Wakes(1)),
    (TAKE, 2, Done),
    (GO, 2, Done),
    (TAKE, 2, Done),
    (COLLECT, 2, Done),
    (BLOCK, 2, Done),
    (TAKE, 1, Done),
    (GO, 1, Done),
    (TAKE, 1, Done),
    (GO, 1, Done),
    (GO, 1, Done),
    (TAKE, 1, Done),
    (COLLECT, 1, Done),
    (BLOCK, 1, Done),
    (HEAR, 0, Done),
    (HEAR, 0, Done),
    (SCAN, 0, Done),
    (TAKE, 1, Done),
    (TAKE, 2, Done),
    (HEAR, 0, Done),
    (HEAR, 0, Done),
    (LEAVE, 1, Refused),
    (LEAVE, 2, Refused),
    (REAP, 1, Refused),
    (GO, 2, Done),
    (GO, 2, Done),
    (TAKE, 2, Done),
    (COLLECT, 2, Done),
    (BLOCK, 2, Done),
    (HEAR, 0, Done),
    (SCAN, 0, Done),
    (TAKE, 1, Done),
    (TAKE, 2, Done),
    (HEAR, 0, Done),
    (HEAR, 0, Done),
    (REAP, 1, Refused),
    (REAP, 2, Done),
];

// After that the first actor leaves, and nothing can happen.
const BY_LEAVING: Events = &[(LEAVE, 0, Done), (LEAVE, 0, Refused), (BLOCK, 0, Refused)];

// Or it goes by a token of its own.
const BY_A_TOKEN: Events = &[
    (BLOCK, 0, Done),
    (HEAR, 0, Done),
    (SCAN, 0, Done),
    (TAKE, 0, Done),
    (HEAR, 0, Done),
    (REAP, 3, Done),
];

// Before its first letter is taken, the program that prints can do nothing else; and it can't take that
// twice.
const FIRST: Events = &[
    (GO, 0, Refused),
    (COLLECT, 0, Refused),
    (LEAVE, 0, Refused),
    (BLOCK, 0, Refused),
    (HEAR, 0, Refused),
    (SCAN, 0, Refused),
    (REAP, 1, Refused),
    (TAKE, 1, Refused),
    (TAKE, 0, WakesNone),
    (TAKE, 0, Refused),
];

// With root-only tracing what a row gives is minted first.
const MINTED: Events = &[
    (TAKE, 0, Done),
    (GO, 0, Done),
    (GO, 0, Done),
    (GO, 0, Done),
    (TAKE, 1, Done),
    (GO, 1, Wakes(0)),
    (TAKE, 0, Done),
    (GO, 1, Done),
];

/// The event of a kind and a number.
pub(crate) fn event(kind: u8, number: u32) -> Event {
    let actor = ActorName(number);
    match kind {
        TAKE => Event::Take(actor),
        GO => Event::Go(actor),
        COLLECT => Event::Collect(actor),
        LEAVE => Event::Leave(actor),
        BLOCK => Event::Block(actor),
        HEAR => Event::Hear,
        SCAN => Event::Scan,
        _ => Event::Reap(Serial::of(u64::from(number))),
    }
}

/// Whether an event has the answer that is expected.
fn answers_so(
    alloc: Global,
    drive: &Drive<'_>,
    machine: &mut Orca<'_>,
    event: Event,
    want: Want,
) -> bool
    requires { IsDriven drive.now.code.now drive.now.trace machine.old }
    ensures { IsDriven drive.now.code.now drive.now.trace machine.new }
{
    let told = does(alloc, drive, machine, event);
    match want {
        Refused => told == Err(StepFault::NotEnabled),
        Done => told.is_ok(),
        Wakes(actor) => told == Ok(Some(ActorName(actor))),
        WakesNone => told == Ok(None),
    }
}

/// Whether these events, one after another, have the answers that are expected.
fn does_all(alloc: Global, drive: &Drive<'_>, machine: &mut Orca<'_>, events: Events) -> bool
    requires { IsDriven drive.now.code.now drive.now.trace machine.old }
    ensures { IsDriven drive.now.code.now drive.now.trace machine.new }
{
    for (kind, number, want) in events {
        if !answers_so(alloc, drive, machine, event(*kind, *number), *want) {
            return false;
        }
    }
    true
}

/// A program, with events and then further ones, and what is expected of the machine after them.
#[derive(Drop)]
struct Run {
    text: &'static str,
    trace: Trace,
    events: Events,
    further: Events,
    /// The one number that it printed, if any.
    prints: Option<u64>,
    /// How many actors, objects and events there were, and how many things are left.
    numbers: [u64; 4],
    quiet: bool,
}

const LEFT: Run = Run {
    text: PING,
    trace: Trace::Deep,
    events: TO_THE_REAP,
    further: BY_LEAVING,
    prints: Some(1),
    numbers: [3, 0, 41, 0],
    quiet: true,
};

const REAPED: Run = Run {
    further: BY_A_TOKEN,
    numbers: [3, 0, 46, 0],
    ..LEFT
};

const NOT_ENABLED: Run = Run {
    text: SEVEN,
    trace: Trace::Deep,
    events: FIRST,
    further: &[],
    prints: None,
    numbers: [1, 0, 1, 1],
    quiet: false,
};

const GOT: Run = Run {
    text: OPENED,
    trace: Trace::Roots,
    events: MINTED,
    further: &[],
    prints: Some(4),
    numbers: [2, 2, 8, 4],
    quiet: false,
};

/// Whether this number alone was printed, or nothing.
fn is_all(prints: &[Value], number: Option<u64>) -> bool {
    match number {
        Some(number) => prints == [Value::Num(number)].as_slice(),
        None => prints.is_empty(),
    }
}

/// Whether a machine is as it should be after a run.
fn is_seen(alloc: Global, machine: &Orca<'_>, run: &Run) -> Result<bool, Fail>
    requires { NoneIsAway machine.now }
{
    let left = machine.left(alloc)?.len() as u64;
    let numbers = [
        machine.made(),
        machine.objects_made(),
        machine.steps(),
        left,
    ];
    let printed = is_all(machine.prints(), run.prints);
    Ok(printed && numbers == run.numbers && machine.quiet() == run.quiet)
}

/// Whether the machine does the events of a run as they should be done, and then is as it should be.
fn shows(alloc: Global, drive: &Drive<'_>, machine: &mut Orca<'_>, run: &Run) -> Result<bool, Fail>
    requires { IsDriven drive.now.code.now drive.now.trace machine.old }
{
    let well = does_all(alloc, drive, machine, run.events)
        && does_all(alloc, drive, machine, run.further);
    Ok(well && is_seen(alloc, machine, run)?)
}

/// Whether an actor has its event, none while its cell is lent, and is there all the time.
fn lends(machine: &mut Orca<'_>, a: ActorName, e: &Event) -> bool {
    let before = machine.enabled(*e) && machine.next_of(a) == Some(*e);
    let lent = machine.lift(a).is_some();
    let none = !machine.enabled(*e) && machine.next_of(a).is_none() && machine.cell(a).is_none();
    before && lent && none && machine.lives(a)
}

/// Whether an event is done as it was prepared, and not before.
fn does_prepared(alloc: Global, machine: &mut Orca<'_>, e: Event) -> Result<bool, Fail>
    requires home { NoneIsAway machine.old }
    requires none { machine.old.blocks ≡ [] }
{
    let steps = machine.steps();
    if steps > 1000 {
        return Err(Fail::from("a long run"));
    }
    let ready = machine.prepare(alloc, e, &mut NoBlocks::default())?;
    let waits = machine.steps() == steps && machine.enabled(e);
    machine.apply_ready(ready, &mut NoBlocks::default());
    Ok(waits && machine.steps() == steps + 1 && !machine.enabled(e))
}

/// What is looked at: a run, that a cell is lent, or that an event is done as it was
/// prepared.
#[derive(Clone, Copy)]
enum Look<'a> {
    Run(&'a Run),
    Lent,
    Prepared,
}

/// Whether it is so with a machine that did nothing yet.
fn holds(
    alloc: Global,
    drive: &Drive<'_>,
    machine: &mut Orca<'_>,
    look: Look<'_>,
) -> Result<bool, Fail>
    requires { IsDriven drive.now.code.now drive.now.trace machine.old }
{
    match look {
        Look::Run(run) => shows(alloc, drive, machine, run),
        Look::Lent => Ok(lends(machine, ActorName(0), &event(TAKE, 0))),
        Look::Prepared => does_prepared(alloc, machine, event(TAKE, 0)),
    }
}

fn holds_at_start(alloc: Global, drive: &Drive<'_>, look: Look<'_>) -> Result<bool, Fail> {
    let mut machine = Orca::start(alloc, drive.code, WEIGHT, None, drive.trace)?;
    holds(alloc, drive, &mut machine, look)
}

/// Whether it is so with the machine of a program; what turns and collections do may be found on the actor's
/// cell before.
fn holds_of(
    alloc: Global,
    text: &str,
    trace: Trace,
    finds: bool,
    look: Look<'_>,
) -> Result<bool, Fail> {
    let code = checked(alloc, text)?;
    let drive = Drive {
        code: &code,
        trace,
        finds,
    };
    holds_at_start(alloc, &drive, look)
}

/// Whether a run goes as it should; what turns and collections do may be found before.
fn goes(alloc: Global, run: &Run, finds: bool) -> Result<bool, Fail> {
    holds_of(alloc, run.text, run.trace, finds, Look::Run(run))
}

#[test]
fn two_peers_are_reaped_and_their_maker_goes(rt: HostRuntime) -> Result<(), Fail> {
    assert!(rt; goes(rt.alloc(), &LEFT, false)?);
    assert!(rt; goes(rt.alloc(), &REAPED, false)?);
    Ok(())
}

#[test]
fn events_that_are_not_enabled_change_nothing(rt: HostRuntime) -> Result<(), Fail> {
    assert!(rt; goes(rt.alloc(), &NOT_ENABLED, false)?);
    Ok(())
}

#[test]
fn what_a_row_gives_is_minted_first(rt: HostRuntime) -> Result<(), Fail> {
    assert!(rt; goes(rt.alloc(), &GOT, false)?);
    Ok(())
}

#[test]
fn what_was_found_is_done_as_a_step_does_it(rt: HostRuntime) -> Result<(), Fail> {
    for run in [&LEFT, &REAPED, &NOT_ENABLED, &GOT] {
        assert!(rt; goes(rt.alloc(), run, true)?, "over {}", run.text);
    }
    Ok(())
}

#[test]
fn a_lent_cell_has_no_event(rt: HostRuntime) -> Result<(), Fail> {
    assert!(rt; holds_of(rt.alloc(), SEVEN, Trace::Deep, false, Look::Lent)?);
    Ok(())
}

#[test]
fn what_was_prepared_is_done(rt: HostRuntime) -> Result<(), Fail> {
    assert!(rt; holds_of(rt.alloc(), SEVEN, Trace::Deep, false, Look::Prepared)?);
    Ok(())
}
