// What each event of a run touches, and what the detector knows at its end.

ghost use Rattle.std.specs.Prelude.{◌≡◌, []};
ghost use Rattle.orca_core.specs.Machine.{NoneIsAway};

use crate::driving::WEIGHT;
use crate::plain_tests::checked;
use crate::programs::{HOLDER, OPENED, PING};
use crate::tests::{BLOCK, COLLECT, GO, HEAR, LEAVE, REAP, SCAN, TAKE, event};
use behaviour_check::Checked;
use orca_core::Orca;
use orca_names::{ActorName, Trace};
use row_store::NoBlocks;
use std::alloc::Global;
use std::test::Fail;

/// An event by its kind and number, with the actors and the token that it touches.
type Touching = (u8, u32, &'static [u32], Option<u64>);

// Each peer reports; one acknowledges the first token, and the letter that waits for the other cancels
// it. The second token takes both.
const TO_THE_REAP: &[Touching] = &[
    (TAKE, 0, &[0], None),
    (GO, 0, &[0, 1], None),
    (GO, 0, &[0, 2], None),
    (GO, 0, &[0, 2], None),
    (GO, 0, &[0, 1], None),
    (GO, 0, &[0, 1], None),
    (GO, 0, &[0], None),
    (COLLECT, 0, &[0, 1, 2], None),
    (TAKE, 2, &[2], None),
    (GO, 2, &[2], None),
    (TAKE, 2, &[2], None),
    (COLLECT, 2, &[2], None),
    (BLOCK, 2, &[2], None),
    (TAKE, 1, &[1], None),
    (GO, 1, &[1], None),
    (TAKE, 1, &[1], None),
    (GO, 1, &[1, 2], None),
    (GO, 1, &[1], None),
    (TAKE, 1, &[1], None),
    (COLLECT, 1, &[1], None),
    (BLOCK, 1, &[1], None),
    (HEAR, 0, &[2], None),
    (HEAR, 0, &[1], None),
    (SCAN, 0, &[1, 2], Some(1)),
    (TAKE, 1, &[1], None),
    (TAKE, 2, &[2], None),
    (HEAR, 0, &[1], Some(1)),
    (HEAR, 0, &[2], Some(1)),
    (GO, 2, &[2], None),
    (GO, 2, &[2], None),
    (TAKE, 2, &[2], None),
    (COLLECT, 2, &[2], None),
    (BLOCK, 2, &[2], None),
    (HEAR, 0, &[2], None),
    (SCAN, 0, &[1, 2], Some(2)),
    (TAKE, 1, &[1], None),
    (TAKE, 2, &[2], None),
    (HEAR, 0, &[1], Some(2)),
    (HEAR, 0, &[2], Some(2)),
    (REAP, 2, &[1, 2], Some(2)),
    (LEAVE, 0, &[0], None),
];

// What a row gives is minted first, which tells the owner.
const MINTED: &[Touching] = &[
    (TAKE, 0, &[0], None),
    (GO, 0, &[0, 1], None),
    (GO, 0, &[0, 1], None),
    (GO, 0, &[0], None),
    (TAKE, 1, &[1], None),
    (GO, 1, &[1, 0], None),
];

// Who leaves gives back what it holds.
const GIVEN_BACK: &[Touching] = &[
    (TAKE, 0, &[0], None),
    (GO, 0, &[0, 1], None),
    (GO, 0, &[0], None),
    (COLLECT, 0, &[0], None),
    (LEAVE, 0, &[0, 1], None),
];

/// Whether these are the actors of these numbers, one after another.
fn are_named(names: &[ActorName], numbers: &[u32]) -> bool {
    if names.len() != numbers.len() {
        return false;
    }
    for (i, name) in names.iter().enumerate() {
        if name.0 != numbers[i] {
            return false;
        }
    }
    true
}

/// Whether an event touches these, and is done then.
fn touches(alloc: Global, machine: &mut Orca<'_>, touching: Touching) -> Result<bool, Fail>
    requires home { NoneIsAway machine.old }
    requires none { machine.old.blocks ≡ [] }
    ensures home { NoneIsAway machine.new }
    ensures none { machine.new.blocks ≡ [] }
{
    let (kind, number, actors, token) = touching;
    if machine.steps() > 1000 {
        return Err(Fail::from("a long run"));
    }
    let ready = machine.prepare(alloc, event(kind, number), &mut NoBlocks::default())?;
    let names = machine.touched(alloc, &ready)?;
    let named = are_named(&names, actors) && machine.touched_token(&ready) == token;
    machine.apply_ready(ready, &mut NoBlocks::default());
    Ok(named)
}

/// Whether these events, one after another, touch what is expected.
fn touch_all(alloc: Global, machine: &mut Orca<'_>, events: &[Touching]) -> Result<bool, Fail>
    requires home { NoneIsAway machine.old }
    requires none { machine.old.blocks ≡ [] }
    ensures home { NoneIsAway machine.new }
    ensures none { machine.new.blocks ≡ [] }
{
    for touching in events {
        if !touches(alloc, machine, *touching)? {
            return Ok(false);
        }
    }
    Ok(true)
}

/// What is known after a run: how many notes wait, how many tokens were opened, and whether the token
/// and the report of the first peer are there.
type Known = (usize, u64, bool, bool);

fn known(machine: &Orca<'_>) -> Known {
    let detector = machine.detector();
    let peer = ActorName(1);
    (
        machine.notes().len(),
        detector.opened(),
        detector.token_of(peer).is_some(),
        detector.report(peer).is_some(),
    )
}

/// Whether the events touch what is expected, and this is known after them.
fn goes_so(
    alloc: Global,
    machine: &mut Orca<'_>,
    events: &[Touching],
    wanted: Known,
) -> Result<bool, Fail>
    requires home { NoneIsAway machine.old }
    requires none { machine.old.blocks ≡ [] }
{
    Ok(touch_all(alloc, machine, events)? && known(machine) == wanted)
}

fn goes_from_start(
    alloc: Global,
    code: &Checked,
    trace: Trace,
    events: &[Touching],
    wanted: Known,
) -> Result<bool, Fail> {
    let mut machine = Orca::start(alloc, code, WEIGHT, None, trace)?;
    goes_so(alloc, &mut machine, events, wanted)
}

/// Whether it is so with the machine of a program.
fn goes(
    alloc: Global,
    text: &str,
    trace: Trace,
    events: &[Touching],
    wanted: Known,
) -> Result<bool, Fail> {
    let code = checked(alloc, text)?;
    goes_from_start(alloc, &code, trace, events, wanted)
}

#[test]
fn events_touch_who_takes_part(rt: HostRuntime) -> Result<(), Fail> {
    let asked = &TO_THE_REAP[..37];
    let none = (0, 0, false, false);
    assert!(rt; goes(rt.alloc(), PING, Trace::Deep, asked, (2, 2, true, true))?);
    assert!(rt;
        goes(
            rt.alloc(),
            PING,
            Trace::Deep,
            TO_THE_REAP,
            (0, 2, false, false)
        )?
    );
    assert!(rt; goes(rt.alloc(), OPENED, Trace::Roots, MINTED, none)?);
    assert!(rt; goes(rt.alloc(), HOLDER, Trace::Deep, GIVEN_BACK, none)?);
    Ok(())
}
