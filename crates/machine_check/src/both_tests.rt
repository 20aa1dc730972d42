// Both machines over one program: what is left at the end is what the other reaches.

ghost use Rattle.std.specs.Prelude.{◌≡◌, ◌<◌, ◌≤◌, []};
ghost use Rattle.orca_core.specs.Machine.{NoneIsAway};

use crate::beside::{Ended, prints_the_same};
use crate::left_by_roots::is_reached_or_held;
use crate::plain_tests::checked;
use crate::programs::{
    HALVES, KEPT, MANY_LEAVES, NAMED, OPENED, PASSED, PEERS, PING, PINNED, REACHED_TWICE, SEVEN,
    TO_ITSELF, TWO_PRINT, UNHEARD, VALUES, WRAPS,
};
use behaviour_check::Checked;
use drawn_program::{Lot, program};
use orca_core::Orca;
use orca_names::Trace;
use plain_machine::Plain;
use row_store::NoBlocks;
use std::alloc::Global;
use std::test::Fail;

/// How many more things are left in the one machine, which is quiet, than are reachable in the other:
/// none by deep tracing. `None` where other things are left than should be.
fn surplus(
    alloc: Global,
    orca: &Orca<'_>,
    plain: &Plain<'_>,
    trace: Trace,
) -> Result<Option<usize>, Fail>
    requires { NoneIsAway orca.now }
{
    let left = orca.left(alloc)?;
    let reached = plain.reach(alloc)?;
    let is_right = match trace {
        Trace::Deep => left.as_slice() == reached.as_slice(),
        Trace::Roots => is_reached_or_held(alloc, orca, &left, &reached)?,
    };
    Ok(is_right.then_some(left.len().saturating_sub(reached.len())))
}

/// Both machines go on to where they are quiet. How many more things are left in the one then than are
/// reachable in the other; `None` where they do not print the same on the way, or do not end alike.
fn end_alike(
    alloc: Global,
    orca: &mut Orca<'_>,
    plain: &mut Plain<'_>,
    trace: Trace,
) -> Result<Option<usize>, Fail>
    requires home { NoneIsAway orca.old }
    requires none { orca.old.blocks ≡ [] }
{
    let ended = prints_the_same(alloc, orca, plain, &mut NoBlocks::default())?;
    if ended == Some(Ended::Quiet) && plain.first_enabled().is_none() {
        surplus(alloc, orca, plain, trace)
    } else {
        Ok(None)
    }
}

fn end_alike_over(
    alloc: Global,
    code: &Checked,
    weight: u32,
    trace: Trace,
) -> Result<Option<usize>, Fail>
    requires heavy { 0 < weight }
    requires light { weight ≤ 65536 }
{
    let mut plain = Plain::start(alloc, code)?;
    let mut orca = Orca::start(alloc, code, weight, None, trace)?;
    end_alike(alloc, &mut orca, &mut plain, trace)
}

/// How many more things are left of a program in the machine that collects than are reachable in the other;
/// `None` where the machines do not agree.
fn surplus_of(alloc: Global, text: &str, weight: u32, trace: Trace) -> Result<Option<usize>, Fail>
    requires heavy { 0 < weight }
    requires light { weight ≤ 65536 }
{
    let code = checked(alloc, text)?;
    end_alike_over(alloc, &code, weight, trace)
}

/// Whether the machines agree over a program, by both tracings.
fn agree(alloc: Global, text: &str, weight: u32) -> Result<bool, Fail>
    requires heavy { 0 < weight }
    requires light { weight ≤ 65536 }
{
    let deep = surplus_of(alloc, text, weight, Trace::Deep)?;
    let roots = surplus_of(alloc, text, weight, Trace::Roots)?;
    Ok(deep == Some(0) && roots.is_some())
}

const PROGRAMS: &[&str] = &[
    SEVEN,
    PINNED,
    PASSED,
    REACHED_TWICE,
    TO_ITSELF,
    PEERS,
    KEPT,
    PING,
    NAMED,
    UNHEARD,
    MANY_LEAVES,
    WRAPS,
    TWO_PRINT,
    VALUES,
    OPENED,
    HALVES,
];

#[test]
fn both_machines_agree(rt: HostRuntime) -> Result<(), Fail> {
    for (i, text) in PROGRAMS.iter().enumerate() {
        assert!(rt; agree(rt.alloc(), *text, 256)?, "at {i}");
        assert!(rt; agree(rt.alloc(), *text, 2)?, "at {i}");
    }
    Ok(())
}

// By roots the object stays that the other actor holds, and with it that actor, which its row names.
#[test]
fn what_others_hold_stays_by_roots(rt: HostRuntime) -> Result<(), Fail> {
    let surplus = surplus_of(rt.alloc(), NAMED, 256, Trace::Roots)?;
    assert_eq!(rt; surplus, Some(2));
    Ok(())
}

/// How many programs are drawn.
const DRAWN: u64 = 300;

/// Whether the machines agree over the program that this number determines.
fn agree_at(alloc: Global, number: u64) -> Result<bool, Fail> {
    let text = program(alloc, &mut Lot(number))?;
    agree(alloc, text.as_str(), if number % 2 == 0 { 256 } else { 2 })
}

#[test]
fn both_machines_agree_over_what_is_drawn(rt: HostRuntime) -> Result<(), Fail> {
    for number in 0..DRAWN {
        assert!(rt; agree_at(rt.alloc(), number)?, "of program {number}");
    }
    Ok(())
}
