// One actor by itself: it takes its first letter, goes on, collects, reports, and leaves.

ghost use Rattle.std.specs.Prelude.{◌≡◌, None};
ghost use Rattle.letter_kinds.specs.Telling.{TellsNothing};
ghost use Rattle.actor_cell.specs.Tells.{Tells};

use crate::going::{checked, collects, goes, goes_in, takes};
use actor_cell::{Cell, Out};
use behaviour_check::Checked;
use behaviour_code::Name;
use letter_kinds::{Letter, Load, Note, SentArgs};
use orca_names::Value;
use row_store::Told;
use std::alloc::Global;
use std::test::Fail;

/// It makes an object that nothing keeps, and prints a number.
const PRINTS: &str = "kind Main 1\non start 0\nint r0 7\nrow r1 r0\nprint r0\nend\n";

/// Whether an actor gives nothing out.
fn is_nothing(out: &Out) -> bool {
    out.letters.is_empty() && out.notes.is_empty()
}

/// The idle actor takes a letter for this behaviour, which loads nothing.
fn take(alloc: Global, code: &Checked, cell: &mut Cell, behaviour: Name) -> Result<(), Fail>
    requires idle { cell.old.frame ≡ None }
    requires told { TellsNothing (Tells cell.old) }
    ensures { TellsNothing (Tells cell.new) }
{
    let letter = Letter::App {
        behaviour,
        args: SentArgs::new(alloc)?,
        load: Load::new(alloc),
        rows: Load::new(alloc),
    };
    if is_nothing(&takes(alloc, code, cell, letter)?) {
        Ok(())
    } else {
        Err(Fail::from("something was given out"))
    }
}

/// What the actor prints as it goes on.
fn go(alloc: Global, code: &Checked, cell: &mut Cell) -> Result<Option<Value>, Fail>
    requires { TellsNothing (Tells cell.old) }
    ensures { TellsNothing (Tells cell.new) }
{
    Ok(goes(alloc, code, cell)?.print)
}

/// Whether it gives nothing back as it collects.
fn sweeps_alone(alloc: Global, cell: &mut Cell) -> Result<bool, Fail>
    requires { TellsNothing (Tells cell.old) }
{
    Ok(collects(alloc, cell)?.letters.is_empty())
}

/// Whether it reports that nobody holds it.
fn reports_no_count(alloc: Global, cell: &mut Cell) -> Result<bool, Fail> {
    let told = cell.block(alloc)?;
    Ok(matches!(told.notes.as_slice(), [Note::Block { count: 0, .. }]))
}

/// Whether it does all its events so, from its start to where it leaves.
fn does_its_events(alloc: Global, code: &Checked, cell: &mut Cell) -> Result<bool, Fail>
    requires idle { cell.old.frame ≡ None }
    requires told { TellsNothing (Tells cell.old) }
{
    let Some(start) = code.program().start_name() else {
        return Err(Fail::from("no start"));
    };
    take(alloc, code, cell, start)?;
    let printed = go(alloc, code, cell)? == Some(Value::Num(7)) && cell.heap.len() == 1;
    let ended = go(alloc, code, cell)?.is_none() && !cell.frame.is_some() && cell.dirty;
    let swept = sweeps_alone(alloc, cell)? && cell.heap.len() == 0 && !cell.dirty;
    let told = reports_no_count(alloc, cell)? && cell.reported;
    Ok(printed && ended && swept && told && cell.leave(alloc)?.letters.is_empty())
}

/// Whether the first actor of a program does so.
fn the_first_does(alloc: Global, text: &str) -> Result<bool, Fail> {
    let code = checked(alloc, text)?;
    let mut cell = Cell::first(alloc, &code);
    does_its_events(alloc, &code, &mut cell)
}

#[test]
fn an_actor_does_its_events_whole(rt: HostRuntime) -> Result<(), Fail> {
    assert!(rt; the_first_does(rt.alloc(), PRINTS)?);
    Ok(())
}

/// Whether the one object that its next turn makes lies in this block then.
fn makes_in(alloc: Global, code: &Checked, cell: &mut Cell, block: u32) -> Result<bool, Fail>
    requires { TellsNothing (Tells cell.old) }
{
    goes_in(alloc, code, cell, &[block])?;
    let objects = cell.heap.objects();
    Ok(objects.len() == 1 && objects[0].1 == Told::In(block))
}

/// Whether so it is with the first actor of a program.
fn the_first_makes_in(alloc: Global, text: &str, block: u32) -> Result<bool, Fail> {
    let code = checked(alloc, text)?;
    let mut cell = Cell::first(alloc, &code);
    let Some(start) = code.program().start_name() else {
        return Err(Fail::from("no start"));
    };
    take(alloc, &code, &mut cell, start)?;
    makes_in(alloc, &code, &mut cell, block)
}

#[test]
fn a_row_that_is_made_lies_in_its_block(rt: HostRuntime) -> Result<(), Fail> {
    assert!(rt; the_first_makes_in(rt.alloc(), PRINTS, 3)?);
    Ok(())
}

/// A kind whose first two behaviours print 1 and 2. Between their names stand 63 others, which the first
/// one sends.
fn far_apart(alloc: Global) -> Result<String, Fail> {
    let mut text = String::from_str(alloc, "kind Main 0\non one 0\nint r0 1\nprint r0\n")?;
    for number in 2..65u32 {
        text.push_str(format!(in alloc; "send r0 n{number}\n")?.as_str())?;
    }
    text.push_str("end\non two 0\nint r0 2\nprint r0\nend\non start 0\nend\n")?;
    Ok(text)
}

/// The first actor takes a letter for this behaviour, and goes on.
fn prints(
    alloc: Global,
    code: &Checked,
    cell: &mut Cell,
    behaviour: Name,
) -> Result<Option<Value>, Fail>
    requires idle { cell.old.frame ≡ None }
    requires told { TellsNothing (Tells cell.old) }
{
    take(alloc, code, cell, behaviour)?;
    go(alloc, code, cell)
}

/// What the first actor prints after a letter for this behaviour.
fn printed_after(alloc: Global, code: &Checked, behaviour: Name) -> Result<Option<Value>, Fail> {
    let mut cell = Cell::first(alloc, code);
    prints(alloc, code, &mut cell, behaviour)
}

/// The name of the behaviour at this place of the first kind, and what is printed after a letter for it.
fn printed_by(alloc: Global, code: &Checked, place: usize) -> Result<(u32, Option<Value>), Fail> {
    let Some(behaviour) = code.program().behaviours(0).get(place) else {
        return Err(Fail::from("no behaviour"));
    };
    Ok((
        behaviour.name.0,
        printed_after(alloc, code, behaviour.name)?,
    ))
}

/// Whether the two behaviours have these names, and each prints its number.
fn both_print(alloc: Global, code: &Checked) -> Result<bool, Fail> {
    let one = printed_by(alloc, code, 0)?;
    let two = printed_by(alloc, code, 1)?;
    Ok(one == (1, Some(Value::Num(1))) && two == (65, Some(Value::Num(2))))
}

fn checked_far_apart(alloc: Global) -> Result<Checked, Fail> {
    let text = far_apart(alloc)?;
    checked(alloc, text.as_str())
}

/// Whether a letter starts its behaviour where the two names share a place.
fn each_starts(alloc: Global) -> Result<bool, Fail> {
    let code = checked_far_apart(alloc)?;
    both_print(alloc, &code)
}

// A kind keeps the places of its behaviours by the lowest 6 bits of their names, and so one place for these
// two.
#[test]
fn the_behaviour_of_the_letter_starts(rt: HostRuntime) -> Result<(), Fail> {
    assert!(rt; each_starts(rt.alloc())?);
    Ok(())
}
