// The lines of an entry.

ghost use Rattle.std.specs.Prelude.{◌≡◌, ◌++◌, ◌+◌, ◌-◌, ◌<◌, [], IfOk, OnOk, drop, length, map, string_bytes};
ghost use Rattle.orca_names.specs.declared.limits.TheConstants.{BOOK_LIMIT};
ghost use Rattle.event_rule.specs.Runs.{Goes};
ghost use Rattle.machine_rules.specs.Next.{next};
ghost use Rattle.machine_rules.specs.State.{State};
ghost use Rattle.orca_core.specs.Machine.{Fits, IsSame, NoneIsAway};
ghost use Rattle.picture_rules.specs.Blocked.{note_line};
ghost use Rattle.picture_rules.specs.Pictures.{entry_lines, heard, print_line};
ghost use Rattle.picture_rules.specs.Words.{text_of_lines};
ghost use Rattle.book_picture.specs.Entries.{IsAfterRun, LeadsOn, told_lines};
ghost use Rattle.book_picture.specs.Texts.{AreTexts, HaveTexts};

use crate::before::{Before, before_event};
use crate::changes::push_changes;
use crate::texts::texts_of;
use behaviour_code::Names;
use event_rule::Event;
use letter_kinds::Note;
use orca_core::{Orca, Ready, StepFault};
use orca_names::{NoMemory, Value};
use picture_lines::{push_entry, push_note, push_print};
use row_store::NoBlocks;
use std::alloc::{AllocError, Global};
use std::collections::VecDeque;

/// A line for each value from a place on.
fn push_prints(out: &mut String, values: &[Value], from: usize) -> Result<(), AllocError>
    ensures { OnOk result (string_bytes out.new
        ≡ string_bytes out.old ++ text_of_lines (map print_line (drop from values.now))) }
{
    for i in from..values.len() {
        push_print(out, &values[i])?;
    }
    Ok(())
}

/// A line for each note from a place on.
fn push_notes(out: &mut String, notes: &VecDeque<Note>, from: usize) -> Result<(), AllocError>
    ensures { OnOk result (string_bytes out.new
        ≡ string_bytes out.old ++ text_of_lines (map note_line (drop from notes.now.items))) }
{
    for i in from..notes.len() {
        push_note(out, &notes[i])?;
    }
    Ok(())
}

/// The lines of an entry, once its event is done.
fn push_after(
    alloc: Global,
    orca: &Orca<'_>,
    names: &Names,
    event: &Event,
    before: &Before,
    out: &mut String,
) -> Result<(), NoMemory>
    requires home { NoneIsAway orca.now }
    requires none { orca.now.blocks ≡ [] }
    requires texts { HaveTexts before.now.texts before.now.touched.actors.items }
    ensures { let b = before.now in let t = orca.now.state in (s : State)
        → AreTexts names.now s b.touched.actors.items b.touched.token b.texts
        → b.prints ≡ length s.prints → b.notes ≡ length s.notes - heard event.now
        → names.now ≡ t.program.names → OnOk result (string_bytes out.new ≡ string_bytes out.old
        ++ text_of_lines (told_lines b.touched.actors.items b.touched.token event.now s t)) }
{
    push_entry(out, event)?;
    push_prints(out, orca.prints(), before.prints)?;
    push_notes(out, orca.notes(), before.notes)?;
    let after = texts_of(alloc, orca, names, &before.touched)?;
    push_changes(out, &before.touched, &before.texts, &after)?;
    Ok(())
}

/// Prepares an event that leads on, so that want of memory is its one fault.
fn prepared(alloc: Global, orca: &mut Orca<'_>, event: Event) -> Result<Ready, NoMemory>
    requires early { orca.old.steps < BOOK_LIMIT }
    requires home { NoneIsAway orca.old }
    requires none { orca.old.blocks ≡ [] }
    requires goes { LeadsOn orca.old.state event }
    ensures same { IsSame orca.old orca.new }
    ensures event { IfOk result (λ ready. ready.event ≡ event) }
    ensures ok { IfOk result (λ ready. Fits ready orca.new) }
{
    match orca.prepare(alloc, event, &mut NoBlocks::default()) {
        Ok(ready) => Ok(ready),
        Err(StepFault::NoMemory) => Err(NoMemory),
        Err(StepFault::NotEnabled) => unreachable!(),
        Err(StepFault::ActorsFull { .. }) => unreachable!(),
        Err(StepFault::NoRows { .. }) => unreachable!(),
    }
}

/// Does an event that leads on, and writes the lines of its entry.
///
/// # Errors
/// `NoMemory` where memory was refused.
pub(crate) fn push_event(
    alloc: Global,
    orca: &mut Orca<'_>,
    names: &Names,
    event: Event,
    out: &mut String,
) -> Result<(), NoMemory>
    requires early { orca.old.steps < BOOK_LIMIT }
    requires home { NoneIsAway orca.old }
    requires none { orca.old.blocks ≡ [] }
    requires run { IsAfterRun orca.old.state }
    requires goes { LeadsOn orca.old.state event }
    requires names { names.now ≡ orca.old.state.program.names }
    ensures goes { OnOk result (next orca.old.state event ≡ Goes orca.new.state) }
    ensures steps { OnOk result (orca.new.steps ≡ orca.old.steps + 1) }
    ensures home { OnOk result (NoneIsAway orca.new) }
    ensures none { OnOk result (orca.new.blocks ≡ []) }
    ensures told { OnOk result (string_bytes out.new ≡ string_bytes out.old
        ++ text_of_lines (entry_lines event orca.old.state orca.new.state)) }
{
    orca.weight_is_above_zero();
    let ready = prepared(alloc, orca, event)?;
    let before = before_event(alloc, orca, names, &ready)?;
    orca.apply_ready(ready, &mut NoBlocks::default());
    push_after(alloc, orca, names, &event, &before, out)
}
