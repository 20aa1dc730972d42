// Events of all kinds, prepared and done.

ghost use Rattle.std.specs.Prelude.{◌≡◌, ◌≤◌, true, OnOk};
ghost use Rattle.letter_kinds.specs.Telling.{HoldsTold, Told};
ghost use Rattle.row_store.specs.Words.{SameWords};
ghost use Rattle.row_blocks.specs.Blocks.{MayPutFree};
ghost use Rattle.orca_parts.specs.Blocks.{AreKept, BlocksFit};
ghost use Rattle.actor_table.specs.Telling.{TableTells};
ghost use Rattle.orca_parts.specs.Core.{HasFound, HoldsFound, StandsWell};
ghost use Rattle.orca_parts.specs.Ready.{Applies, FitsEvent, Lies, Prepares, told_first};
ghost use Rattle.orca_parts.specs.Steps.{CanStep, ReapsAtHome};

use crate::blocks::{apply_block, prepare_block};
use crate::collects::{apply_collect, prepare_collect};
use crate::fault::StepFault;
use crate::goes::{apply_go, prepare_go};
use crate::hears::{apply_hear, prepare_hear};
use crate::insides::Core;
use crate::leaves::{apply_leave, prepare_leave};
use crate::reaps::{apply_reap, prepare_reap};
use crate::scans::{apply_scan, prepare_scan};
use crate::takes::{apply_take, prepare_take};
use event_rule::Event;
use orca_names::ActorName;
use row_store::RowWords;
use std::alloc::Global;

/// Finds what the event does, and takes all memory for it. Nothing changes but room. Where what was found
/// last stands and awaits a letter, it serves again; where what the event's actor does is `known`, it
/// stands there already, and nothing is evaluated.
///
/// # Errors
/// `NotEnabled` exactly where the event is not enabled, or is one of an actor whose cell is away;
/// `ActorsFull` exactly where it would make an actor too many; `NoRows` exactly where, but for that, there
/// are blocks and it would make more rows than are free; `NoMemory` where memory was refused.
#[inline(always)]
pub fn prepare<W: RowWords>(
    alloc: Global,
    m: &mut Core<'_>,
    e: &Event,
    known: bool,
    words: &mut W,
) -> Result<(), StepFault>
    requires can { CanStep m.old.options m.old.code.now m.old.parts e.now }
    requires home { ReapsAtHome e.now m.old.parts }
    requires known { known ≡ true → HasFound e.now m.old }
    requires holds { known ≡ true → HoldsFound (W.known words.old) e.now m.old }
    requires stands { StandsWell m.old }
    requires kept { AreKept m.old.parts.blocks (TableTells m.old.parts.table.slots) }
    requires hold { HoldsTold (W.known words.old) (TableTells m.old.parts.table.slots) }
    ensures prepares { Prepares e.now m.old m.new result }
    ensures words { SameWords W.known W.places W.beside words.old words.new }
    ensures hold { OnOk result (HoldsTold (W.known words.new) (Told (told_first e.now m.new.parts))) }
{
    // Most events are goes: by itself, a go's answer costs a few instructions less.
    if let Event::Go(actor) = *e {
        return prepare_go(alloc, m, known, actor, words);
    }
    match *e {
        Event::Go(_) => unreachable!(),
        Event::Take(actor) => prepare_take(m, actor),
        Event::Collect(actor) => prepare_collect(alloc, m, known, actor, words),
        Event::Leave(actor) => prepare_leave(alloc, m, actor),
        Event::Block(actor) => prepare_block(alloc, m, actor),
        Event::Hear => prepare_hear(m),
        Event::Scan => prepare_scan(alloc, m),
        Event::Reap(token) => prepare_reap(alloc, m, token.get()),
    }
}

/// The event that was prepared is done, and the lowest actor that it wakes is told. The rows that a turn
/// makes are put into blocks, where there are blocks. It takes no memory.
#[inline(always)]
pub fn apply<W: RowWords>(
    alloc: Global,
    m: &mut Core<'_>,
    e: Event,
    words: &mut W,
) -> Option<ActorName>
    requires light { m.old.options.weight ≤ 65536 }
    requires fits { FitsEvent m.old.options m.old.code.now e m.old.parts }
    requires can { CanStep m.old.options m.old.code.now m.old.parts e }
    requires blocks { BlocksFit m.old.options.trace m.old.parts.blocks m.old.parts.table.slots }
    requires hold { HoldsTold (W.known words.old) (TableTells m.old.parts.table.slots) }
    requires found { HoldsTold (W.known words.old) (Told (told_first e m.old.parts)) }
    requires put { MayPutFree m.old.parts.blocks (W.places words.old) }
    ensures applies { Applies e m.old m.new result }
    ensures lies { Lies (W.known words.new) e m.old m.new }
    ensures places { W.places words.new ≡ W.places words.old }
    ensures beside { W.beside words.new ≡ W.beside words.old }
{
    match e {
        Event::Take(actor) => apply_take(m, actor),
        Event::Go(actor) => apply_go(alloc, m, actor, words),
        Event::Collect(actor) => apply_collect(alloc, m, actor),
        Event::Leave(actor) => apply_leave(alloc, m, actor),
        Event::Block(actor) => apply_block(m, actor),
        Event::Hear => apply_hear(m),
        Event::Scan => apply_scan(m),
        Event::Reap(token) => apply_reap(alloc, m, token.get()),
    }
}
