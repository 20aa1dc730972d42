// Collect: an idle actor frees what its fields do not reach (Orca, OOPSLA 2017).

ghost use Rattle.std.specs.Prelude.{◌≡◌, true, IfErr, OnOk};
ghost use Rattle.event_rule.specs.declared.event.Event.TheVariants.{Collect as collect_event};
ghost use Rattle.letter_kinds.specs.Telling.{HoldsTold};
ghost use Rattle.row_store.specs.Words.{SameWords};
ghost use Rattle.actor_table.specs.Telling.{TableTells};
ghost use Rattle.actor_table.specs.Slots.{may_event, slot_at};
ghost use Rattle.actor_cell.specs.declared.cell.Cell.{Cell};
ghost use Rattle.actor_cell.specs.Sweeps.{KnowsOthersOnly, sweep_of};
ghost use Rattle.actor_table.specs.declared.slot.Place.TheVariants.{Home};
ghost use Rattle.orca_parts.specs.Faults.{RefusedBy};
ghost use Rattle.orca_parts.specs.Fits.{ActsAt, FitsCollect, IsKnownSweep};
ghost use Rattle.orca_parts.specs.Blocks.{BlocksFit};
ghost use Rattle.orca_parts.specs.Core.{HasFound};
ghost use Rattle.orca_parts.specs.Ready.{Applies, Prepares};

use crate::fault::StepFault;
use crate::insides::Core;
use crate::letters::{push_decs, reserve_each};
use crate::placing::give_back_some;
use actor_cell::Sweep;
use actor_table::{ActorTable, Collect};
use event_rule::Event;
use orca_names::{ActorName, Trace};
use plain_list::Listed;
use row_store::RowWords;
use std::alloc::Global;
use std::mem;

// What the actor's collection does, where it is not known.
fn find_collect<W: RowWords>(
    alloc: Global,
    trace: Trace,
    known: bool,
    table: &ActorTable,
    sweep: &mut Sweep,
    a: ActorName,
    words: &mut W,
) -> Result<(), StepFault>
    requires others { (c : Cell) → (slot_at table.now.slots a).place ≡ Home c → c.heap.owner ≡ a
        → KnowsOthersOnly c }
    requires hold { HoldsTold (W.known words.old) (TableTells table.now.slots) }
    requires known { known ≡ true → IsKnownSweep trace sweep.old (slot_at table.now.slots a) }
    ensures ok { OnOk result (ActsAt (collect_event a) (slot_at table.now.slots a)
        (λ c. (c.heap.owner ≡ a) × (sweep.new ≡ sweep_of trace c))) }
    ensures fault { IfErr result (RefusedBy (may_event (collect_event a) (slot_at table.now.slots a))) }
    ensures words { SameWords W.known W.places W.beside words.old words.new }
{
    let Some(cell) = table.acting(a, &Event::Collect(a)) else {
        return Err(StepFault::NotEnabled);
    };
    if known {
        return Ok(());
    }
    *sweep = cell.find_collect(alloc, trace, words)?;
    Ok(())
}

/// What the actor's collection does, where it is not known, and the memory for the letters that return
/// what it gives back. Nothing changes but room.
///
/// # Errors
/// `NotEnabled` exactly where the actor may not collect, or its cell is away. `NoMemory` where memory
/// was refused.
#[tactic(auto, using(crate::proofs::Preparing::no_memory, crate::proofs::Preparing::only_room, crate::proofs::Preparing::still_lies))]
pub(crate) fn prepare_collect<W: RowWords>(
    alloc: Global,
    m: &mut Core<'_>,
    known: bool,
    a: ActorName,
    words: &mut W,
) -> Result<(), StepFault>
    requires others { (c : Cell) → (slot_at m.old.parts.table.slots a).place ≡ Home c → c.heap.owner ≡ a
        → KnowsOthersOnly c }
    requires hold { HoldsTold (W.known words.old) (TableTells m.old.parts.table.slots) }
    requires known { known ≡ true → HasFound (collect_event a) m.old }
    ensures prepares { Prepares (collect_event a) m.old m.new result }
    ensures words { SameWords W.known W.places W.beside words.old words.new }
{
    let trace = m.options.trace;
    find_collect(
        alloc,
        trace,
        known,
        &m.parts.table,
        &mut m.parts.sweep,
        a,
        words,
    )?;
    reserve_each(&mut m.parts.table, m.parts.sweep.plan.back.as_slice())?;
    Ok(())
}

/// The actor's collection is done as it was found, and the lowest to whom a letter goes is told. It
/// takes no memory.
pub(crate) fn apply_collect(alloc: Global, m: &mut Core<'_>, a: ActorName) -> Option<ActorName>
    requires fits { FitsCollect m.old.options.trace a m.old.parts.sweep m.old.parts }
    requires blocks { BlocksFit m.old.options.trace m.old.parts.blocks m.old.parts.table.slots }
    ensures { Applies (collect_event a) m.old m.new result }
{
    m.stands = false;
    give_back_some(
        &mut m.parts.blocks,
        &m.parts.table,
        a,
        m.parts.sweep.plan.free.as_slice(),
    );
    let change = Collect {
        found: &m.parts.sweep,
        trace: m.options.trace,
    };
    m.parts.table.change(m.code, a, &change);
    let back = mem::replace(&mut m.parts.sweep.plan.back, Listed::new(alloc));
    push_decs(&mut m.parts.table, back.into_vec())
}
