// Block: an actor with nothing to do reports.

ghost use Rattle.event_rule.specs.declared.event.Event.TheVariants.{Block as block_event};
ghost use Rattle.orca_parts.specs.Fits.{FitsBlock};
ghost use Rattle.orca_parts.specs.Ready.{Applies, Prepares};

use crate::fault::StepFault;
use crate::insides::Core;
use actor_table::Block;
use event_rule::Event;
use orca_names::ActorName;
use std::alloc::Global;

/// The report that the actor makes, and the memory for it. Nothing changes.
///
/// # Errors
/// `NotEnabled` exactly where the actor may not report, or its cell is away. `NoMemory` where memory
/// was refused.
#[tactic(auto, using(crate::proofs::Preparing::no_memory, crate::proofs::Preparing::not_lent, crate::proofs::Preparing::only_room))]
pub(crate) fn prepare_block(alloc: Global, m: &mut Core<'_>, a: ActorName) -> Result<(), StepFault>
    ensures { Prepares (block_event a) m.old m.new result }
{
    let Some(cell) = m.parts.table.acting(a, &Event::Block(a)) else {
        return Err(StepFault::NotEnabled);
    };
    let note = cell.report(alloc)?;
    m.parts.notes.reserve(1)?;
    m.parts.report = Some(note);
    Ok(())
}

/// The actor reports what was prepared. It takes no memory, and wakes nobody.
pub(crate) fn apply_block(m: &mut Core<'_>, a: ActorName) -> Option<ActorName>
    requires { FitsBlock a m.old.parts }
    ensures { Applies (block_event a) m.old m.new result }
{
    m.stands = false;
    let Some(note) = m.parts.report.take() else {
        unreachable!();
    };
    m.parts.table.change(m.code, a, &Block);
    m.parts.notes.push_back_reserved(note);
    None
}
