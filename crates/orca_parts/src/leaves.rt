// Leave: an actor that nobody holds goes by itself.

ghost use Rattle.event_rule.specs.declared.event.Event.TheVariants.{Leave as leave_event};
ghost use Rattle.orca_parts.specs.Blocks.{BlocksFit};
ghost use Rattle.orca_parts.specs.Fits.{FitsLeave};
ghost use Rattle.orca_parts.specs.Ready.{Applies, Prepares};

use crate::fault::StepFault;
use crate::insides::Core;
use crate::letters::{push_decs, reserve_all};
use crate::placing::give_back;
use event_rule::Event;
use orca_names::ActorName;
use std::alloc::Global;
use std::mem;

/// The letters by which the actor gives back what it held, and the memory for them. Nothing changes.
///
/// # Errors
/// `NotEnabled` exactly where the actor may not leave, or its cell is away. `NoMemory` where memory
/// was refused.
#[tactic(auto, using(crate::proofs::Preparing::no_memory, crate::proofs::Preparing::not_lent, crate::proofs::Preparing::only_room, crate::proofs::Preparing::still_lies))]
pub(crate) fn prepare_leave(alloc: Global, m: &mut Core<'_>, a: ActorName) -> Result<(), StepFault>
    ensures { Prepares (leave_event a) m.old m.new result }
{
    let Some(cell) = m.parts.table.acting(a, &Event::Leave(a)) else {
        return Err(StepFault::NotEnabled);
    };
    let gone = [a];
    let letters = cell.give_back(alloc, &gone)?;
    reserve_all(alloc, &mut m.parts.table, &letters)?;
    m.parts.letters = letters;
    Ok(())
}

/// The actor goes, and gives back what it held; the lowest to whom a letter goes is told. It takes no
/// memory.
pub(crate) fn apply_leave(alloc: Global, m: &mut Core<'_>, a: ActorName) -> Option<ActorName>
    requires fits { FitsLeave a m.old.parts.letters.items m.old.parts }
    requires blocks { BlocksFit m.old.options.trace m.old.parts.blocks m.old.parts.table.slots }
    ensures { Applies (leave_event a) m.old m.new result }
{
    m.stands = false;
    give_back(&mut m.parts.blocks, &m.parts.table, a);
    let letters = mem::replace(&mut m.parts.letters, Vec::new(alloc));
    m.parts.table.clear(alloc, a);
    push_decs(&mut m.parts.table, letters)
}
