// Hear: the detector takes the first of its notes.

ghost use Rattle.std.specs.Prelude.{◌≡◌};
ghost use Rattle.event_rule.specs.declared.event.Event.TheVariants.{Hear as hear_event};
ghost use Rattle.orca_parts.specs.Fits.{CanHearFirst};
ghost use Rattle.orca_parts.specs.Ready.{Applies, Prepares};

use crate::fault::StepFault;
use crate::insides::Core;
use orca_names::ActorName;

/// Takes the memory to hear the first of the notes. Nothing changes but room.
///
/// # Errors
/// `NotEnabled` exactly where there is no note, and `NoMemory` where memory was refused.
pub(crate) fn prepare_hear(m: &mut Core<'_>) -> Result<(), StepFault>
    ensures { Prepares hear_event m.old m.new result }
{
    let Some(note) = m.parts.notes.front() else {
        return Err(StepFault::NotEnabled);
    };
    m.parts.detector.prepare_hear(note)?;
    Ok(())
}

/// The detector takes the first of its notes. It takes no memory, and wakes nobody.
pub(crate) fn apply_hear(m: &mut Core<'_>) -> Option<ActorName>
    requires { CanHearFirst m.old.parts.notes.items m.old.parts.detector }
    ensures applies { Applies hear_event m.old m.new result }
    ensures table { m.new.parts.table ≡ m.old.parts.table }
{
    m.stands = false;
    if let Some(note) = m.parts.notes.pop_front() {
        m.parts.detector.hear_prepared(note);
    }
    None
}
