// Take: an idle actor takes the first of its letters.

ghost use Rattle.std.specs.Prelude.{◌≡◌, ◌<◌, ◌++◌, ◌∷◌, [], IsSome, ⊤};
ghost use Rattle.std.specs.Option.{option_map_or};
ghost use Rattle.std.specs.VecDeque.{deque_capacity, deque_len};
ghost use Rattle.event_rule.specs.declared.event.Event.TheVariants.{Take as take_event};
ghost use Rattle.machine_rules.specs.Actors.{seat_at};
ghost use Rattle.actor_table.specs.Changes.{CanTakeHere, HasCell, note_taken};
ghost use Rattle.actor_table.specs.Slots.{actors_of, slot_at};
ghost use Rattle.orca_parts.specs.Ready.{Applies, Prepares};

use crate::fault::StepFault;
use crate::insides::Core;
use actor_table::{ActorTable, Take};
use event_rule::Event;
use letter_kinds::Note;
use orca_names::ActorName;
use std::collections::VecDeque;

/// The memory for what the actor's first letter brings and for what is noted of it. Nothing changes.
///
/// # Errors
/// `NotEnabled` exactly where the actor may not take a letter, or its cell is away. `NoMemory` where
/// memory was refused.
#[tactic(auto, using(crate::proofs::Preparing::no_memory, crate::proofs::Preparing::not_lent, crate::proofs::Preparing::only_room))]
#[inline(always)]
pub(crate) fn prepare_take(m: &mut Core<'_>, a: ActorName) -> Result<(), StepFault>
    ensures { Prepares (take_event a) m.old m.new result }
{
    let Some(_cell) = m.parts.table.acting(a, &Event::Take(a)) else {
        return Err(StepFault::NotEnabled);
    };
    m.parts.table.reserve(a, &Take)?;
    m.parts.notes.reserve(1)?;
    Ok(())
}

// What the detector is to hear where the actor takes the first of its letters goes behind the notes.
#[inline(always)]
fn push_note(table: &ActorTable, notes: &mut VecDeque<Note>, a: ActorName)
    requires here { HasCell (slot_at table.now.slots a) (λ c. ⊤) }
    requires room { IsSome (note_taken a (seat_at (actors_of table.now.slots) a))
        → deque_len notes.old < deque_capacity notes.old }
    ensures { notes.new.items ≡ option_map_or (λ note. notes.old.items ++ note ∷ [])
        (note_taken a (seat_at (actors_of table.now.slots) a)) notes.old.items }
{
    if let Some(note) = table.note_on(a) {
        notes.push_back_reserved(note);
    }
}

/// The idle actor takes the first of its letters; the memory of its arguments serves again. It takes no
/// memory, and wakes nobody.
pub(crate) fn apply_take(m: &mut Core<'_>, a: ActorName) -> Option<ActorName>
    requires can { let x = slot_at m.old.parts.table.slots a in HasCell x (CanTakeHere a x.mail) }
    requires room { IsSome (note_taken a (seat_at (actors_of m.old.parts.table.slots) a))
        → deque_len m.old.parts.notes < deque_capacity m.old.parts.notes }
    ensures { Applies (take_event a) m.old m.new result }
{
    push_note(&m.parts.table, &mut m.parts.notes, a);
    let Some(letter) = m.parts.table.change(m.code, a, &Take) else {
        unreachable!();
    };
    m.parts.turned.keep_room(letter);
    None
}
