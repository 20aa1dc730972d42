// What an event that was prepared touches.

ghost use Rattle.std.specs.Prelude.{◌≡◌, ◌++◌, length, IfOk, OnOk};
ghost use Rattle.orca_parts.specs.Touched.{first_teller, first_told, reached_by, receivers, teller, told_token, touched_of, touched_token};
ghost use Rattle.actor_cell.specs.Moves.{act_in};

use crate::parts::Parts;
use actor_cell::{Doing, Turned};
use actor_table::ActorTable;
use cycle_detect::Detector;
use event_rule::Event;
use letter_kinds::Note;
use orca_names::{ActorName, NoMemory};
use std::alloc::Global;
use std::collections::VecDeque;

// Whom the act that was found reaches: who gets a letter, or the actor that is made.
fn push_reached(
    names: &mut Vec<ActorName>,
    found: &Turned,
    table: &ActorTable,
) -> Result<(), NoMemory>
    ensures { OnOk result (names.new.items
        ≡ names.old.items ++ reached_by (act_in found.now) (length table.now.slots)) }
{
    match &found.doing {
        Doing::Post { to, behaviour: _ } => names.push(*to)?,
        Doing::Mint { owner } => names.push(*owner)?,
        Doing::New {
            kind: _,
            register: _,
        } => names.push(table.next_name())?,
        Doing::Print { value: _ } | Doing::End | Doing::Rest => {}
    }
    Ok(())
}

// To whom each of these goes.
fn push_receivers<T>(names: &mut Vec<ActorName>, outs: &[(ActorName, T)]) -> Result<(), NoMemory>
    ensures { OnOk result (names.new.items ≡ names.old.items ++ receivers outs.now) }
{
    for out in outs {
        names.push(out.0)?;
    }
    Ok(())
}

// The actor that a note tells of.
fn teller(note: &Note) -> ActorName
    ensures { result ≡ teller note.now }
{
    match note {
        Note::Block { actor, .. } => *actor,
        Note::Unblock { actor } => *actor,
        Note::Ack { actor, .. } => *actor,
    }
}

// The actor that the first of the notes tells of.
fn push_teller(names: &mut Vec<ActorName>, notes: &VecDeque<Note>) -> Result<(), NoMemory>
    ensures { OnOk result (names.new.items ≡ names.old.items ++ first_teller notes.now.items) }
{
    if let Some(note) = notes.front() {
        names.push(teller(note))?;
    }
    Ok(())
}

/// The actors whose seat or kept report the event, which was prepared, may change; some perhaps twice.
///
/// # Errors
/// `NoMemory` where memory was refused.
pub fn touched(alloc: Global, parts: &Parts, e: &Event) -> Result<Vec<ActorName>, NoMemory>
    ensures { IfOk result (λ names. names.items ≡ touched_of e.now parts.now) }
{
    let mut names = Vec::new(alloc);
    match *e {
        Event::Take(actor) => names.push(actor)?,
        Event::Go(actor) => {
            names.push(actor)?;
            push_reached(&mut names, &parts.turned, &parts.table)?;
        }
        Event::Collect(actor) => {
            names.push(actor)?;
            push_receivers(&mut names, parts.sweep.plan.back.as_slice())?;
        }
        Event::Leave(actor) => {
            names.push(actor)?;
            push_receivers(&mut names, parts.letters.as_slice())?;
        }
        Event::Block(actor) => names.push(actor)?,
        Event::Hear => push_teller(&mut names, &parts.notes)?,
        Event::Scan => {
            if let Some(token) = &parts.token {
                names.extend_from_slice(token.members())?;
            }
        }
        Event::Reap(_) => {
            names.extend_from_slice(parts.members.as_slice())?;
            push_receivers(&mut names, parts.letters.as_slice())?;
        }
    }
    Ok(names)
}

// The number of the open token that the note changes: a report changes none.
fn told_token(detector: &Detector, note: &Note) -> Option<u64>
    ensures { result ≡ told_token detector.now.state note.now }
{
    match note {
        Note::Block { .. } => None,
        Note::Unblock { actor } => match detector.token_of(*actor) {
            Some(token) => Some(token.number()),
            None => None,
        },
        Note::Ack { token, .. } => Some(*token),
    }
}

// That of the first of the notes.
fn first_told(detector: &Detector, notes: &VecDeque<Note>) -> Option<u64>
    ensures { result ≡ first_told detector.now.state notes.now.items }
{
    match notes.front() {
        Some(note) => told_token(detector, note),
        None => None,
    }
}

/// The number of the token that the event, which was prepared, may open, change or close.
pub fn touched_token(parts: &Parts, e: &Event) -> Option<u64>
    ensures { result ≡ touched_token e.now parts.now }
{
    match *e {
        Event::Hear => first_told(&parts.detector, &parts.notes),
        Event::Scan => match &parts.token {
            Some(token) => Some(token.number()),
            None => None,
        },
        Event::Reap(token) => Some(token.get()),
        _ => None,
    }
}
