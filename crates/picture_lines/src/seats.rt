// The lines of an actor.

ghost use Rattle.std.specs.Prelude.{◌≡◌, ◌++◌, OnOk, string_bytes};
ghost use Rattle.letter_kinds.specs.Telling.{TellsNothing, ToldByOne};
ghost use Rattle.actor_cell.specs.Cells.{as_cell};
ghost use Rattle.actor_cell.specs.Tells.{Tells};
ghost use Rattle.behaviour_text.specs.Text.{line_of};
ghost use Rattle.machine_rules.specs.Actors.{seat};
ghost use Rattle.picture_rules.specs.Words.{text_of_lines};
ghost use Rattle.picture_rules.specs.Seats.{actor_line, cell_lines, fields_lines, seat_lines, turn_lines};

use crate::letters::push_mail;
use crate::tables::{push_holds, push_known, push_objects};
use crate::words::{end_with_values, push_bit};
use actor_cell::Cell;
use behaviour_code::Names;
use mail_rows::MailRow;
use orca_names::{ActorName, Value};
use std::alloc::AllocError;
use turn_rules::BoxedFrame;

/// The line of an actor's number, kind and counts.
fn push_actor(out: &mut String, actor: ActorName, cell: &Cell) -> Result<(), AllocError>
    ensures { OnOk result (string_bytes out.new
        ≡ string_bytes out.old ++ line_of (actor_line actor (as_cell cell.now))) }
{
    write!(out, "actor {} {}", actor.0, cell.kind)?;
    push_bit(out, cell.fields.pinned)?;
    push_bit(out, cell.dirty)?;
    push_bit(out, cell.reported)?;
    write!(out, " {} {}\n", cell.count.get(), cell.heap.made())
}

/// The line of where it stands, if it is in a behaviour.
fn push_turn(out: &mut String, room: &BoxedFrame) -> Result<(), AllocError>
    ensures { OnOk result (string_bytes out.new
        ≡ string_bytes out.old ++ text_of_lines (turn_lines room.now)) }
{
    match room.get() {
        Some(frame) => {
            write!(out, "turn {} {}", frame.behaviour, frame.place)?;
            end_with_values(out, frame.registers.as_slice())
        }
        None => Ok(()),
    }
}

/// The line of its fields, if it has any.
fn push_fields(out: &mut String, values: &[Value]) -> Result<(), AllocError>
    ensures { OnOk result (string_bytes out.new
        ≡ string_bytes out.old ++ text_of_lines (fields_lines values.now)) }
{
    if values.is_empty() {
        return Ok(());
    }
    out.push_str("fields")?;
    end_with_values(out, values)
}

/// The lines of a cell.
fn push_cell(out: &mut String, actor: ActorName, cell: &Cell) -> Result<(), AllocError>
    requires { TellsNothing (Tells cell.now) }
    ensures { OnOk result (string_bytes out.new
        ≡ string_bytes out.old ++ text_of_lines (cell_lines actor (as_cell cell.now))) }
{
    cell.untold_are_here();
    push_actor(out, actor, cell)?;
    push_turn(out, &cell.frame)?;
    push_fields(out, cell.fields.values.as_slice())?;
    push_objects(out, &cell.heap)?;
    push_holds(out, &cell.foreign)?;
    push_known(out, &cell.known)
}

/// The lines of an actor that is present, with the letters that wait for it; behaviours have their
/// names among these. No row of any of them lies in a block.
///
/// # Errors
/// `AllocError` where memory was refused.
pub fn push_seat(
    out: &mut String,
    names: &Names,
    actor: ActorName,
    cell: &Cell,
    mail: &MailRow,
) -> Result<(), AllocError>
    requires cell { TellsNothing (Tells cell.now) }
    requires mail { TellsNothing (ToldByOne mail.now.brought) }
    ensures { OnOk result (string_bytes out.new ≡ string_bytes out.old
        ++ text_of_lines (seat_lines names.now actor (seat (as_cell cell.now) mail.now.letters))) }
{
    push_cell(out, actor, cell)?;
    push_mail(out, names, mail)
}
