// Where one edge leads.

ghost use Rattle.std.specs.Prelude.{◌≡◌, ◌↔◌, [], true, option_and_then, slice_get};
ghost use Rattle.orca_core.specs.Machine.{NoneIsAway};
ghost use Rattle.why_path.specs.Edges.{LeadsBy, args_of};
ghost use Rattle.why_path.specs.Ends.{end_at_row, end_at_seat, end_of, named_at};
ghost use Rattle.why_path.specs.Seats.{as_seat};

use crate::seats::{Seated, seat_of};
use crate::values::{args_of, registers_of, row_left};
use mail_rows::MailRow;
use orca_core::Orca;
use orca_names::{ActorName, Edge, Thing, Value};

// The thing that the value at a place names.
fn named_at(values: &[Value], i: u8) -> Option<Thing>
    ensures { result ≡ named_at values.now i }
{
    values.get(usize::from(i))?.thing()
}

// The thing that an argument of a letter names.
fn argument_at(mail: &MailRow, letter: u64, i: u8) -> Option<Thing>
    ensures { result ≡ option_and_then (λ l. named_at (args_of l) i) (slice_get mail.now.letters letter) }
{
    if letter < mail.len() {
        named_at(args_of(mail.at(letter)), i)
    } else {
        None
    }
}

// Where the edge leads from an actor.
fn end_at_seat(seat: &Seated<'_>, edge: &Edge) -> Option<Thing>
    ensures { result ≡ end_at_seat edge.now (as_seat seat.now) }
{
    match edge {
        Edge::Field(i) => named_at(seat.cell.fields.values.as_slice(), *i),
        Edge::Register(i) => named_at(registers_of(seat), *i),
        Edge::Letter { letter, argument } => argument_at(seat.mail, *letter, *argument),
        Edge::Place(_) => None,
        Edge::Owner => None,
    }
}

// Where the edge leads from an object with this row.
fn end_at_row(owner: ActorName, row: &[Value], edge: &Edge) -> Option<Thing>
    ensures { result ≡ end_at_row edge.now owner row.now }
{
    match edge {
        Edge::Field(_) => None,
        Edge::Register(_) => None,
        Edge::Letter {
            letter: _,
            argument: _,
        } => None,
        Edge::Place(i) => named_at(row, *i),
        Edge::Owner => Some(Thing::Actor(owner)),
    }
}

// Where the edge leads from a thing, if it leads anywhere.
fn end_of(orca: &Orca<'_>, from: &Thing, edge: &Edge) -> Option<Thing>
    requires home { NoneIsAway orca.now }
    requires none { orca.now.blocks ≡ [] }
    ensures { result ≡ end_of orca.now.state.actors from.now edge.now }
{
    match from {
        Thing::Actor(a) => end_at_seat(&seat_of(orca, *a)?, edge),
        Thing::Obj(n) => end_at_row(n.owner, row_left(orca, *n), edge),
    }
}

/// Whether the edge leads from one thing to the other.
pub(crate) fn leads_by(orca: &Orca<'_>, from: &Thing, edge: &Edge, to: &Thing) -> bool
    requires home { NoneIsAway orca.now }
    requires none { orca.now.blocks ≡ [] }
    ensures { result ≡ true ↔ LeadsBy orca.now.state.actors from.now edge.now to.now }
{
    match end_of(orca, from, edge) {
        Some(end) => end.cmp(to).is_eq(),
        None => false,
    }
}
