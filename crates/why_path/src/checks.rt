// Whether no edge leads from a thing to a loose one.

ghost use Rattle.std.specs.Prelude.{◌≡◌, ◌↔◌, [], true, All};
ghost use Rattle.orca_core.specs.Machine.{NoneIsAway};
ghost use Rattle.why_path.specs.Checks.{IsNotLoose, LeadsToNoneLoose};
ghost use Rattle.why_path.specs.Edges.{args_of};
ghost use Rattle.why_path.specs.Lines.{Rise};
ghost use Rattle.why_path.specs.Named.{NamesNoneLoose, SeatLeadsToNoneLoose};
ghost use Rattle.why_path.specs.Seats.{as_seat};

use crate::lines::line_of;
use crate::seats::{Seated, seat_of};
use crate::values::{args_of, registers_of, row_left};
use crate::walk::is_loose;
use mail_rows::MailRow;
use orca_core::Orca;
use orca_names::{Reason, Thing, Value};

// Whether no line says that the thing is loose.
fn is_not_loose(reasons: &[Reason], thing: &Thing) -> bool
    requires { Rise reasons.now }
    ensures { result ≡ true ↔ IsNotLoose reasons.now thing.now }
{
    match line_of(reasons, thing) {
        Some(line) => !is_loose(&line.why),
        None => true,
    }
}

// Whether the value names no loose thing.
fn names_none_loose(reasons: &[Reason], value: &Value) -> bool
    requires { Rise reasons.now }
    ensures { result ≡ true ↔ NamesNoneLoose reasons.now value.now }
{
    match value.thing() {
        Some(thing) => is_not_loose(reasons, &thing),
        None => true,
    }
}

// Whether these values name no loose thing.
fn name_none_loose(reasons: &[Reason], values: &[Value]) -> bool
    requires { Rise reasons.now }
    ensures { result ≡ true ↔ All (NamesNoneLoose reasons.now) values.now }
{
    for value in values {
        if !names_none_loose(reasons, value) {
            return false;
        }
    }
    true
}

// Whether the arguments of these letters name no loose thing.
fn letters_name_none_loose(reasons: &[Reason], mail: &MailRow) -> bool
    requires { Rise reasons.now }
    ensures { result ≡ true ↔ All (λ l. All (NamesNoneLoose reasons.now) (args_of l))
        mail.now.letters }
{
    for k in 0..mail.len() {
        if !name_none_loose(reasons, args_of(mail.at(k))) {
            return false;
        }
    }
    true
}

// Whether no edge leads from an actor to a loose thing.
fn seat_leads_to_none_loose(reasons: &[Reason], seat: &Seated<'_>) -> bool
    requires { Rise reasons.now }
    ensures { result ≡ true ↔ SeatLeadsToNoneLoose reasons.now (as_seat seat.now) }
{
    name_none_loose(reasons, seat.cell.fields.values.as_slice())
        && name_none_loose(reasons, registers_of(seat))
        && letters_name_none_loose(reasons, seat.mail)
}

/// Whether no edge leads from the thing to a loose one.
pub(crate) fn leads_to_none_loose(orca: &Orca<'_>, reasons: &[Reason], from: &Thing) -> bool
    requires home { NoneIsAway orca.now }
    requires none { orca.now.blocks ≡ [] }
    requires rising { Rise reasons.now }
    ensures { result ≡ true ↔ LeadsToNoneLoose orca.now.state.actors reasons.now from.now }
{
    match from {
        Thing::Actor(a) => match seat_of(orca, *a) {
            Some(seat) => seat_leads_to_none_loose(reasons, &seat),
            None => true,
        },
        Thing::Obj(n) => {
            name_none_loose(reasons, row_left(orca, *n))
                && is_not_loose(reasons, &Thing::Actor(n.owner))
        }
    }
}
