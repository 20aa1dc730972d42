// What makes an actor a root.

ghost use Rattle.std.specs.Prelude.{◌≡◌};
ghost use Rattle.std.specs.List.{list_any};
ghost use Rattle.letter_kinds.specs.Letters.{as_letter};
ghost use Rattle.orca_core.specs.Machine.{NoneIsAway};
ghost use Rattle.why_path.specs.Checks.{applies_to};
ghost use Rattle.why_path.specs.Reasons.{applies, cause_at, cause_of, is_app};
ghost use Rattle.why_path.specs.Seats.{as_seat};

use crate::seats::{Seated, seat_of};
use letter_kinds::Letter;
use mail_rows::MailRow;
use orca_core::Orca;
use orca_names::{Thing, Why};

fn is_app(letter: &Letter) -> bool
    ensures { result ≡ is_app (as_letter letter.now) }
{
    match letter {
        Letter::App {
            behaviour: _,
            args: _,
            load: _,
            rows: _,
        } => true,
        Letter::Inc { things: _ } => false,
        Letter::Dec { things: _ } => false,
        Letter::Confirm { token: _ } => false,
    }
}

// Whether an application letter waits.
fn has_app(mail: &MailRow) -> bool
    ensures { result ≡ list_any is_app mail.now.letters }
{
    for i in 0..mail.len() {
        if is_app(mail.at(i)) {
            return true;
        }
    }
    false
}

// Whether this makes the actor a root.
fn applies(seat: &Seated<'_>, why: &Why) -> bool
    ensures { result ≡ applies why.now (as_seat seat.now) }
{
    match why {
        Why::Pinned => seat.cell.fields.pinned,
        Why::Frame => seat.cell.frame.is_some(),
        Why::Letter => has_app(seat.mail),
        Why::By { parent: _, edge: _ } => false,
        Why::Loose => false,
    }
}

/// Whether this makes the thing a root.
#[tactic(auto, unfolding(crate::specs::Checks::applies_to))]
pub(crate) fn applies_to(orca: &Orca<'_>, thing: &Thing, why: &Why) -> bool
    requires { NoneIsAway orca.now }
    ensures { result ≡ applies_to orca.now.state.actors thing.now why.now }
{
    match thing {
        Thing::Actor(a) => match seat_of(orca, *a) {
            Some(seat) => applies(&seat, why),
            None => false,
        },
        Thing::Obj(_) => false,
    }
}

// The first that makes the actor a root, if it is one.
fn cause_at(seat: &Seated<'_>) -> Option<Why>
    ensures { result ≡ cause_at (as_seat seat.now) }
{
    if applies(seat, &Why::Pinned) {
        return Some(Why::Pinned);
    }
    if applies(seat, &Why::Frame) {
        return Some(Why::Frame);
    }
    if applies(seat, &Why::Letter) {
        return Some(Why::Letter);
    }
    None
}

/// The first that makes the thing a root, if it is one.
#[tactic(auto, unfolding(crate::specs::Reasons::cause_of))]
pub(crate) fn cause_of(orca: &Orca<'_>, thing: &Thing) -> Option<Why>
    requires { NoneIsAway orca.now }
    ensures { result ≡ cause_of orca.now.state.actors thing.now }
{
    match thing {
        Thing::Actor(a) => cause_at(&seat_of(orca, *a)?),
        Thing::Obj(_) => None,
    }
}
