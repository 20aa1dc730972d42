// An actor that is present.

ghost use Rattle.std.specs.Prelude.{◌≡◌, option_map, IfSome};
ghost use Rattle.machine_rules.specs.Actors.{seat_at};
ghost use Rattle.actor_cell.specs.Tells.{Tells};
ghost use Rattle.orca_parts.specs.Blocks.{AreKept};
ghost use Rattle.orca_core.specs.Machine.{NoneIsAway};
ghost use Rattle.why_path.specs.Seats.{as_seat};

use actor_cell::Cell;
use mail_rows::MailRow;
use orca_core::Orca;
use orca_names::ActorName;

/// What an actor keeps, and the letters that wait for it.
#[derive(Clone, Copy)]
pub(crate) struct Seated<'a> {
    pub cell: &'a Cell,
    pub mail: &'a MailRow,
}

/// The actor of this number; `None` exactly where it is not present.
pub(crate) fn seat_of<'a>(orca: &'a Orca<'_>, a: ActorName) -> Option<Seated<'a>>
    requires { NoneIsAway orca.now }
    ensures seat { option_map as_seat result ≡ seat_at orca.now.state.actors a }
    ensures owner { IfSome result (λ seat. seat.cell.now.heap.owner ≡ a) }
    ensures blocks { IfSome result (λ seat. AreKept orca.now.blocks (Tells seat.cell.now)) }
{
    let cell = orca.cell(a)?;
    let mail = orca.mail(a)?;
    Some(Seated { cell, mail })
}
