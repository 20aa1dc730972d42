// What each actor holds, and what waits for it.

ghost use Rattle.std.specs.Prelude.{◌≡◌, map};
ghost use Rattle.std.specs.List.{All};
ghost use Rattle.machine_rules.specs.Actors.{mail_at, seat_at};
ghost use Rattle.machine_rules.specs.Balance.{held_at};
ghost use Rattle.orca_core.specs.Machine.{NoneIsAway};
ghost use Rattle.count_ledger.specs.Lines.{Fits, HasRoom, HasRoomForMail, Rise, raised_by, with_mail, with_seat};
ghost use Rattle.count_ledger.specs.declared.lines.Column.TheVariants.{Held};

use crate::held::add_held;
use crate::letters::add_mail;
use orca_core::Orca;
use orca_names::{ActorName, Sums};

// What the actor of this number holds, if it is present.
fn add_held_of(sums: &mut [Sums], orca: &Orca<'_>, a: ActorName)
    requires home { NoneIsAway orca.now }
    requires rising { Rise sums.old }
    requires room { HasRoom Held (λ x. held_at x (seat_at orca.now.state.actors a)) sums.old }
    ensures { let seat = seat_at orca.now.state.actors a in
        sums.new ≡ map (raised_by Held (λ x. held_at x seat)) sums.old }
{
    if let Some(cell) = orca.cell(a) {
        add_held(sums, &cell.foreign);
    }
}

// What the letters say that wait for the actor of this number, if it is present.
fn add_mail_of(sums: &mut [Sums], orca: &Orca<'_>, a: ActorName)
    requires rising { Rise sums.old }
    requires room { HasRoomForMail a (mail_at orca.now.state.actors a) sums.old }
    ensures { sums.new ≡ map (with_mail a (mail_at orca.now.state.actors a)) sums.old }
{
    if let Some(mail) = orca.mail(a) {
        add_mail(sums, a, mail);
    }
}

/// What the actor of this number holds, and what waits for it.
pub(crate) fn add_actor(sums: &mut [Sums], orca: &Orca<'_>, a: ActorName)
    requires home { NoneIsAway orca.now }
    requires rising { Rise sums.old }
    requires room { All (λ s. Fits (with_seat a (seat_at orca.now.state.actors a) s)) sums.old }
    ensures { sums.new ≡ map (with_seat a (seat_at orca.now.state.actors a)) sums.old }
{
    add_held_of(sums, orca, a);
    add_mail_of(sums, orca, a);
}
