// What there is to do.

ghost use Rattle.std.specs.Prelude.{◌≡◌};
ghost use Rattle.event_rule.specs.Events.{is_of_detector};
ghost use Rattle.orca_core.specs.Firsts.{is_free, next_of_kind};
ghost use Rattle.hall_rules.specs.Answers.{Finds};

use orca_core::{Orca, SetAside};
use work_board::Look;

/// What there is to do where no stop was asked, and no claim is out exactly if it is `idle`: the first actor,
/// in the one-worker order, that has an event and is not set aside; else the detector's first event; else
/// others are at work, if a claim is out, or nothing is left to do.
pub fn look<S: SetAside>(orca: &Orca<'_>, aside: &S, idle: bool) -> Look
    ensures { let out = orca.now.out in
        Finds (next_of_kind (is_free (S.is_aside aside.now)) out) (next_of_kind is_of_detector out)
        orca.now.state idle result }
{
    if let Some(a) = orca.first_free(aside) {
        return Look::Actor(a);
    }
    if let Some(e) = orca.first_of_detector() {
        return Look::Detector(e);
    }
    if idle { Look::Rest } else { Look::Others }
}
