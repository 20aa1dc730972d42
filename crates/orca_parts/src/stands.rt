// What was found of an actor elsewhere, before its event came.

ghost use Rattle.std.specs.Prelude.{◌≡◌, ◌<◌, false, length};
ghost use Rattle.event_rule.specs.declared.event.Event.{Event as an_event};
ghost use Rattle.orca_parts.specs.Core.{HasFound, HoldsFound, KeepsCore};
ghost use Rattle.orca_parts.specs.Founds.{IsFoundFor};
ghost use Rattle.row_store.specs.Words.{Words};
ghost use Rattle.letter_kinds.specs.Telling.{HoldsTold, Told};
ghost use Rattle.actor_cell.specs.Tells.{told_found};

use crate::insides::Core;
use actor_cell::Found;
use std::mem::swap;

/// What was found of an actor elsewhere stands in the machine now: it is swapped with what was found
/// last, whose room serves again there.
pub fn stand(m: &mut Core<'_>, found: &mut Found)
    ensures same { KeepsCore m.old m.new }
    ensures known { (e : an_event)
        → IsFoundFor m.old.options m.old.code.now m.old.parts.blocks found.old e m.old.parts.table.slots
        → HasFound e m.new }
    ensures holds { (e : an_event) (known : Words)
        → IsFoundFor m.old.options m.old.code.now m.old.parts.blocks found.old e m.old.parts.table.slots
        → (0 < length m.old.parts.blocks → HoldsTold known (Told (told_found found.old)))
        → HoldsFound known e m.new }
    ensures stands { m.new.stands ≡ false }
{
    m.stands = false;
    match found {
        Found::Goes { turn, turned } => {
            swap(&mut m.parts.turn, turn);
            swap(&mut m.parts.turned, turned);
        }
        Found::Collects { sweep } => swap(&mut m.parts.sweep, sweep),
        Found::Nothing => {}
    }
}
