// Values are looked at, one step each.

ghost use Rattle.std.specs.Prelude.{◌≡◌, ◌+◌, ◌∷◌, [], OnOk, length};
ghost use Rattle.reach_walk.specs.Reach.{named_by};
ghost use Rattle.reach_walk.specs.Walk.{Adds, IsSeen};

use crate::seen::Seen;
use orca_names::{NoMemory, Value};
use std::sync::ledger::Ledger;
use step_count::Steps;

// One value is looked at, which is a step.
fn look<L: Ledger>(seen: &mut Seen, value: &Value, steps: &mut Steps<L>) -> Result<(), NoMemory>
    requires { IsSeen seen.old }
    ensures adds { OnOk result
        (Adds (named_by (value.now ∷ [])) seen.old.things seen.new.things) }
    ensures seen { OnOk result (IsSeen seen.new) }
    ensures step { steps.new ≡ steps.old + 1 }
{
    steps.tick();
    match value.thing() {
        Some(thing) => seen.see(&thing),
        None => Ok(()),
    }
}

/// Each value is looked at.
pub(crate) fn look_all<L: Ledger>(
    seen: &mut Seen,
    values: &[Value],
    steps: &mut Steps<L>,
) -> Result<(), NoMemory>
    requires { IsSeen seen.old }
    ensures adds { OnOk result
        (Adds (named_by values.now) seen.old.things seen.new.things) }
    ensures seen { OnOk result (IsSeen seen.new) }
    ensures steps { OnOk result (steps.new ≡ steps.old + length values.now) }
{
    for value in values {
        look(seen, value, steps)?;
    }
    Ok(())
}
