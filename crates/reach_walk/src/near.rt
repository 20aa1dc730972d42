// The walk from objects that stand together: their rows mostly name others of these.

ghost use Rattle.std.specs.Prelude.{◌≡◌, ◌+◌, ◌≤◌, ◌∷◌, ◌++◌, [], Contains, List, OnOk, length};
ghost use Rattle.orca_names.specs.declared.names.Thing.{Thing as any_thing};
ghost use Rattle.orca_names.specs.declared.names.Thing.TheVariants.{Actor as actor};
ghost use Rattle.reach_walk.specs.Dense.{StandTogether};
ghost use Rattle.reach_walk.specs.Met.{Grows, HasMet, met_by};

use crate::dense::Dense;
use crate::met::Met;
use crate::places::PlacedRows;
use orca_names::{NoMemory, Value};
use std::sync::ledger::Ledger;
use step_count::Steps;

// Meets what a value names, wherever it stands. Out of line, so that the walk from objects that stand
// together stays short.
#[inline(never)]
fn meet_far<R: PlacedRows, L: Ledger>(
    rows: &R,
    met: &mut Met,
    value: &Value,
    steps: &mut Steps<L>,
) -> Result<(), NoMemory>
    requires room { R.count rows.now ≤ length met.old.noted.bits }
    ensures met { (things : List any_thing)
        → HasMet (R.place rows.now) (R.count rows.now) met.old things
        → OnOk result (HasMet (R.place rows.now) (R.count rows.now) met.new
        (things ++ met_by (value.now ∷ []))) }
    ensures queue { OnOk result (Grows met.old.queue.items met.new.queue.items) }
    ensures same { length met.new.noted.bits ≡ length met.old.noted.bits }
    ensures step { steps.new ≡ steps.old + 1 }
{
    met.meet(value, rows, steps)
}

// Meets what a value names, which may be one of the objects that stand together: their owner was met.
#[inline(always)]
fn meet_near<R: PlacedRows, L: Ledger>(
    rows: &R,
    dense: &Dense<'_>,
    met: &mut Met,
    value: &Value,
    steps: &mut Steps<L>,
) -> Result<(), NoMemory>
    requires together { StandTogether (R.place rows.now) (R.rows rows.now) (R.blocks rows.now)
        dense.now }
    requires room { R.count rows.now ≤ length met.old.noted.bits }
    ensures met { (things : List any_thing)
        → HasMet (R.place rows.now) (R.count rows.now) met.old things
        → Contains things (actor dense.now.owner)
        → OnOk result (HasMet (R.place rows.now) (R.count rows.now) met.new
        (things ++ met_by (value.now ∷ []))) }
    ensures queue { OnOk result (Grows met.old.queue.items met.new.queue.items) }
    ensures same { length met.new.noted.bits ≡ length met.old.noted.bits }
    ensures step { steps.new ≡ steps.old + 1 }
{
    match value {
        Value::Obj(n) => match dense.index_of(*n) {
            Some(i) => {
                steps.tick();
                met.meet_placed(*n, dense.base + i, rows)
            }
            None => meet_far(rows, met, value, steps),
        },
        Value::Actor(_) => meet_far(rows, met, value, steps),
        _ => {
            steps.tick();
            Ok(())
        }
    }
}

/// Meets what the row of one of the objects that stand together names, and the owners of that, by a
/// step for each value.
#[inline(always)]
pub(crate) fn meet_row<R: PlacedRows, L: Ledger>(
    rows: &R,
    dense: &Dense<'_>,
    met: &mut Met,
    values: &[Value],
    steps: &mut Steps<L>,
) -> Result<(), NoMemory>
    requires together { StandTogether (R.place rows.now) (R.rows rows.now) (R.blocks rows.now)
        dense.now }
    requires room { R.count rows.now ≤ length met.old.noted.bits }
    ensures met { (things : List any_thing)
        → HasMet (R.place rows.now) (R.count rows.now) met.old things
        → Contains things (actor dense.now.owner)
        → OnOk result (HasMet (R.place rows.now) (R.count rows.now) met.new
        (things ++ met_by values.now)) }
    ensures queue { OnOk result (Grows met.old.queue.items met.new.queue.items) }
    ensures same { length met.new.noted.bits ≡ length met.old.noted.bits }
    ensures steps { OnOk result (steps.new ≡ steps.old + length values.now) }
{
    for value in values {
        meet_near(rows, dense, met, value, steps)?;
    }
    Ok(())
}
