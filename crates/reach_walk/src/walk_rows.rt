// The walk through rows, whose steps are counted.

ghost use Rattle.std.specs.Prelude.{◌≡◌, ◌+◌, ◌*◌, ◌<◌, ◌≤◌, [], Some, OnOk, length, slice_get};
ghost use Rattle.orca_names.specs.declared.names.Thing.{Thing as thing};
ghost use Rattle.reach_walk.specs.Reach.{named_by, row_edges, AreReached};
ghost use Rattle.reach_walk.specs.Walk.{next_of, Adds, IsSeen};

use crate::look::look_all;
use crate::reading::read_row;
use crate::seen::Seen;
use orca_names::{NoMemory, Row, RowReader, Value};
use std::marker::Brand;
use std::sync::ledger::{Blank, Ledger};
use step_count::Steps;

// One thing is taken from those that were seen, which is a step: its owner is seen, and each value
// of its row is looked at.
fn take<R: RowReader, L: Ledger>(
    rows: &mut R,
    seen: &mut Seen,
    i: usize,
    row: &mut Row,
    steps: &mut Steps<L>,
) -> Result<(), NoMemory>
    requires seen { IsSeen seen.old }
    requires inside { i < length seen.old.things }
    ensures adds { (t : thing) → slice_get seen.old.things i ≡ Some t → OnOk result
        (Adds (next_of (row_edges (R.rows rows.old)) t) seen.old.things
        seen.new.things) }
    ensures seen { OnOk result (IsSeen seen.new) }
    ensures steps { (t : thing) → slice_get seen.old.things i ≡ Some t → OnOk result
        (steps.new ≡ steps.old + 1 + length (row_edges (R.rows rows.old) t)) }
    ensures few { (t : thing) → slice_get seen.old.things i ≡ Some t → OnOk result
        (length (row_edges (R.rows rows.old) t) ≤ 8) }
    ensures rows { (R.rows rows.new ≡ R.rows rows.old) × (R.all rows.new ≡ R.all rows.old)
        × (R.beside rows.new ≡ R.beside rows.old) }
{
    steps.tick();
    let thing = seen.things.at(i);
    seen.see_owner(thing.owner())?;
    if read_row(rows, &thing, row) {
        look_all(seen, row.as_slice(), steps)
    } else {
        Ok(())
    }
}

/// Sees all that the values reach, where nothing was seen yet.
pub(crate) fn walk_rows<R: RowReader, L: Ledger>(
    rows: &mut R,
    seen: &mut Seen,
    roots: &[Value],
    steps: &mut Steps<L>,
) -> Result<(), NoMemory>
    requires none { seen.old.things ≡ [] }
    requires seen { IsSeen seen.old }
    ensures seen { OnOk result (IsSeen seen.new) }
    ensures reached { OnOk result
        (AreReached (row_edges (R.rows rows.old)) (named_by roots.now) seen.new.things) }
    ensures steps { OnOk result
        (steps.new ≤ steps.old + (9 * length seen.new.things + length roots.now)) }
    ensures rows { (R.rows rows.new ≡ R.rows rows.old) × (R.all rows.new ≡ R.all rows.old)
        × (R.beside rows.new ≡ R.beside rows.old) }
{
    let mut row = Row::of(&[Value::Null]);
    look_all(seen, roots, steps)?;
    let mut i = 0;
    while i < seen.things.len() {
        take(rows, seen, i, &mut row, steps)?;
        i += 1;
    }
    Ok(())
}

// The same, with steps that are counted on a ledger of their own.
fn walk_counted<R: RowReader, L: Ledger>(
    rows: &mut R,
    seen: &mut Seen,
    roots: &[Value],
    blank: Blank,
) -> Result<(), NoMemory>
    requires name { blank.name ≡ L.name }
    requires parts { blank.parts ≡ L.parts }
    requires some { 0 < blank.parts }
    requires none { seen.old.things ≡ [] }
    requires seen { IsSeen seen.old }
    ensures seen { OnOk result (IsSeen seen.new) }
    ensures reached { OnOk result
        (AreReached (row_edges (R.rows rows.old)) (named_by roots.now) seen.new.things) }
    ensures rows { (R.rows rows.new ≡ R.rows rows.old) × (R.all rows.new ≡ R.all rows.old)
        × (R.beside rows.new ≡ R.beside rows.old) }
{
    let mut steps: Steps<L> = Steps::none(blank);
    walk_rows(rows, seen, roots, &mut steps)
}

/// Sees all that the values reach, where nothing was seen yet; the steps are not told.
pub(crate) fn walk_freely<R: RowReader>(
    rows: &mut R,
    seen: &mut Seen,
    roots: &[Value],
) -> Result<(), NoMemory>
    requires none { seen.old.things ≡ [] }
    requires seen { IsSeen seen.old }
    ensures seen { OnOk result (IsSeen seen.new) }
    ensures reached { OnOk result
        (AreReached (row_edges (R.rows rows.old)) (named_by roots.now) seen.new.things) }
    ensures rows { (R.rows rows.new ≡ R.rows rows.old) × (R.all rows.new ≡ R.all rows.old)
        × (R.beside rows.new ≡ R.beside rows.old) }
{
    walk_counted::<R, Brand>(rows, seen, roots, Blank::new(1))
}
