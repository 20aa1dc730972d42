// Marks: what values reach through rows.

ghost use Rattle.std.specs.Prelude.{◌≡◌, ◌+◌, ◌*◌, ◌≤◌, IfOk, length};
ghost use Rattle.std.specs.List.Sorted.{IsStrictlySortedBy};
ghost use Rattle.orca_names.specs.Names.{thing_cmp};
ghost use Rattle.reach_walk.specs.Marks.{marks_of};
ghost use Rattle.reach_walk.specs.Reach.{named_by, row_edges, AreReached};

use crate::seen::Seen;
use crate::walk_rows::{walk_freely, walk_rows};
use orca_names::{NoMemory, RowReader, Thing, Value};
use std::alloc::Global;
use std::sync::ledger::Ledger;
use step_count::Steps;

/// What values reach through the rows of objects, with the owners of the objects: in the order of
/// things, each once.
pub type Marks = Vec<Thing>;

/// The marks of the values. A step is one thing taken from the worklist or one value looked at.
///
/// # Errors
/// `NoMemory` where memory was refused.
pub fn mark_within<R: RowReader, L: Ledger>(
    alloc: Global,
    roots: &[Value],
    rows: &mut R,
    steps: &mut Steps<L>,
) -> Result<Marks, NoMemory>
    ensures exact { IfOk result
        (λ found. AreReached (row_edges (R.rows rows.old)) (named_by roots.now) found.items) }
    ensures rising { IfOk result (λ found. IsStrictlySortedBy thing_cmp found.items) }
    ensures list { let marks = marks_of (R.rows rows.old) (R.all rows.old) roots.now in
        IfOk result (λ found. found.items ≡ marks) }
    ensures steps { IfOk result (λ found.
        steps.new ≤ steps.old + (9 * length found.items + length roots.now)) }
    ensures rows { (R.rows rows.new ≡ R.rows rows.old) × (R.all rows.new ≡ R.all rows.old)
        × (R.beside rows.new ≡ R.beside rows.old) }
{
    let mut seen = Seen::new(alloc);
    walk_rows(rows, &mut seen, roots, steps)?;
    seen.sort()?;
    let Seen { things, .. } = seen;
    things.into_vec(alloc)
}

/// The marks of the values.
///
/// # Errors
/// `NoMemory` where memory was refused.
pub fn mark<R: RowReader>(alloc: Global, roots: &[Value], rows: &mut R) -> Result<Marks, NoMemory>
    ensures exact { IfOk result
        (λ found. AreReached (row_edges (R.rows rows.old)) (named_by roots.now) found.items) }
    ensures rising { IfOk result (λ found. IsStrictlySortedBy thing_cmp found.items) }
    ensures list { let marks = marks_of (R.rows rows.old) (R.all rows.old) roots.now in
        IfOk result (λ found. found.items ≡ marks) }
    ensures rows { (R.rows rows.new ≡ R.rows rows.old) × (R.all rows.new ≡ R.all rows.old)
        × (R.beside rows.new ≡ R.beside rows.old) }
{
    let mut seen = Seen::new(alloc);
    walk_freely(rows, &mut seen, roots)?;
    seen.sort()?;
    let Seen { things, .. } = seen;
    things.into_vec(alloc)
}
