// The plan of a sweep.

ghost use Rattle.std.specs.Prelude.{◌≡◌, ◌<◌, ◌++◌, ◌==◌, ◌∷◌, [], ℕ, Some, if◌then◌else◌, not, slice_get, IfOk, OnOk};
ghost use Rattle.std.specs.FinMap as m;
ghost use Rattle.letter_kinds.specs.Holdings.{Row};
ghost use Rattle.known_rows.specs.Places.{HoldsOthersOnly};
ghost use Rattle.local_sweep.specs.Plan.{plan_of};
ghost use Rattle.machine_rules.specs.Cell.{Cell};
ghost use Rattle.machine_rules.specs.Collect.{is_marked_by_roots};
ghost use Rattle.root_trace.specs.Own.{object_root, roots_in};
ghost use Rattle.object_heap.specs.Heap.{own_block, own_row};
ghost use Rattle.row_store.specs.Standing.{Stand};
ghost use Rattle.row_store.specs.Words.{SameWords};

use crate::own_rows::OwnRows;
use foreign_table::ForeignTable;
use known_rows::KnownPlaces;
use letter_kinds::SweepPlan;
use local_sweep::plan_of_marks;
use object_heap::ObjectHeap;
use orca_names::{Fields, NoMemory, Value};
use reach_walk::mark_bits;
use row_store::RowWords;
use std::alloc::Global;

// Adds an own object, by its place in the order of serials, to the roots if it is counted.
fn push_counted(roots: &mut Vec<Value>, heap: &ObjectHeap, i: usize) -> Result<(), NoMemory>
    requires { i < m.len heap.now.rows }
    ensures { (e : ℕ × (Row × ℕ)) → slice_get (m.entries heap.now.rows) i ≡ Some e →
        let its = (if not (e.1.1 == 0) then object_root heap.now.owner e ∷ [] else []) in
        OnOk result (roots.new.items ≡ roots.old.items ++ its) }
{
    let (name, _, count) = heap.at(i);
    if count != 0 {
        roots.push(Value::Obj(name))?;
    }
    Ok(())
}

/// What is marked at once: the fields, and the own objects that are counted.
pub(crate) fn roots_of(
    alloc: Global,
    fields: &Fields,
    heap: &ObjectHeap,
) -> Result<Vec<Value>, NoMemory>
    ensures { IfOk result (λ roots. roots.items ≡ roots_in fields.now.values heap.now) }
{
    let mut roots = Vec::new(alloc);
    roots.extend_from_slice(fields.values.as_slice())?;
    for i in 0..heap.len() {
        push_counted(&mut roots, heap, i)?;
    }
    Ok(roots)
}

/// The plan of a sweep that keeps what the fields, and the own objects with a count above 0, reach
/// through own rows alone, and the owners of that.
///
/// # Errors
/// `NoMemory` where memory was refused.
pub fn plan_roots<W: RowWords>(
    alloc: Global,
    fields: &Fields,
    heap: &ObjectHeap,
    foreign: &ForeignTable,
    words: &mut W,
) -> Result<SweepPlan, NoMemory>
    requires others { HoldsOthersOnly heap.now foreign.now }
    requires stand { Stand (own_row heap.now) (own_block heap.now) (W.known words.old) }
    ensures plan { (c : Cell) → c.fields ≡ fields.now → c.holdings.rows ≡ heap.now.rows →
        let marked = is_marked_by_roots heap.now.owner c in
        IfOk result (λ plan. plan ≡ plan_of marked heap.now foreign.now) }
    ensures words { SameWords W.known W.places W.beside words.old words.new }
{
    let roots = roots_of(alloc, fields, heap)?;
    let own = OwnRows {
        known: KnownPlaces::of(heap, foreign),
    };
    let marks = mark_bits(alloc, roots.as_slice(), &own, words)?;
    plan_of_marks(alloc, &marks, heap, foreign)
}
