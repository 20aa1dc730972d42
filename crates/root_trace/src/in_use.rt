// Which of the rows that letters brought stay.

ghost use Rattle.std.specs.Prelude.{◌≡◌, IfOk};
ghost use Rattle.known_rows.specs.Places.{HoldsOthersOnly};
ghost use Rattle.local_sweep.specs.Marked.{is_reached};
ghost use Rattle.local_sweep.specs.Plan.{back_of, plan_of};
ghost use Rattle.root_trace.specs.Own.{roots_in};
ghost use Rattle.known_rows.specs.Known.{block_known, row_known};
ghost use Rattle.row_store.specs.Standing.{Stand};
ghost use Rattle.row_store.specs.Words.{SameWords};
ghost use Rattle.row_table.specs.Table.{as_held};

use crate::plans::roots_of;
use foreign_table::ForeignTable;
use known_rows::KnownPlaces;
use letter_kinds::{Amounts, SweepPlan};
use local_sweep::plan_of_marks;
use object_heap::ObjectHeap;
use orca_names::{ActorName, Fields, NoMemory};
use plain_list::Listed;
use reach_walk::mark_bits;
use row_store::RowWords;
use row_table::RowTable;
use std::alloc::Global;

// The plan of a sweep that keeps what the fields, and the own objects with a count above 0, reach
// through own rows and these.
fn plan_in_use<W: RowWords>(
    alloc: Global,
    fields: &Fields,
    heap: &ObjectHeap,
    brought: &ForeignTable,
    words: &mut W,
) -> Result<SweepPlan, NoMemory>
    requires others { HoldsOthersOnly heap.now brought.now }
    requires stand { Stand (row_known heap.now brought.now) (block_known heap.now brought.now)
        (W.known words.old) }
    ensures plan { let roots = roots_in fields.now.values heap.now in
        let in_use = is_reached roots heap.now brought.now in
        IfOk result (λ plan. plan ≡ plan_of in_use heap.now brought.now) }
    ensures words { SameWords W.known W.places W.beside words.old words.new }
{
    let roots = roots_of(alloc, fields, heap)?;
    let rows = KnownPlaces::of(heap, brought);
    let marks = mark_bits(alloc, roots.as_slice(), &rows, words)?;
    plan_of_marks(alloc, &marks, heap, brought)
}

/// The objects, in groups of their owners, whose rows letters brought and that are in use no more:
/// neither the fields nor an own object with a count above 0 reaches them through own rows and these.
///
/// # Errors
/// `NoMemory` where memory was refused.
pub fn unused_rows<W: RowWords>(
    alloc: Global,
    fields: &Fields,
    heap: &ObjectHeap,
    known: &RowTable,
    words: &mut W,
) -> Result<Listed<(ActorName, Amounts)>, NoMemory>
    requires others { HoldsOthersOnly heap.now (as_held known.now) }
    requires stand { let brought = as_held known.now in
        Stand (row_known heap.now brought) (block_known heap.now brought) (W.known words.old) }
    ensures unused { let roots = roots_in fields.now.values heap.now in
        let in_use = is_reached roots heap.now (as_held known.now) in
        IfOk result (λ unused. unused ≡ back_of in_use heap.now (as_held known.now)) }
    ensures words { SameWords W.known W.places W.beside words.old words.new }
{
    match known.held() {
        Some(brought) => {
            let plan = plan_in_use(alloc, fields, heap, brought, words)?;
            Ok(plan.back)
        }
        None => Ok(Listed::new(alloc)),
    }
}
