// The plan of a sweep, from what is kept.

ghost use Rattle.std.specs.Prelude.{◌≡◌, ℕ, ◌<◌, ◌≤◌, ◌++◌, ◌∷◌, [], Some, if◌then◌else◌, List, Option, length, not, slice_get, IfOk, OnOk};
ghost use Rattle.std.specs.FinMap as m;
ghost use Rattle.orca_names.specs.declared.names.Thing.{Thing as thing};
ghost use Rattle.letter_kinds.specs.Counting.{Amount, by_owner};
ghost use Rattle.letter_kinds.specs.Holdings.{Row};
ghost use Rattle.known_rows.specs.Places.{HoldsOthersOnly, placed_things};
ghost use Rattle.local_sweep.specs.Marked.{is_marked, is_reached};
ghost use Rattle.local_sweep.specs.Plan.{back_of, free_of, is_freed, object_named, plan_of};
ghost use Rattle.known_rows.specs.Known.{block_known, row_known};
ghost use Rattle.row_store.specs.Standing.{Stand};
ghost use Rattle.row_store.specs.Words.{SameWords};

use crate::amounts::push_amount;
use crate::kept::{ByPlace, Kept};
use crate::named::ByName;
use foreign_table::ForeignTable;
use known_rows::{KnownPlaces, KnownRows};
use letter_kinds::{Amounts, SweepPlan};
use object_heap::ObjectHeap;
use orca_names::{ActorName, Fields, NoMemory, ObjName};
use plain_list::Listed;
use reach_walk::{lead_no_further, mark_bits};
use ready_set::PlaceSet;
use row_store::RowWords;
use std::alloc::Global;

// Among so few things what is kept is found soonest by the names in the fields.
const FEW: usize = 16;

// Whether an own object, by its place in the order of serials, is freed.
fn is_gone<K: Kept>(kept: &K, i: usize) -> bool
    requires { i < m.len (K.own kept.now).rows }
    ensures { (e : ℕ × (Row × ℕ)) → slice_get (m.entries (K.own kept.now).rows) i ≡ Some e →
        result ≡ is_freed (K.marked kept.now) (K.own kept.now).owner e }
{
    let (_, _, count) = kept.heap().at(i);
    if count != 0 {
        return false;
    }
    !kept.keeps_own(i)
}

// Adds an own object that is freed to the others.
fn note_freed<K: Kept>(free: &mut Vec<ObjName>, kept: &K, i: usize) -> Result<(), NoMemory>
    requires { i < m.len (K.own kept.now).rows }
    ensures { (e : ℕ × (Row × ℕ)) → slice_get (m.entries (K.own kept.now).rows) i ≡ Some e →
        let heap = K.own kept.now in
        let gone = is_freed (K.marked kept.now) heap.owner e in
        let more = (if gone then object_named heap.owner e.0 ∷ [] else []) in
        OnOk result (free.new.items ≡ free.old.items ++ more) }
{
    if !is_gone(kept, i) {
        return Ok(());
    }
    let (n, _, _) = kept.heap().at(i);
    free.push(n)?;
    Ok(())
}

// The own objects that are freed, by rising serial.
fn gather_freed<K: Kept>(alloc: Global, kept: &K) -> Result<Vec<ObjName>, NoMemory>
    ensures { IfOk result (λ free. free.items ≡ free_of (K.marked kept.now) (K.own kept.now)) }
{
    let mut free = Vec::new(alloc);
    for i in 0..kept.heap().len() {
        note_freed(&mut free, kept, i)?;
    }
    Ok(free)
}

// Adds the count on a held thing that is not kept to what goes back.
fn note_given<K: Kept>(
    alloc: Global,
    back: &mut Vec<(ActorName, Amounts)>,
    kept: &K,
    j: usize,
) -> Result<(), NoMemory>
    requires { j < m.len (K.held kept.now).entries }
    ensures { (e : thing × (ℕ × Option Row)) (given : List Amount)
        → slice_get (m.entries (K.held kept.now).entries) j ≡ Some e
        → back.old.items ≡ by_owner given →
        let more = (if not (K.marked kept.now e.0) then (e.0, e.1.0) ∷ [] else []) in
        OnOk result (back.new.items ≡ by_owner (given ++ more)) }
{
    if kept.keeps_held(j) {
        return Ok(());
    }
    let (thing, count, _) = kept.foreign().at(j);
    push_amount(alloc, back, &thing, count)
}

// The counts that go back, in groups of their owners.
fn gather_given<K: Kept>(alloc: Global, kept: &K) -> Result<Vec<(ActorName, Amounts)>, NoMemory>
    ensures { IfOk result (λ back.
        back.items ≡ back_of (K.marked kept.now) (K.own kept.now) (K.held kept.now)) }
{
    let mut back = Vec::new(alloc);
    for j in 0..kept.foreign().len() {
        note_given(alloc, &mut back, kept, j)?;
    }
    Ok(back)
}

// The plan of a sweep that keeps these.
#[inline(always)]
fn plan_kept<K: Kept>(alloc: Global, kept: &K) -> Result<SweepPlan, NoMemory>
    ensures { IfOk result (λ plan.
        plan ≡ plan_of (K.marked kept.now) (K.own kept.now) (K.held kept.now)) }
{
    let free = gather_freed(alloc, kept)?;
    let back = gather_given(alloc, kept)?;
    Ok(SweepPlan {
        free: Listed::from(free),
        back: Listed::from(back),
    })
}

/// The plan of a sweep that keeps what is marked. Marks are told by the places of what the actor
/// knows (`KnownPlaces`).
///
/// # Errors
/// `NoMemory` where memory was refused.
pub fn plan_of_marks(
    alloc: Global,
    marks: &PlaceSet,
    heap: &ObjectHeap,
    foreign: &ForeignTable,
) -> Result<SweepPlan, NoMemory>
    requires { length (placed_things heap.now foreign.now) ≤ length marks.now }
    ensures { let marked = is_marked marks.now heap.now foreign.now in
        IfOk result (λ plan. plan ≡ plan_of marked heap.now foreign.now) }
{
    let known = KnownPlaces::of(heap, foreign);
    plan_kept(alloc, &ByPlace { marks, known })
}

// Whether few things are known.
fn are_few(heap: &ObjectHeap, foreign: &ForeignTable) -> bool {
    heap.len() <= FEW && foreign.len() <= FEW
}

/// The plan of a sweep that keeps what the fields reach through the rows that the actor has.
///
/// # Errors
/// `NoMemory` where memory was refused.
pub fn plan<W: RowWords>(
    alloc: Global,
    fields: &Fields,
    heap: &ObjectHeap,
    foreign: &ForeignTable,
    words: &mut W,
) -> Result<SweepPlan, NoMemory>
    requires others { HoldsOthersOnly heap.now foreign.now }
    requires stand { Stand (row_known heap.now foreign.now) (block_known heap.now foreign.now)
        (W.known words.old) }
    ensures plan { let marked = is_reached fields.now.values heap.now foreign.now in
        IfOk result (λ plan. plan ≡ plan_of marked heap.now foreign.now) }
    ensures words { SameWords W.known W.places W.beside words.old words.new }
{
    let values = fields.values.as_slice();
    let rows = KnownRows { heap, foreign };
    if are_few(heap, foreign) && lead_no_further(values, &rows, words) {
        return plan_kept(alloc, &ByName { values, rows });
    }
    let known = KnownPlaces::of(heap, foreign);
    let marks = mark_bits(alloc, values, &known, words)?;
    plan_kept(
        alloc,
        &ByPlace {
            marks: &marks,
            known,
        },
    )
}
