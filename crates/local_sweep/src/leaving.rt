// Who goes gives back what it held on things of those who stay.

ghost use Rattle.std.specs.Prelude.{◌≡◌, ◌<◌, ◌++◌, ◌∷◌, [], if◌then◌else◌, IfOk, IsTrue, List, Option, OnOk, Some, not, slice_get, true, ℕ};
ghost use Rattle.std.specs.FinMap as m;
ghost use Rattle.std.specs.List.Sorted.{IsStrictlySortedBy};
ghost use Rattle.std.specs.Ordering.{nat_cmp};
ghost use Rattle.orca_names.specs.Names.{owner_of};
ghost use Rattle.orca_names.specs.declared.names.Thing.{Thing as thing};
ghost use Rattle.letter_kinds.specs.Counting.{Amount, by_owner, given_back};
ghost use Rattle.letter_kinds.specs.Detector.{has};
ghost use Rattle.letter_kinds.specs.Holdings.{Row};
ghost use Rattle.object_heap.specs.Heap.{Heap};
ghost use Rattle.known_rows.specs.Holdings.{holdings_of};

use crate::amounts::push_amount;
use foreign_table::ForeignTable;
use letter_kinds::Amounts;
use orca_names::{ActorName, NoMemory};
use std::alloc::Global;

// Whether the actor stands where it does if those who go are numbered without a gap.
#[tactic(auto, using(crate::proofs::Owners::has_at))]
fn is_seen_at_once(gone: &[ActorName], actor: ActorName) -> bool
    ensures { IsTrue result → has gone.now actor ≡ true }
{
    let Some(first) = gone.first() else {
        return false;
    };
    let place = actor.0.wrapping_sub(first.0) as usize;
    if place >= gone.len() {
        return false;
    }
    gone[place] == actor
}

// Whether the actor is one of those who go.
fn is_leaving(gone: &[ActorName], actor: ActorName) -> bool
    requires { IsStrictlySortedBy nat_cmp gone.now }
    ensures { result ≡ has gone.now actor }
{
    if is_seen_at_once(gone, actor) {
        return true;
    }
    gone.binary_search(&actor).is_ok()
}

// Adds the count on a thing, by its place in the order of things, to what goes back, if the owner
// of the thing stays.
fn note_held(
    alloc: Global,
    back: &mut Vec<(ActorName, Amounts)>,
    gone: &[ActorName],
    foreign: &ForeignTable,
    j: usize,
) -> Result<(), NoMemory>
    requires rises { IsStrictlySortedBy nat_cmp gone.now }
    requires within { j < m.len foreign.now.entries }
    ensures { (e : thing × (ℕ × Option Row)) (given : List Amount)
        → slice_get (m.entries foreign.now.entries) j ≡ Some e
        → back.old.items ≡ by_owner given →
        let more = (if not (has gone.now (owner_of e.0)) then (e.0, e.1.0) ∷ [] else []) in
        OnOk result (back.new.items ≡ by_owner (given ++ more)) }
{
    let (thing, count, _) = foreign.at(j);
    if is_leaving(gone, thing.owner()) {
        return Ok(());
    }
    push_amount(alloc, back, &thing, count)
}

/// What an actor that goes with all of these, by rising names, holds on things of those who stay, in
/// groups of their owners.
///
/// # Errors
/// `NoMemory` where memory was refused.
pub fn gather_held(
    alloc: Global,
    gone: &[ActorName],
    foreign: &ForeignTable,
) -> Result<Vec<(ActorName, Amounts)>, NoMemory>
    requires { IsStrictlySortedBy nat_cmp gone.now }
    ensures { (count : ℕ) (heap : Heap) → IfOk result (λ back. back.items
        ≡ by_owner (given_back (λ x. has gone.now (owner_of x)) (holdings_of count heap foreign.now))) }
{
    let mut back = Vec::new(alloc);
    for j in 0..foreign.len() {
        note_held(alloc, &mut back, gone, foreign, j)?;
    }
    Ok(back)
}
