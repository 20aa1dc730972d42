// Where the things of one owner stand.

ghost use Rattle.std.specs.Prelude.{◌≡◌, ◌≢◌, ℕ, ◌≤◌, ◌<◌, length, map, slice_index_or};
ghost use Rattle.orca_names.specs.Names.{owner_of, thing_cmp};
ghost use Rattle.foreign_table.specs.declared.search.Entry.{Entry as entry};
ghost use Rattle.foreign_table.specs.Span.{IsSpan};
ghost use Rattle.foreign_table.specs.Table.{DoRise};

use crate::search::{Entry, place_of};
use orca_names::{ActorName, Thing};

// The first place from this one on that is not the owner's.
fn end_from(held: &[Entry], owner: ActorName, first: usize) -> usize
    requires { first ≤ length held.now }
    ensures within { (first ≤ result) × (result ≤ length held.now) }
    ensures own { (k : ℕ) (d : entry) → first ≤ k → k < result
        → owner_of (slice_index_or held.now k d).thing ≡ owner }
    ensures stop { result < length held.now
        → (d : entry) → owner_of (slice_index_or held.now result d).thing ≢ owner }
{
    let mut end = first;
    while end < held.len() {
        if held[end].thing.owner() != owner {
            return end;
        }
        end += 1;
    }
    end
}

// The place of the owner's first thing, or where it would stand.
fn first_of(held: &[Entry], owner: ActorName) -> usize
    requires { DoRise held.now }
    ensures within { result ≤ length held.now }
    ensures below { (k : ℕ) (d : entry) → k < result
        → owner_of (slice_index_or held.now k d).thing < owner }
    ensures behind { (k : ℕ) (d : entry) → result ≤ k → k < length held.now
        → owner ≤ owner_of (slice_index_or held.now k d).thing }
{
    match place_of(held, Thing::Actor(owner)) {
        Ok(i) => i,
        Err(i) => i,
    }
}

/// The place of the owner's first thing, or where it would stand, and the first place behind its
/// things.
pub(crate) fn span(held: &[Entry], owner: ActorName) -> (usize, usize)
    requires { DoRise held.now }
    ensures { IsSpan owner (map (λ e. e.thing) held.now) result.0 result.1 }
{
    let first = first_of(held, owner);
    (first, end_from(held, owner, first))
}
