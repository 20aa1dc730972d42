// Where a thing stands among those that are held.

ghost use Rattle.std.specs.Prelude.{◌≡◌, ◌≢◌, ◌↔◌, ◌-◌, ◌^◌, ◌<◌, ◌≤◌, IfSome, IsTrue, length, map, slice_index_or};
ghost use Rattle.std.specs.Bool.{OnFalse};
ghost use Rattle.std.specs.Result.{MatchResult};
ghost use Rattle.std.specs.declared.cmp.Ordering.TheVariants.{Less};
ghost use Rattle.orca_names.specs.Names.{thing_cmp};
ghost use Rattle.orca_names.specs.declared.names.Thing.TheVariants.{Obj as object};
ghost use Rattle.plain_list.specs.Rising.{IsAt, IsGap};
ghost use Rattle.foreign_table.specs.declared.search.Entry.{Entry as entry};
ghost use Rattle.foreign_table.specs.Entry.{amount_of, len_in};
ghost use Rattle.foreign_table.specs.Table.{DoRise};

use orca_names::{ObjName, Thing};
use ref_weights::Held;

// Among so few things one is found soonest by looking at them in turn.
const FEW: usize = 8;

/// Where the values of a row lie.
#[derive(Clone, Copy, Debug, PartialEq, Eq)]
pub(crate) enum Place {
    /// Aside, so many of them; 0 where no row is known.
    Here(u8),
    /// In this block.
    In(u32),
}

impl Place {
    /// How many values lie aside.
    #[inline(always)]
    pub(crate) fn len(&self) -> usize
        ensures len { result ≡ len_in self.now }
        ensures small { result < 2 ^ 8 }
    {
        match self {
            Place::Here(len) => *len as usize,
            Place::In(_) => 0,
        }
    }
}

/// A thing of another actor, what is held on it, where the values of its row begin that lie aside,
/// and which these are.
#[derive(Clone, Copy, Debug, PartialEq, Eq)]
pub(crate) struct Entry {
    pub(crate) thing: Thing,
    pub(crate) count: Held,
    pub(crate) first: usize,
    pub(crate) place: Place,
}

/// Whether a thing comes before another.
pub(crate) fn is_below(thing: &Thing, other: &Thing) -> bool
    ensures { IsTrue result ↔ (thing_cmp thing.now other.now ≡ Less) }
{
    match thing {
        Thing::Actor(a) => match other {
            Thing::Actor(b) => a.0 < b.0,
            Thing::Obj(n) => a.0 <= n.owner.0,
        },
        Thing::Obj(n) => match other {
            Thing::Actor(b) => n.owner.0 < b.0,
            Thing::Obj(m) => is_object_below(n, m),
        },
    }
}

fn is_object_below(n: &ObjName, m: &ObjName) -> bool
    ensures { IsTrue result ↔ (thing_cmp (object n.now) (object m.now) ≡ Less) }
{
    if n.owner.0 == m.owner.0 {
        return n.serial.get() < m.serial.get();
    }
    n.owner.0 < m.owner.0
}

// Whether the thing stands at this place.
fn stands_at(held: &[Entry], place: usize, thing: &Thing) -> bool
    ensures there { IsTrue result → (place < length held.now)
        × ((d : entry) → (slice_index_or held.now place d).thing ≡ thing.now) }
    ensures other { OnFalse result (place < length held.now
        → (d : entry) → (slice_index_or held.now place d).thing ≢ thing.now) }
{
    if place >= held.len() {
        return false;
    }
    held[place].thing == *thing
}

// Where the thing stands among few.
#[inline(always)]
fn look(held: &[Entry], thing: &Thing) -> Option<usize>
    ensures { IfSome result (λ i. (i < length held.now)
        × ((d : entry) → (slice_index_or held.now i d).thing ≡ thing.now)) }
{
    let mut place = 0;
    while place < held.len() {
        if stands_at(held, place, thing) {
            return Some(place);
        }
        place += 1;
    }
    None
}

// Where an object of the last thing's owner stands if no serial between is missing.
fn place_by_serial(held: &[Entry], n: &ObjName) -> usize {
    let Some(last) = held.last() else {
        return 0;
    };
    let Thing::Obj(m) = &last.thing else {
        return 0;
    };
    let behind = m.serial.get().wrapping_sub(n.serial.get());
    held.len().wrapping_sub(1).wrapping_sub(behind as usize)
}

// Where the thing is likely to stand among many.
fn likely_place(held: &[Entry], thing: &Thing) -> usize {
    match thing {
        Thing::Actor(_) => 0,
        Thing::Obj(n) => place_by_serial(held, n),
    }
}

// Where the thing stands, if that is seen at once.
#[inline(always)]
fn guess(held: &[Entry], thing: &Thing) -> Option<usize>
    ensures { IfSome result (λ i. (i < length held.now)
        × ((d : entry) → (slice_index_or held.now i d).thing ≡ thing.now)) }
{
    if held.len() <= FEW {
        return look(held, thing);
    }
    let near = likely_place(held, thing);
    if stands_at(held, near, thing) {
        return Some(near);
    }
    None
}

// Whether the thing comes behind all of these, as that of an actor does that was just made.
fn comes_last(held: &[Entry], thing: &Thing) -> bool
    ensures { IsTrue result → (0 < length held.now) × ((d : entry)
        → thing_cmp (slice_index_or held.now (length held.now - 1) d).thing thing.now ≡ Less) }
{
    match held.last() {
        Some(last) => is_below(&last.thing, thing),
        None => false,
    }
}

// The first place whose thing does not come before this one, by halves.
fn first_from(held: &[Entry], thing: &Thing) -> usize
    requires { DoRise held.now }
    ensures within { result ≤ length held.now }
    ensures below { 0 < result → (d : entry)
        → thing_cmp (slice_index_or held.now (result - 1) d).thing thing.now ≡ Less }
    ensures not_below { result < length held.now → (d : entry)
        → thing_cmp (slice_index_or held.now result d).thing thing.now ≢ Less }
{
    if comes_last(held, thing) {
        return held.len();
    }
    let mut low = 0;
    let mut high = held.len();
    while low < high {
        let middle = low + (high - low) / 2;
        if is_below(&held[middle].thing, thing) {
            low = middle + 1;
        } else {
            high = middle;
        }
    }
    low
}

// The place of the thing, or the place where it would stand, where that is not seen at once.
#[inline(never)]
fn search(held: &[Entry], thing: Thing) -> Result<usize, usize>
    requires { DoRise held.now }
    ensures { MatchResult result (IsAt thing_cmp (map amount_of held.now) thing)
        (IsGap thing_cmp (map amount_of held.now) thing) }
{
    let place = first_from(held, &thing);
    if stands_at(held, place, &thing) {
        return Ok(place);
    }
    Err(place)
}

/// The place of the thing, or the place where it would stand.
#[inline(always)]
pub(crate) fn place_of(held: &[Entry], thing: Thing) -> Result<usize, usize>
    requires { DoRise held.now }
    ensures { MatchResult result (IsAt thing_cmp (map amount_of held.now) thing)
        (IsGap thing_cmp (map amount_of held.now) thing) }
{
    match guess(held, &thing) {
        Some(place) => Ok(place),
        None => search(held, thing),
    }
}
