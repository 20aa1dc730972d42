// Places of what an actor has in a turn.

ghost use Rattle.std.specs.Prelude.{◌≡◌, ◌≢◌, ◌++◌, ◌∷◌, ◌+◌, ◌^◌, ◌<◌, [], ℕ, Some, None, length, IfSome, IsTrue, MatchOption};
ghost use Rattle.known_rows.specs.Places.{held_below, own_things, placed_things};
ghost use Rattle.orca_names.specs.declared.names.Thing.TheVariants.{Actor as actor_thing};
ghost use Rattle.known_rows.specs.InTurn.{ComeLater, made_thing};

use crate::known::KnownRows;
use crate::places::KnownPlaces;
use crate::turn_rows::TurnRows;
use object_heap::ObjectHeap;
use orca_names::{Args, ObjName, Row, Serial, Thing, Value};
use reach_walk::{BlockRows, Dense, LentRows, PlacedRows, Places};
use row_store::Lent;

// Among so few things places are not worth while.
const FEW: usize = 8;

/// The rows that an actor has where a turn stops, with places: those of what it knew before, and
/// behind its own objects of before the ones of the objects that the turn made.
#[derive(Clone, Copy)]
pub struct TurnPlaces<'a> {
    pub known: KnownPlaces<'a>,
    pub made: &'a [Row],

    // The first place of what the turn made.
    first: usize,
    ghost start: { let heap = known.rows.heap.now in
        let below = held_below heap known.rows.foreign.now in
        first ≡ length (below ++ actor_thing heap.owner ∷ own_things heap) },
    ghost later: { ComeLater known.rows.heap.now made.now },
    ghost fits: { length (placed_things known.rows.heap.now known.rows.foreign.now)
        + length made.now < 2 ^ 64 },
}

// Whether the objects that the turn made have later serials than those of before, as in every run.
fn come_later(heap: &ObjectHeap, made: &[Row]) -> bool
    ensures { IsTrue result → ComeLater heap.now made.now }
{
    let next = heap.made();
    if made.len() as u64 > u64::MAX - next {
        return false;
    }
    let count = heap.len();
    if count == 0 {
        return true;
    }
    let (last, _, _) = heap.at(count - 1);
    last.serial.get() < next
}

// Whether more than a few things are known.
fn are_many(rows: &TurnRows<'_>) -> bool {
    let KnownRows { heap, foreign } = rows.known;
    if heap.len() > FEW {
        return true;
    }
    if foreign.len() > FEW {
        return true;
    }
    rows.made.len() > FEW
}

fn names_object(values: &[Value]) -> bool {
    for value in values {
        if let Value::Obj(_) = value {
            return true;
        }
    }
    false
}

// Whether the value leads to an object whose row names another, as one in a block is guessed to do.
fn leads_on(rows: &TurnRows<'_>, value: &Value) -> bool {
    let Value::Obj(n) = value else {
        return false;
    };
    match rows.row_of(*n) {
        Lent::Nothing => false,
        Lent::Here(values) => names_object(values),
        Lent::In(_) => true,
    }
}

/// Whether the arguments may reach so much that places are worth while. Either answer serves: it
/// tells by which way a walk is likely to end sooner.
pub fn may_reach_many(rows: &TurnRows<'_>, args: &Args) -> bool {
    if !are_many(rows) {
        return false;
    }
    for value in args.as_slice() {
        if leads_on(rows, value) {
            return true;
        }
    }
    false
}

impl<'a> TurnPlaces<'a> {
    /// These rows with places; `None` where serials do not rise or numbers do not reach so far, to
    /// which no run comes.
    pub fn of(rows: TurnRows<'a>) -> Option<TurnPlaces<'a>>
        ensures { IfSome result (λ places.
            (places.known.rows.heap.now ≡ rows.entry.known.heap.now)
            × (places.known.rows.foreign.now ≡ rows.entry.known.foreign.now)
            × (places.made.now ≡ rows.entry.made.now)) }
    {
        let KnownRows { heap, foreign } = rows.known;
        let made = rows.made;
        if !come_later(heap, made) {
            return None;
        }
        let known = KnownPlaces::of(heap, foreign);
        if made.len() > usize::MAX - known.places() {
            return None;
        }
        let first = known.first_above();
        Some(TurnPlaces { known, made, first })
    }

    // Which of the objects that the turn made the thing is, if any.
    fn made_place(&self, thing: &Thing) -> Option<usize>
        ensures { let heap = self.now.known.rows.heap.now in MatchOption result
            ((i : ℕ) → i < length self.now.made.now → thing.now ≢ made_thing heap i)
            (λ i. (i < length self.now.made.now) × (thing.now ≡ made_thing heap i)) }
    {
        let Thing::Obj(n) = thing else {
            return None;
        };
        let heap = self.known.rows.heap;
        if n.owner != heap.owner() {
            return None;
        }
        let serial = n.serial.get();
        if serial < heap.made() {
            return None;
        }
        let i = serial - heap.made();
        if i < self.made.len() as u64 {
            Some(i as usize)
        } else {
            None
        }
    }

    // The object that the turn made as this one, counted from 0.
    fn made_thing(&self, i: usize) -> Thing
        requires { i < length self.now.made.now }
        ensures { result ≡ made_thing self.now.known.rows.heap.now i }
    {
        let heap = self.known.rows.heap;
        Thing::Obj(ObjName {
            owner: heap.owner(),
            serial: Serial::of(heap.made() + i as u64),
        })
    }
}

impl BlockRows for TurnPlaces<'_> {
    ghost use Rattle.letter_kinds.specs.Holdings.{known_objects, row_of, with_made};
    ghost use Rattle.known_rows.specs.Holdings.{holdings_of};
    ghost use Rattle.known_rows.specs.InTurn.{row_is_known, turn_block};

    ghost rows = { λ s. row_of s.known.rows.heap.now.owner
        (with_made s.made.now (holdings_of 0 s.known.rows.heap.now s.known.rows.foreign.now)) };

    ghost blocks = { λ s. turn_block s.made.now s.known.rows.heap.now s.known.rows.foreign.now };

    ghost all = { λ s. known_objects s.known.rows.heap.now.owner
        (with_made s.made.now (holdings_of 0 s.known.rows.heap.now s.known.rows.foreign.now)) };

    ghost within = { λ s n row e. row_is_known s.known.rows.heap.now.owner
        (with_made s.made.now (holdings_of 0 s.known.rows.heap.now s.known.rows.foreign.now))
        n row e };
}

impl PlacedRows for TurnPlaces<'_> {
    ghost use Rattle.known_rows.specs.HavePlaces.{rows_have_places};

    #[inline(always)]
    fn entry_at(&self, at: usize) -> (Thing, Lent<'_>) {
        if at < self.first {
            return self.known.entry_at(at);
        }
        let i = at - self.first;
        if i < self.made.len() {
            return (self.made_thing(i), Lent::Here(self.made[i].as_slice()));
        }
        self.known.entry_at(at - self.made.len())
    }

    fn dense(&self) -> Dense<'_> {
        self.known.dense()
    }

    ghost only_placed = { λ s n none.
        rows_have_places s.made.now s.known.rows.heap.now s.known.rows.foreign.now n none };
}

impl Places for TurnPlaces<'_> {
    ghost use Rattle.std.specs.Prelude.{length};
    ghost use Rattle.object_heap.specs.Heap.{with_new};
    ghost use Rattle.known_rows.specs.Places.{place_in, placed_things};
    ghost use Rattle.known_rows.specs.PlaceLaws.{places_below, places_in_order};

    ghost place = { λ s. place_in (with_new s.made.now [] s.known.rows.heap.now)
        s.known.rows.foreign.now };

    ghost count = { λ s. length (placed_things (with_new s.made.now [] s.known.rows.heap.now)
        s.known.rows.foreign.now) };

    fn places(&self) -> usize {
        self.known.places() + self.made.len()
    }

    #[inline(always)]
    fn place_of(&self, thing: &Thing) -> Option<usize> {
        if let Some(i) = self.made_place(thing) {
            return Some(self.first + i);
        }
        match self.known.place_of(thing) {
            Some(at) if at < self.first => Some(at),
            Some(at) => Some(at + self.made.len()),
            None => None,
        }
    }

    ghost below = { λ s x p e. places_below (with_new s.made.now [] s.known.rows.heap.now)
        s.known.rows.foreign.now x p e };

    ghost in_order = { λ s x y p q e f. places_in_order (with_new s.made.now [] s.known.rows.heap.now)
        s.known.rows.foreign.now x y p q e f };
}
