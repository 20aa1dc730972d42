// Places of what an actor knows.

ghost use Rattle.std.specs.Prelude.{◌≡◌, ◌≢◌, ◌↔◌, ◌∷◌, ◌++◌, ◌+◌, ◌-◌, ◌^◌, ◌<◌, ℕ, Option, Some, None, length, slice_get, IsTrue};
ghost use Rattle.std.specs.FinMap as m;
ghost use Rattle.foreign_table.specs.Span.{IsSpan};
ghost use Rattle.foreign_table.specs.Table.{known_block, known_row};
ghost use Rattle.known_rows.specs.Known.{block_known, row_known};
ghost use Rattle.known_rows.specs.Places.{HoldsOthersOnly, held_below, own_things, place_in, placed_things};
ghost use Rattle.orca_names.specs.declared.names.ObjName.{ObjName as object_name};
ghost use Rattle.reach_walk.specs.Dense.{StandTogether};
ghost use Rattle.row_store.specs.Lent.{IsLent};
ghost use Rattle.row_store.specs.Told.{thing_block, thing_row};
ghost use Rattle.letter_kinds.specs.Holdings.{Row as any_row};
ghost use Rattle.orca_names.specs.Names.{owner_of};
ghost use Rattle.orca_names.specs.declared.names.Thing.{Thing as thing};
ghost use Rattle.orca_names.specs.declared.names.Thing.TheVariants.{Actor as actor, Obj as object};

use crate::known::KnownRows;
use foreign_table::ForeignTable;
use object_heap::ObjectHeap;
use orca_names::{ObjName, Thing};
use reach_walk::{BlockRows, Dense, PlacedRows, Places};
use row_store::Lent;

/// The rows that an actor has in both of its tables, with places: first what it holds of actors
/// with lower numbers, then the actor itself, its own objects, and what it holds of actors with
/// higher numbers, each part in the order of things.
#[derive(Clone, Copy)]
pub struct KnownPlaces<'a> {
    pub rows: KnownRows<'a>,

    // Where the entries of the actor's own number would stand among the held things, and where they
    // would end.
    first: usize,
    end: usize,

    // The first place of what it holds of actors with higher numbers.
    above: usize,

    // How many places there are.
    count: usize,
    ghost span: { IsSpan rows.heap.now.owner (m.keys rows.foreign.now.entries) first end },
    ghost start: { above ≡ first + 1 + m.len rows.heap.now.rows },
    ghost size: { count ≡ above + (m.len rows.foreign.now.entries - end) },
    ghost fits: { (count < 2 ^ 64) × (m.len rows.foreign.now.entries < 2 ^ 63) },
}

impl<'a> KnownPlaces<'a> {
    /// The rows and places in these tables.
    pub fn of(heap: &'a ObjectHeap, foreign: &'a ForeignTable) -> KnownPlaces<'a>
        ensures heap { result.rows.heap.now ≡ heap.now }
        ensures foreign { result.rows.foreign.now ≡ foreign.now }
    {
        let (first, end) = foreign.span(heap.owner());
        let held = foreign.len();
        let above = first + 1 + heap.len();
        let count = above + (held - end);
        KnownPlaces {
            rows: KnownRows { heap, foreign },
            first,
            end,
            above,
            count,
        }
    }

    /// Whether each held thing is another's, as in every run.
    pub fn holds_others_only(&self) -> bool
        ensures { IsTrue result
            ↔ HoldsOthersOnly self.now.rows.heap.now self.now.rows.foreign.now }
    {
        self.first == self.end
    }

    /// The first place of what it holds of actors with higher numbers: those before are of what it
    /// holds of actors with lower ones, of itself and of its own objects.
    pub fn first_above(&self) -> usize
        ensures { let heap = self.now.rows.heap.now in
            let below = held_below heap self.now.rows.foreign.now in
            result ≡ length (below ++ actor heap.owner ∷ own_things heap) }
    {
        self.above
    }

    /// The place of an own object, by its place in the order of serials.
    pub fn place_of_own_at(&self, i: usize) -> usize
        requires { i < m.len self.now.rows.heap.now.rows }
        ensures { (serial : ℕ) → slice_get (m.keys self.now.rows.heap.now.rows) i ≡ Some serial →
            let own = object (record { owner = self.now.rows.heap.now.owner; serial = serial }) in
            place_in self.now.rows.heap.now self.now.rows.foreign.now own ≡ Some result }
    {
        self.first + 1 + i
    }

    /// The place of a held thing, by its place among the held things. One of the actor's own, which
    /// no run brings into the table, has the place of the own object, if that is there.
    pub fn place_of_held_at(&self, j: usize) -> Option<usize>
        requires { j < m.len self.now.rows.foreign.now.entries }
        ensures { (x : thing) → slice_get (m.keys self.now.rows.foreign.now.entries) j ≡ Some x
            → result ≡ place_in self.now.rows.heap.now self.now.rows.foreign.now x }
    {
        if j < self.first {
            return Some(j);
        }
        if j >= self.end {
            return Some(self.above + (j - self.end));
        }
        let foreign = self.rows.foreign;
        self.place_of(&foreign.thing_at(j))
    }

    // The place of an object of the actor's own.
    fn place_of_own(&self, n: ObjName) -> Option<usize>
        requires { n.owner ≡ self.now.rows.heap.now.owner }
        ensures { result ≡ place_in self.now.rows.heap.now self.now.rows.foreign.now (object n) }
    {
        match self.rows.heap.place(n) {
            Some(i) => Some(self.first + 1 + i),
            None => None,
        }
    }

    // The place of another's thing.
    fn place_of_held(&self, thing: &Thing) -> Option<usize>
        requires { owner_of thing.now ≢ self.now.rows.heap.now.owner }
        ensures { result ≡ place_in self.now.rows.heap.now self.now.rows.foreign.now thing.now }
    {
        match self.rows.foreign.place(thing) {
            Some(j) if j < self.first => Some(j),
            Some(j) => Some(self.above + (j - self.end)),
            None => None,
        }
    }
}

// A thing, and its row where it is an object: an actor has none.
#[inline(always)]
fn of_object<'a>(thing: Thing, row: Lent<'a>) -> (Thing, Lent<'a>)
    ensures thing { result.0 ≡ thing }
    ensures row { (its : Option any_row) (block : Option ℕ) → IsLent its block row.entry
        → IsLent (thing_row (λ _. its) thing) (thing_block (λ _. block) thing) result.1 }
{
    match thing {
        Thing::Actor(_) => (thing, Lent::Nothing),
        Thing::Obj(_) => (thing, row),
    }
}

// The thing at a place among the held things, and its row where it is an object.
#[inline(always)]
fn held_entry(foreign: &ForeignTable, j: usize) -> (Thing, Lent<'_>)
    requires { j < m.len foreign.now.entries }
    ensures thing { slice_get (m.keys foreign.now.entries) j ≡ Some result.0 }
    ensures row { IsLent (thing_row (known_row foreign.now) result.0)
        (thing_block (known_block foreign.now) result.0) result.1 }
{
    let (thing, _, row) = foreign.at(j);
    of_object(thing, row)
}

impl KnownPlaces<'_> {
    // The thing at a place, and its row where it is an object.
    #[inline(always)]
    fn entry_there(&self, at: usize) -> (Thing, Lent<'_>)
        requires { at < length (placed_things self.now.rows.heap.now self.now.rows.foreign.now) }
        ensures thing { place_in self.now.rows.heap.now self.now.rows.foreign.now result.0 ≡ Some at }
        ensures row { let rows = row_known self.now.rows.heap.now self.now.rows.foreign.now in
            let blocks = block_known self.now.rows.heap.now self.now.rows.foreign.now in
            IsLent (thing_row rows result.0) (thing_block blocks result.0) result.1 }
    {
        let foreign = self.rows.foreign;
        if at < self.first {
            return held_entry(foreign, at);
        }
        let heap = self.rows.heap;
        if at == self.first {
            return (Thing::Actor(heap.owner()), Lent::Nothing);
        }
        if at < self.above {
            let (n, row, _) = heap.at(at - self.first - 1);
            return (Thing::Obj(n), row);
        }
        held_entry(foreign, at - self.above + self.end)
    }
}

impl BlockRows for KnownPlaces<'_> {
    ghost use Rattle.known_rows.specs.Known.{block_known, row_known, names_known, row_known-within};

    ghost rows = { λ s. row_known s.rows.heap.now s.rows.foreign.now };

    ghost blocks = { λ s. block_known s.rows.heap.now s.rows.foreign.now };

    ghost all = { λ s. names_known s.rows.heap.now s.rows.foreign.now };

    ghost within = { λ s n row e. row_known-within s.rows.heap.now s.rows.foreign.now n row e };
}

impl PlacedRows for KnownPlaces<'_> {
    ghost use Rattle.known_rows.specs.OnlyPlaced.{rows_have_places};

    #[inline(always)]
    fn entry_at(&self, at: usize) -> (Thing, Lent<'_>) {
        if at < self.count {
            self.entry_there(at)
        } else {
            (Thing::Actor(self.rows.heap.owner()), Lent::Nothing)
        }
    }

    fn dense(&self) -> Dense<'_>
        ensures together { let heap = self.now.rows.heap.now in let foreign = self.now.rows.foreign.now in
            StandTogether (place_in heap foreign) (row_known heap foreign) (block_known heap foreign)
            result }
        ensures owner { result.owner ≡ self.now.rows.heap.now.owner }
        ensures end { let heap = self.now.rows.heap.now in
            let below = held_below heap self.now.rows.foreign.now in
            result.base + length result.items.now ≡ length (below ++ actor heap.owner ∷ own_things heap) }
    {
        let heap = self.rows.heap;
        Dense {
            base: self.first + 1,
            first: heap.first_serial(),
            whole: heap.is_whole(),
            owner: heap.owner(),
            items: heap.objects(),
        }
    }

    ghost only_placed = { λ s n none. rows_have_places s.rows.heap.now s.rows.foreign.now n none };
}

impl Places for KnownPlaces<'_> {
    ghost use Rattle.std.specs.Prelude.{length};
    ghost use Rattle.known_rows.specs.Places.{HoldsOthersOnly, place_in, placed_things};
    ghost use Rattle.known_rows.specs.PlaceLaws.{places_below, places_in_order};

    ghost place = { λ s. place_in s.rows.heap.now s.rows.foreign.now };

    ghost count = { λ s. length (placed_things s.rows.heap.now s.rows.foreign.now) };

    fn places(&self) -> usize {
        self.count
    }

    #[inline(always)]
    fn place_of(&self, thing: &Thing) -> Option<usize> {
        let owner = self.rows.heap.owner();
        if thing.owner() != owner {
            return self.place_of_held(thing);
        }
        match thing {
            Thing::Actor(_) => Some(self.first),
            Thing::Obj(n) => self.place_of_own(*n),
        }
    }

    ghost below = { λ s x p e. places_below s.rows.heap.now s.rows.foreign.now x p e };

    ghost in_order = { λ s x y p q e f.
        places_in_order s.rows.heap.now s.rows.foreign.now x y p q e f };
}
