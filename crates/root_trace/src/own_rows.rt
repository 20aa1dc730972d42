// The rows of an actor's own objects.

ghost use Rattle.std.specs.Prelude.{◌≡◌, None, Some};
ghost use Rattle.object_heap.specs.Heap.{own_block, own_row};

use known_rows::KnownPlaces;
use orca_names::Thing;
use reach_walk::{BlockRows, Dense, PlacedRows, Places};
use row_store::Lent;

/// The rows of the own objects alone, with the places of all that the actor knows.
#[derive(Drop)]
pub(crate) struct OwnRows<'a> {
    pub(crate) known: KnownPlaces<'a>,
}

impl BlockRows for OwnRows<'_> {
    ghost use Rattle.root_trace.specs.Own.{own_names, own_named};

    ghost rows = { λ s. own_row s.known.rows.heap.now };

    ghost blocks = { λ s. own_block s.known.rows.heap.now };

    ghost all = { λ s. own_names s.known.rows.heap.now };

    ghost within = { λ s n row e. own_named s.known.rows.heap.now n row e };
}

impl PlacedRows for OwnRows<'_> {
    ghost use Rattle.root_trace.specs.Own.{own_have_places};

    fn entry_at(&self, at: usize) -> (Thing, Lent<'_>) {
        let known = &self.known;
        let (thing, row) = known.entry_at(at);
        if thing.owner() == known.rows.heap.owner() {
            (thing, row)
        } else {
            (thing, Lent::Nothing)
        }
    }

    fn dense(&self) -> Dense<'_> {
        self.known.dense()
    }

    ghost only_placed = { λ s n none.
        own_have_places s.known.rows.heap.now s.known.rows.foreign.now n none };
}

impl Places for OwnRows<'_> {
    ghost use Rattle.std.specs.Prelude.{length};
    ghost use Rattle.known_rows.specs.Places.{place_in, placed_things};
    ghost use Rattle.known_rows.specs.PlaceLaws.{places_below, places_in_order};

    ghost place = { λ s. place_in s.known.rows.heap.now s.known.rows.foreign.now };

    ghost count = { λ s. length (placed_things s.known.rows.heap.now s.known.rows.foreign.now) };

    fn places(&self) -> usize {
        self.known.places()
    }

    fn place_of(&self, thing: &Thing) -> Option<usize> {
        self.known.place_of(thing)
    }

    ghost below = { λ s x p e. places_below s.known.rows.heap.now s.known.rows.foreign.now x p e };

    ghost in_order = { λ s x y p q e f.
        places_in_order s.known.rows.heap.now s.known.rows.foreign.now x y p q e f };
}
