// What a sweep keeps, told by marks.

ghost use Rattle.std.specs.Prelude.{◌≡◌, ℕ, ◌<◌, ◌≤◌, Bool, Some, length, slice_get};
ghost use Rattle.std.specs.FinMap as m;
ghost use Rattle.orca_names.specs.declared.names.Thing.{Thing as thing};
ghost use Rattle.orca_names.specs.declared.names.Thing.TheVariants.{Obj as object};
ghost use Rattle.object_heap.specs.Heap.{Heap};
ghost use Rattle.foreign_table.specs.Table.{Table};
ghost use Rattle.known_rows.specs.Places.{placed_things};
ghost use Rattle.local_sweep.specs.Plan.{object_named};

use foreign_table::ForeignTable;
use known_rows::KnownPlaces;
use object_heap::ObjectHeap;
use ready_set::PlaceSet;

/// What a sweep keeps of an actor's own objects and of what it holds.
pub(crate) trait Kept {
    /// The actor's own objects.
    ghost own: { Self → Heap };

    /// What it holds.
    ghost held: { Self → Table };

    /// Whether a thing is kept.
    ghost marked: { Self → thing → Bool };

    /// The actor's own objects.
    fn heap(&self) -> &ObjectHeap
        ensures { result.now ≡ own self.now };

    /// What it holds.
    fn foreign(&self) -> &ForeignTable
        ensures { result.now ≡ held self.now };

    /// Whether an own object is kept, by its place in the order of serials.
    fn keeps_own(&self, i: usize) -> bool
        requires { i < m.len (own self.now).rows }
        ensures { (serial : ℕ) → slice_get (m.keys (own self.now).rows) i ≡ Some serial
            → result ≡ marked self.now (object (object_named (own self.now).owner serial)) };

    /// Whether a held thing is kept, by its place in the order of things.
    fn keeps_held(&self, j: usize) -> bool
        requires { j < m.len (held self.now).entries }
        ensures { (x : thing) → slice_get (m.keys (held self.now).entries) j ≡ Some x
            → result ≡ marked self.now x };
}

/// What is marked is kept; marks are told by the places of what the actor knows.
#[derive(Drop)]
pub(crate) struct ByPlace<'a> {
    pub(crate) marks: &'a PlaceSet,
    pub(crate) known: KnownPlaces<'a>,
    ghost room: { length (placed_things known.rows.heap.now known.rows.foreign.now)
        ≤ length marks.now },
}

impl Kept for ByPlace<'_> {
    ghost use Rattle.local_sweep.specs.Marked.{is_marked};

    ghost own = { λ s. s.known.rows.heap.now };

    ghost held = { λ s. s.known.rows.foreign.now };

    ghost marked = { λ s. is_marked s.marks.now s.known.rows.heap.now s.known.rows.foreign.now };

    fn heap(&self) -> &ObjectHeap {
        self.known.rows.heap
    }

    fn foreign(&self) -> &ForeignTable {
        self.known.rows.foreign
    }

    fn keeps_own(&self, i: usize) -> bool {
        self.marks.contains(self.known.place_of_own_at(i))
    }

    fn keeps_held(&self, j: usize) -> bool {
        match self.known.place_of_held_at(j) {
            Some(p) => self.marks.contains(p),
            None => false,
        }
    }
}
