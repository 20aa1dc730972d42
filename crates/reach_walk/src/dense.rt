// Objects that stand together.

ghost use Rattle.std.specs.Prelude.{◌≡◌, ◌+◌, ◌<◌, ℕ, IfSome, List, Option, Some, length, slice_get, true};
ghost use Rattle.orca_names.specs.declared.names.ObjName.{ObjName as object_name};
ghost use Rattle.orca_names.specs.declared.names.Thing.{Thing as any_thing};
ghost use Rattle.orca_names.specs.declared.names.Thing.TheVariants.{Obj as object};
ghost use Rattle.orca_names.specs.declared.names.Value as names;
ghost use Rattle.ready_set.specs.Next.{AreOn};
ghost use Rattle.row_store.specs.Told.{Lying, lie_as, thing_lies};
ghost use Rattle.reach_walk.specs.Dense.{StandFrom, StandTogether};
ghost use Rattle.std.specs.Option.{option_copied};

use orca_names::{ActorName, ObjName, Row, Thing};
use ready_set::PlaceSet;
use row_store::Told;

/// Objects of one owner by rising serials, each with its row, whose places follow each other.
#[derive(Clone, Copy)]
pub struct Dense<'a> {
    /// The place of the first.
    pub base: usize,

    /// The serial of the first.
    pub first: u64,

    /// Whether no serial is missing between.
    pub whole: bool,

    /// The owner of each.
    pub owner: ActorName,

    /// The objects, each with its row.
    pub items: &'a [(Thing, Told)],
}

// So many are copied at once: a copy of more than 2 KB goes another way in the C library.
const CHUNK: usize = 12;

fn is_object(thing: &Thing, n: ObjName) -> bool
    ensures { true ≡ result → thing.now ≡ object n }
{
    *thing == Thing::Obj(n)
}

impl<'a> Dense<'a> {
    /// Which of these an object is, counted from 0, where that is seen by its serial.
    #[inline(always)]
    pub(crate) fn index_of(&self, n: ObjName) -> Option<usize>
        ensures within { IfSome result (λ i. i < length self.now.items.now) }
        ensures place { (place : any_thing → Option ℕ) (rows : object_name → Option (List names.Value))
            (blocks : object_name → Option ℕ)
            → StandTogether place rows blocks self.now → IfSome result (λ i.
            (n.owner ≡ self.now.owner) × (place (object n) ≡ Some (self.now.base + i))) }
    {
        if n.owner != self.owner {
            return None;
        }
        let serial = n.serial.get();
        if serial < self.first {
            return None;
        }
        let i = (serial - self.first) as usize;
        if i >= self.items.len() {
            return None;
        }
        if self.whole {
            return Some(i);
        }
        if is_object(&self.items[i].0, n) {
            Some(i)
        } else {
            None
        }
    }

    /// The row of what stands at a place, where that is one of these and its row is at hand.
    #[inline(always)]
    pub(crate) fn row_at(&self, at: usize) -> Option<&'a Row>
        ensures { (rows : object_name → Option (List names.Value)) (row : List names.Value)
            → option_copied result ≡ Some row
            → (i : ℕ) × (e : any_thing × Lying) × (at ≡ self.now.base + i)
            × (slice_get (lie_as rows self.now.items.now) i ≡ Some e) × (e.1.row ≡ Some row) }
    {
        if at < self.base {
            return None;
        }
        let i = at - self.base;
        if i >= self.items.len() {
            return None;
        }
        let Told::Here(row) = &self.items[i].1 else {
            return None;
        };
        Some(row)
    }

    /// Some of those that stand at a place and behind it, all of which are on; none where there are
    /// none.
    #[inline(always)]
    pub(crate) fn run_at(&self, bits: &PlaceSet, at: usize) -> &'a [(Thing, Told)]
        ensures run { (place : any_thing → Option ℕ) (rows : object_name → Option (List names.Value))
            (blocks : object_name → Option ℕ) → StandTogether place rows blocks self.now
            → StandFrom place (thing_lies rows blocks) at (lie_as rows result.now) }
        ensures on { AreOn bits.now at (at + length result.now) }
    {
        let items = self.items;
        if at < self.base {
            return &items[..0];
        }
        let from = at - self.base;
        if from >= items.len() {
            return &items[..0];
        }
        let count = bits.on_from(at).min(items.len() - from).min(CHUNK);
        &items[from..from + count]
    }
}
