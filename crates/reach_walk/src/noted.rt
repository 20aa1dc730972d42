// Which things a walk has met.

ghost use Rattle.std.specs.Prelude.{◌≡◌, ◌≤◌, [], List, IfOk, length};
ghost use Rattle.orca_names.specs.declared.names.Thing.{Thing as any_thing};
ghost use Rattle.reach_walk.specs.Walk.{AreTold, Notes};

use crate::places::Places;
use orca_names::{NoMemory, Thing};
use ready_set::PlaceSet;
use std::alloc::Global;
use std::collections::BTreeSet;

/// Which things were met, once they are many: a thing with a place is told by the bit of the place,
/// and one without by the set.
#[derive(Drop)]
pub(crate) struct Noted {
    pub(crate) bits: PlaceSet,
    pub(crate) others: BTreeSet<Thing>,
}

impl Noted {
    /// Notes a thing; whether it was not met before.
    #[inline(always)]
    pub(crate) fn note<P: Places>(&mut self, thing: &Thing, places: &P) -> Result<bool, NoMemory>
        requires room { P.count places.now ≤ length self.old.bits }
        ensures notes { (met : List any_thing) → AreTold (P.place places.now) (P.count places.now) self.old met
            → IfOk result (λ is_new.
            Notes (P.place places.now) (P.count places.now) self.new met thing.now is_new) }
        ensures same { length self.new.bits ≡ length self.old.bits }
    {
        self.note_at(thing, places.place_of(thing), places)
    }

    /// Notes a thing by its place, if it has one; whether it was not met before.
    #[inline(always)]
    pub(crate) fn note_at<P: Places>(
        &mut self,
        thing: &Thing,
        at: Option<usize>,
        places: &P,
    ) -> Result<bool, NoMemory>
        requires place { at ≡ P.place places.now thing.now }
        requires room { P.count places.now ≤ length self.old.bits }
        ensures notes { (met : List any_thing) → AreTold (P.place places.now) (P.count places.now) self.old met
            → IfOk result (λ is_new.
            Notes (P.place places.now) (P.count places.now) self.new met thing.now is_new) }
        ensures same { length self.new.bits ≡ length self.old.bits }
    {
        let _ = places;
        match at {
            Some(at) => Ok(self.bits.insert(at)),
            None => Ok(self.others.insert(*thing)?),
        }
    }

    /// What tells no thing yet.
    #[inline(always)]
    pub(crate) fn new<P: Places>(alloc: Global, places: &P) -> Result<Noted, NoMemory>
        ensures { IfOk result (λ noted.
            AreTold (P.place places.now) (P.count places.now) noted []) }
    {
        Ok(Noted {
            bits: PlaceSet::with_places(alloc, places.places())?,
            others: BTreeSet::new(alloc),
        })
    }
}
