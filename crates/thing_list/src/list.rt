// A list of things, a short one in place.

ghost use Rattle.std.specs.Prelude.{◌≡◌, ◌<◌, ◌++◌, ◌∷◌, [], Contains, List, Some, length, slice_get, IfOk, OnOk};
ghost use Rattle.std.specs.List.Sorted.{IsPermutation, IsSorted, IsStrictlySortedBy};
ghost use Rattle.orca_names.specs.Names.{thing_cmp};
ghost use Rattle.orca_names.specs.declared.names.Thing.{Thing as any_thing};
ghost use Rattle.thing_list.specs.Putting.{put_in_order};

use orca_names::{ActorName, NoMemory, Thing};
use std::alloc::Global;
use std::marker::Model;

/// So many things stand in the list itself: most loads have no more.
pub const FEW: usize = 8;

/// Things in the order in which they came, seen by contracts as that list. A short list takes no
/// memory.
#[derive(Drop)]
pub struct ThingList {
    // The first of these, unless they are many.
    few: [Thing; FEW],
    count: usize,

    // All of them, once they are more than a few.
    many: Vec<Thing>,
}

impl Model for ThingList {
    ghost use Rattle.std.specs.Prelude.{List};
    ghost use Rattle.orca_names.specs.declared.names.Thing.{Thing as thing};
    ghost use Rattle.thing_list.specs.Listed.{listed_in, HasPlaces};

    ghost Value = { List thing };

    ghost view = { λ s. listed_in s.few s.count s.many.items };

    ghost invariant = { λ s. HasPlaces s.few s.count };
}

// One thing more than a few: all of them move, into memory that was kept where there is any.
#[inline(never)]
fn spill(few: &[Thing; FEW], thing: Thing, many: &mut Vec<Thing>) -> Result<(), NoMemory>
    requires { many.old.items ≡ [] }
    ensures { OnOk result (many.new.items ≡ few.now ++ thing ∷ []) }
{
    many.reserve(4 * FEW)?;
    many.extend_from_slice(few)?;
    many.push(thing)?;
    Ok(())
}

// The last thing moves down to its place among the others.
fn settle(things: &mut [Thing])
    ensures settles { (front : List any_thing) (x : any_thing) → things.old ≡ front ++ x ∷ []
        → IsStrictlySortedBy thing_cmp front → (Contains front x → ⊥)
        → things.new ≡ put_in_order x front }
    ensures len { length things.new ≡ length things.old }
{
    let Some(thing) = things.last().copied() else {
        return;
    };
    let mut i = things.len() - 1;
    while i > 0 && thing.cmp(&things[i - 1]).is_lt() {
        things[i] = things[i - 1];
        i -= 1;
    }
    things[i] = thing;
}

impl ThingList {
    /// No things yet.
    pub fn new(alloc: Global) -> ThingList
        ensures { result ≡ [] }
    {
        ThingList {
            few: [Thing::Actor(ActorName(0)); FEW],
            count: 0,
            many: Vec::new(alloc),
        }
    }

    /// The allocator that longer lists take their memory from.
    pub fn allocator(&self) -> Global {
        *self.many.allocator()
    }

    /// How many there are.
    pub fn len(&self) -> usize
        ensures { result ≡ length self.now }
    {
        if self.many.is_empty() {
            self.count
        } else {
            self.many.len()
        }
    }

    /// The things, in their order.
    pub fn as_slice(&self) -> &[Thing]
        ensures { result.now ≡ self.now }
    {
        if self.many.is_empty() {
            let few = &self.few;
            &few[..self.count]
        } else {
            self.many.as_slice()
        }
    }

    /// The thing at a place, counted from 0.
    pub fn at(&self, i: usize) -> Thing
        requires { i < length self.now }
        ensures { slice_get self.now i ≡ Some result }
    {
        self.as_slice()[i]
    }

    /// One thing more, at the end.
    ///
    /// # Errors
    /// `NoMemory` where memory was refused; what is held then is left open.
    #[inline(always)]
    pub fn push(&mut self, thing: Thing) -> Result<(), NoMemory>
        ensures { OnOk result (self.new ≡ self.old ++ thing ∷ []) }
    {
        if !self.many.is_empty() {
            self.many.push(thing)?;
            return Ok(());
        }
        if self.count < FEW {
            let few = &mut self.few;
            few[self.count] = thing;
            self.count += 1;
            return Ok(());
        }
        spill(&self.few, thing, &mut self.many)
    }

    /// One thing more, in its place: the others are in order, and it is none of them.
    pub(crate) fn insert(&mut self, thing: Thing) -> Result<(), NoMemory>
        requires rising { IsStrictlySortedBy thing_cmp self.old }
        requires fresh { Contains self.old thing → ⊥ }
        ensures { OnOk result (self.new ≡ put_in_order thing self.old) }
    {
        self.push(thing)?;
        if self.many.is_empty() {
            let few = &mut self.few;
            settle(&mut few[..self.count]);
        } else {
            settle(self.many.as_mut_slice());
        }
        Ok(())
    }

    /// Drops all of them, and keeps what memory it took.
    pub fn clear(&mut self)
        ensures { self.new ≡ [] }
    {
        self.count = 0;
        self.many.clear();
    }

    /// Puts them in the order of things. It goes over them only a few times where they were put
    /// together from a few lists in order, and takes no memory while they are few.
    ///
    /// # Errors
    /// `NoMemory` where memory was refused; what is held then is left open.
    pub fn sort(&mut self) -> Result<(), NoMemory>
        ensures same { OnOk result (IsPermutation self.old self.new) }
        ensures sorted { OnOk result (IsSorted thing_cmp self.new) }
    {
        if self.many.is_empty() {
            let few = &mut self.few;
            few[..self.count].sort_unstable();
        } else {
            self.many.sort()?;
        }
        Ok(())
    }

    /// The things as a `Vec`, in their order.
    ///
    /// # Errors
    /// `NoMemory` where memory was refused.
    pub fn into_vec(self, alloc: Global) -> Result<Vec<Thing>, NoMemory>
        ensures { IfOk result (λ things. things.items ≡ self) }
    {
        if self.many.is_empty() {
            return Ok(self.as_slice().to_vec(alloc)?);
        }
        let ThingList { many, .. } = self;
        Ok(many)
    }
}
