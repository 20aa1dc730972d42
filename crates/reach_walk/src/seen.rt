// What a walk has seen.

ghost use Rattle.std.specs.Prelude.{◌≡◌, ◌↔◌, ◌∷◌, [], None, Contains, IfOk, IsTrue, OnOk};
ghost use Rattle.std.specs.List.Sorted.{IsStrictlySortedBy};
ghost use Rattle.orca_names.specs.Names.{thing_cmp};
ghost use Rattle.orca_names.specs.declared.names.Thing.{Thing as any_thing};
ghost use Rattle.orca_names.specs.declared.names.Thing.TheVariants.{Actor as actor};
ghost use Rattle.reach_walk.specs.Walk.{Adds, IsSeen};

use orca_names::{ActorName, NoMemory, Thing};
use std::alloc::Global;
use std::collections::BTreeSet;
use thing_list::{FEW, ThingList, is_among};

/// The things that a walk has met, in the order in which they came, each once.
#[derive(Drop)]
pub(crate) struct Seen {
    pub(crate) things: ThingList,
    // All of them as a set, once they are many: a few are looked through one by one.
    pub(crate) noted: Option<BTreeSet<Thing>>,
    // The last owner that was seen: the next thing mostly has the same one.
    pub(crate) owner: Option<ActorName>,
}

// The things as a set.
#[inline(never)]
fn set_of(alloc: Global, things: &[Thing]) -> Result<BTreeSet<Thing>, NoMemory>
    ensures { IfOk result (λ set. (x : any_thing) → Contains set.keys x ↔ Contains things.now x) }
{
    let mut set = BTreeSet::new(alloc);
    for thing in things {
        set.insert(*thing)?;
    }
    Ok(set)
}

impl Seen {
    /// Nothing was seen yet. It takes no memory.
    pub(crate) fn new(alloc: Global) -> Seen
        ensures none { result.things ≡ [] }
        ensures seen { IsSeen result }
    {
        Seen {
            things: ThingList::new(alloc),
            noted: None,
            owner: None,
        }
    }

    // Sees a thing while nothing is noted. Once the things are no longer few, all are noted.
    #[inline(always)]
    fn see_early(&mut self, thing: &Thing) -> Result<(), NoMemory>
        requires seen { IsSeen self.old }
        requires early { self.old.noted ≡ None }
        ensures adds { OnOk result
            (Adds (thing.now ∷ []) self.old.things self.new.things) }
        ensures seen { OnOk result (IsSeen self.new) }
    {
        if is_among(self.things.as_slice(), thing) {
            return Ok(());
        }
        self.things.push(*thing)?;
        if self.things.len() > FEW {
            let alloc = self.things.allocator();
            self.noted = Some(set_of(alloc, self.things.as_slice())?);
        }
        Ok(())
    }

    /// Sees a thing, which comes last where it was not seen before.
    pub(crate) fn see(&mut self, thing: &Thing) -> Result<(), NoMemory>
        requires { IsSeen self.old }
        ensures adds { OnOk result
            (Adds (thing.now ∷ []) self.old.things self.new.things) }
        ensures seen { OnOk result (IsSeen self.new) }
    {
        match &mut self.noted {
            Some(noted) => {
                if noted.insert(*thing)? {
                    self.things.push(*thing)?;
                }
                Ok(())
            }
            None => self.see_early(thing),
        }
    }

    /// Sees an owner.
    pub(crate) fn see_owner(&mut self, owner: ActorName) -> Result<(), NoMemory>
        requires { IsSeen self.old }
        ensures adds { OnOk result
            (Adds (actor owner ∷ []) self.old.things self.new.things) }
        ensures seen { OnOk result (IsSeen self.new) }
    {
        if self.owner == Some(owner) {
            return Ok(());
        }
        self.see(&Thing::Actor(owner))?;
        self.owner = Some(owner);
        Ok(())
    }

    /// Sees these things.
    pub(crate) fn see_all(&mut self, things: &[Thing]) -> Result<(), NoMemory>
        requires { IsSeen self.old }
        ensures adds { OnOk result (Adds things.now self.old.things self.new.things) }
        ensures seen { OnOk result (IsSeen self.new) }
    {
        for thing in things {
            self.see(thing)?;
        }
        Ok(())
    }

    /// Puts all of them in the order of things.
    #[inline(always)]
    pub(crate) fn sort(&mut self) -> Result<(), NoMemory>
        requires { IsSeen self.old }
        ensures same { OnOk result ((x : any_thing) → Contains self.new.things x
            ↔ Contains self.old.things x) }
        ensures rising { OnOk result (IsStrictlySortedBy thing_cmp self.new.things) }
    {
        self.things.sort()
    }
}
