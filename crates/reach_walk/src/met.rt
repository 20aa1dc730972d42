// What a walk by places has met.

ghost use Rattle.std.specs.Prelude.{◌≡◌, ◌+◌, ◌≤◌, ◌∷◌, ◌++◌, [], Contains, IfOk, List, OnOk, Some, length};
ghost use Rattle.std.specs.Option.{option_to_list};
ghost use Rattle.orca_names.specs.declared.names.Thing.{Thing as any_thing};
ghost use Rattle.orca_names.specs.declared.names.Thing.TheVariants.{Actor as actor, Obj as object};
ghost use Rattle.reach_walk.specs.Met.{Grows, HasMet, Tells, met_by};

use crate::noted::Noted;
use crate::places::Places;
use orca_names::{ActorName, NoMemory, ObjName, Thing, Value};
use std::alloc::Global;
use std::sync::ledger::Ledger;
use step_count::Steps;

/// The things that a walk by places has met, with their owners.
#[derive(Drop)]
pub(crate) struct Met {
    pub(crate) noted: Noted,
    // The places of the objects, each once, in the order in which they came.
    pub(crate) queue: Vec<usize>,
    // The last owner that was met: the next thing mostly has the same one.
    pub(crate) owner: Option<ActorName>,
}

// A place comes last, if there is one.
#[inline(always)]
fn push_place(queue: &mut Vec<usize>, at: Option<usize>) -> Result<(), NoMemory>
    ensures { OnOk result (queue.new.items ≡ queue.old.items ++ option_to_list at) }
{
    if let Some(at) = at {
        queue.push(at)?;
    }
    Ok(())
}

impl Met {
    /// Nothing was met yet.
    pub(crate) fn new<P: Places>(alloc: Global, places: &P) -> Result<Met, NoMemory>
        ensures met { IfOk result (λ met. HasMet (P.place places.now) (P.count places.now) met []) }
        ensures none { IfOk result (λ met. met.queue.items ≡ []) }
    {
        Ok(Met {
            noted: Noted::new(alloc, places)?,
            queue: Vec::new(alloc),
            owner: None,
        })
    }

    // Meets an owner.
    #[inline(always)]
    fn meet_owner<P: Places>(&mut self, owner: ActorName, places: &P) -> Result<(), NoMemory>
        requires room { P.count places.now ≤ length self.old.noted.bits }
        ensures tells { (things : List any_thing)
            → Tells (P.place places.now) (P.count places.now) self.old things
            → OnOk result (Tells (P.place places.now) (P.count places.now) self.new
            (things ++ actor owner ∷ [])) }
        ensures queue { self.new.queue ≡ self.old.queue }
        ensures same { length self.new.noted.bits ≡ length self.old.noted.bits }
    {
        if self.owner == Some(owner) {
            return Ok(());
        }
        self.noted.note(&Thing::Actor(owner), places)?;
        self.owner = Some(owner);
        Ok(())
    }

    // Meets an object, and its owner.
    #[inline(always)]
    fn meet_object<P: Places>(&mut self, n: ObjName, places: &P) -> Result<(), NoMemory>
        requires room { P.count places.now ≤ length self.old.noted.bits }
        ensures met { (things : List any_thing)
            → HasMet (P.place places.now) (P.count places.now) self.old things
            → OnOk result (HasMet (P.place places.now) (P.count places.now) self.new
            (things ++ object n ∷ actor n.owner ∷ [])) }
        ensures queue { OnOk result (Grows self.old.queue.items self.new.queue.items) }
        ensures same { length self.new.noted.bits ≡ length self.old.noted.bits }
    {
        let thing = Thing::Obj(n);
        let at = places.place_of(&thing);
        if !self.noted.note_at(&thing, at, places)? {
            return Ok(());
        }
        push_place(&mut self.queue, at)?;
        self.meet_owner(n.owner, places)
    }

    /// Meets an object by its place, whose owner was met before.
    #[inline(always)]
    pub(crate) fn meet_placed<P: Places>(
        &mut self,
        n: ObjName,
        at: usize,
        places: &P,
    ) -> Result<(), NoMemory>
        requires place { P.place places.now (object n) ≡ Some at }
        requires room { P.count places.now ≤ length self.old.noted.bits }
        ensures met { (things : List any_thing)
            → HasMet (P.place places.now) (P.count places.now) self.old things
            → Contains things (actor n.owner)
            → OnOk result (HasMet (P.place places.now) (P.count places.now) self.new
            (things ++ object n ∷ actor n.owner ∷ [])) }
        ensures queue { OnOk result (Grows self.old.queue.items self.new.queue.items) }
        ensures same { length self.new.noted.bits ≡ length self.old.noted.bits }
    {
        if !self.noted.note_at(&Thing::Obj(n), Some(at), places)? {
            return Ok(());
        }
        push_place(&mut self.queue, Some(at))
    }

    /// Meets what a value names, and its owner: a look at the value, which is a step.
    #[inline(always)]
    pub(crate) fn meet<P: Places, L: Ledger>(
        &mut self,
        value: &Value,
        places: &P,
        steps: &mut Steps<L>,
    ) -> Result<(), NoMemory>
        requires room { P.count places.now ≤ length self.old.noted.bits }
        ensures met { (things : List any_thing)
            → HasMet (P.place places.now) (P.count places.now) self.old things
            → OnOk result (HasMet (P.place places.now) (P.count places.now) self.new
            (things ++ met_by (value.now ∷ []))) }
        ensures queue { OnOk result (Grows self.old.queue.items self.new.queue.items) }
        ensures same { length self.new.noted.bits ≡ length self.old.noted.bits }
        ensures step { steps.new ≡ steps.old + 1 }
    {
        steps.tick();
        match value {
            Value::Obj(n) => self.meet_object(*n, places),
            Value::Actor(a) => self.meet_owner(*a, places),
            _ => Ok(()),
        }
    }

    /// Meets what the values name, and the owners of that, by a step for each value.
    #[inline(always)]
    pub(crate) fn meet_all<P: Places, L: Ledger>(
        &mut self,
        values: &[Value],
        places: &P,
        steps: &mut Steps<L>,
    ) -> Result<(), NoMemory>
        requires room { P.count places.now ≤ length self.old.noted.bits }
        ensures met { (things : List any_thing)
            → HasMet (P.place places.now) (P.count places.now) self.old things
            → OnOk result (HasMet (P.place places.now) (P.count places.now) self.new
            (things ++ met_by values.now)) }
        ensures queue { OnOk result (Grows self.old.queue.items self.new.queue.items) }
        ensures same { length self.new.noted.bits ≡ length self.old.noted.bits }
        ensures steps { OnOk result (steps.new ≡ steps.old + length values.now) }
    {
        for value in values {
            self.meet(value, places, steps)?;
        }
        Ok(())
    }
}
