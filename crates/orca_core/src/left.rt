// What is left.

ghost use Rattle.std.specs.Prelude.{◌≡◌, ◌↔◌, ◌++◌, Contains, IfOk, OnOk};
ghost use Rattle.std.specs.List.Sorted.{IsStrictlySortedBy};
ghost use Rattle.orca_names.specs.Names.{thing_cmp};
ghost use Rattle.orca_names.specs.declared.names.Thing.{Thing as a_thing};
ghost use Rattle.machine_rules.specs.Left.{IsLeft};
ghost use Rattle.orca_core.specs.Left.{things_of};
ghost use Rattle.orca_core.specs.Machine.{NoneIsAway};

use crate::machine::Orca;
use actor_cell::Cell;
use orca_names::{ActorName, NoMemory, Thing};
use std::alloc::Global;

/// The actor and its objects.
fn push_things(things: &mut Vec<Thing>, cell: &Cell) -> Result<(), NoMemory>
    ensures { OnOk result (things.new.items ≡ things.old.items ++ things_of cell.now) }
{
    things.push(Thing::Actor(cell.heap.owner()))?;
    for i in 0..cell.heap.len() {
        let (name, _, _) = cell.heap.at(i);
        things.push(Thing::Obj(name))?;
    }
    Ok(())
}

impl<'a> Orca<'a> {
    /// All that is left, in the order of things.
    ///
    /// # Errors
    /// `NoMemory` where memory was refused.
    pub fn left(&self, alloc: Global) -> Result<Vec<Thing>, NoMemory>
        requires { NoneIsAway self.now }
        ensures exact { IfOk result (λ found. (x : a_thing) → Contains found.items x
            ↔ IsLeft self.now.state.actors x) }
        ensures rising { IfOk result (λ found. IsStrictlySortedBy thing_cmp found.items) }
    {
        // The state is reached by a run, so few actors were made.
        let _ = &self.core;
        let mut things = Vec::new(alloc);
        for a in 0..self.made() {
            if let Some(cell) = self.cell(ActorName(a as u32)) {
                push_things(&mut things, cell)?;
            }
        }
        Ok(things)
    }
}
