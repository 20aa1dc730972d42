// What is reachable.

ghost use Rattle.std.specs.Prelude.{◌≡◌, ◌↔◌, ◌≤◌, List, [], ◌++◌, Contains, IfOk, OnOk, flat_map, length};
ghost use Rattle.std.proofs.Common.{ap};
ghost use Rattle.std.specs.List.Sorted.{IsStrictlySortedBy};
ghost use Rattle.std.specs.Option.{option_map_or};
ghost use Rattle.orca_names.specs.Names.{thing_cmp};
ghost use Rattle.orca_names.specs.declared.names.Thing.{Thing as thing};
ghost use Rattle.reach_walk.specs.Reach.{Reaches};
ghost use Rattle.plain_rules.specs.declared.PlainActor.{PlainActor as plain_actor};
ghost use Rattle.plain_rules.specs.Reach.{is_root, plain_edges, roots_from, values_of};
ghost use Rattle.plain_machine.specs.Things.{all_things, edges_are_listed};
ghost use Rattle.orca_names.specs.declared.limits.TheConstants.{ACTORS_LIMIT};

use crate::first::can_act;
use crate::table::{AllRows, actor_at};
use orca_names::{ActorName, NoMemory, Rows, Thing, Value};
use plain_list::Queue;
use plain_rules::{PlainActor, PlainLetter};
use reach_walk::{Edges, walk};
use std::alloc::Global;
use turn_rules::FrameRoom;

/// What leads on in the plain machine: actors and objects.
#[derive(Clone, Copy)]
struct PlainGraph<'a> {
    actors: &'a [PlainActor],
}

impl Edges for PlainGraph<'_> {
    ghost edges = { λ g. plain_edges g.actors.now };

    ghost all = { λ g. all_things g.actors.now };

    ghost Kept = { List plain_actor };

    ghost kept = { λ g. g.actors.now };

    fn push_edges(&mut self, thing: Thing, found: &mut Vec<Value>) -> Result<(), NoMemory> {
        match thing {
            Thing::Actor(a) => match actor_at(self.actors, a) {
                Some(actor) => push_values(actor, found),
                None => Ok(()),
            },
            Thing::Obj(n) => {
                let rows = AllRows {
                    actors: self.actors,
                };
                match rows.row_of(n) {
                    Some(row) => push_all(row, found),
                    None => Ok(()),
                }
            }
        }
    }

    ghost within = { λ g t leads. edges_are_listed g.actors.now t leads };

    ghost same_edges = { λ _ _ same. ap plain_edges same };
}

fn push_all(values: &[Value], found: &mut Vec<Value>) -> Result<(), NoMemory>
    ensures { OnOk result (found.new.items ≡ found.old.items ++ values.now) }
{
    found.extend_from_slice(values)?;
    Ok(())
}

/// The registers of a frame, none where there is none.
fn registers_of(frame: &FrameRoom) -> &[Value]
    ensures { result.now ≡ option_map_or (λ f. f.registers) frame.now [] }
{
    match frame.get() {
        Some(frame) => frame.registers.as_slice(),
        None => &[],
    }
}

/// Appends the values that an actor leads to.
fn push_values(actor: &PlainActor, found: &mut Vec<Value>) -> Result<(), NoMemory>
    ensures { OnOk result (found.new.items ≡ found.old.items ++ values_of actor.now) }
{
    push_all(actor.fields.values.as_slice(), found)?;
    push_all(registers_of(&actor.frame), found)?;
    push_arguments(&actor.letters, found)
}

/// Appends the arguments of letters.
fn push_arguments(letters: &Queue<PlainLetter>, found: &mut Vec<Value>) -> Result<(), NoMemory>
    ensures { OnOk result (found.new.items ≡ found.old.items ++ flat_map (λ l. l.args) letters.now) }
{
    for letter in letters.iter() {
        push_all(letter.args.as_slice(), found)?;
    }
    Ok(())
}

fn is_root(actor: &PlainActor) -> bool
    ensures { result ≡ is_root actor.now }
{
    actor.fields.pinned || can_act(actor)
}

/// The actors that are pinned, have a frame or have a letter.
fn roots(alloc: Global, actors: &[PlainActor]) -> Result<Vec<Thing>, NoMemory>
    requires { length actors.now ≤ ACTORS_LIMIT }
    ensures { IfOk result (λ roots. roots.items ≡ roots_from 0 actors.now) }
{
    let mut roots = Vec::new(alloc);
    for (place, actor) in actors.iter().enumerate() {
        if is_root(actor) {
            roots.push(Thing::Actor(ActorName(place as u32)))?;
        }
    }
    Ok(roots)
}

/// All that is reachable from these actors, in the order of things.
pub(crate) fn reached(alloc: Global, actors: &[PlainActor]) -> Result<Vec<Thing>, NoMemory>
    requires { length actors.now ≤ ACTORS_LIMIT }
    ensures exact { IfOk result (λ found. (x : thing) → Contains found.items x
        ↔ Reaches (plain_edges actors.now) (roots_from 0 actors.now) x) }
    ensures rising { IfOk result (λ found. IsStrictlySortedBy thing_cmp found.items) }
{
    let roots = roots(alloc, actors)?;
    walk(alloc, roots.as_slice(), &mut PlainGraph { actors })
}
