// The walk.

ghost use Rattle.std.specs.Prelude.{◌≡◌, ◌↔◌, ◌++◌, Contains, IfOk, OnOk};
ghost use Rattle.std.specs.List.Sorted.{IsStrictlySortedBy};
ghost use Rattle.orca_names.specs.Names.{thing_cmp};
ghost use Rattle.orca_names.specs.declared.names.Thing.{Thing as thing};
ghost use Rattle.reach_walk.specs.Reach.{named_by, AreReached};
ghost use Rattle.reach_walk.specs.Walk.{next_of};

use crate::edges::Edges;
use crate::seen::Seen;
use orca_names::{NoMemory, Thing, Value};
use std::alloc::Global;

/// Appends the things that the values name.
pub(crate) fn push_named(things: &mut Vec<Thing>, values: &[Value]) -> Result<(), NoMemory>
    ensures { OnOk result (things.new.items ≡ things.old.items ++ named_by values.now) }
{
    for value in values {
        if let Some(thing) = value.thing() {
            things.push(thing)?;
        }
    }
    Ok(())
}

// Where a walk goes on from a thing. The first buffer is for the values of its edges.
fn find_next<E: Edges>(
    graph: &mut E,
    thing: Thing,
    values: &mut Vec<Value>,
    next: &mut Vec<Thing>,
) -> Result<(), NoMemory>
    ensures ok { OnOk result (next.new.items ≡ next_of (E.edges graph.old) thing) }
    ensures kept { E.kept graph.new ≡ E.kept graph.old }
{
    values.clear();
    graph.push_edges(thing, values)?;
    next.clear();
    next.push(Thing::Actor(thing.owner()))?;
    push_named(next, values.as_slice())
}

/// All that the roots reach along the edges of a graph, in the order of things, each once.
///
/// # Errors
/// `NoMemory` where memory was refused.
pub fn walk<E: Edges>(alloc: Global, roots: &[Thing], graph: &mut E) -> Result<Vec<Thing>, NoMemory>
    ensures exact { IfOk result (λ found. AreReached (E.edges graph.old) roots.now found.items) }
    ensures rising { IfOk result (λ found. IsStrictlySortedBy thing_cmp found.items) }
    ensures kept { E.kept graph.new ≡ E.kept graph.old }
{
    let mut seen = Seen::new(alloc);
    let mut values = Vec::new(alloc);
    let mut next = Vec::new(alloc);
    seen.see_all(roots)?;
    let mut at = 0;
    while at < seen.things.len() {
        let thing = seen.things.at(at);
        find_next(graph, thing, &mut values, &mut next)?;
        seen.see_all(next.as_slice())?;
        at += 1;
    }
    seen.sort()?;
    let Seen { things, .. } = seen;
    things.into_vec(alloc)
}
