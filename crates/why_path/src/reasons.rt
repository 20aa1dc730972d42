// Why each thing that is left is left.

ghost use Rattle.std.specs.Prelude.{◌≡◌, [], length, map, not, IfOk, OnOk};
ghost use Rattle.std.specs.List.{filter};
ghost use Rattle.orca_core.specs.Machine.{NoneIsAway};
ghost use Rattle.why_path.specs.Checks.{is_loose};
ghost use Rattle.why_path.specs.Reasons.{AreReasons};
ghost use Rattle.why_path.specs.Walk.{IsDoneTo, first_line};

use crate::causes::cause_of;
use crate::walk::{Walk, is_loose};
use orca_core::Orca;
use orca_names::{NoMemory, Reason, Thing, Why};
use std::alloc::Global;
use std::mem;

// The lines of these things before the walk: those of roots, and loose ones.
fn first_lines(alloc: Global, orca: &Orca<'_>, things: &[Thing]) -> Result<Vec<Reason>, NoMemory>
    requires { NoneIsAway orca.now }
    ensures { IfOk result (λ reasons. reasons.items
        ≡ map (first_line orca.now.state.actors) things.now) }
{
    let mut reasons = Vec::new(alloc);
    for thing in things {
        let why = cause_of(orca, thing).unwrap_or(Why::Loose);
        reasons.push(Reason {
            thing: *thing,
            level: 0,
            why,
        })?;
    }
    Ok(reasons)
}

// The things whose lines are not loose.
fn kept_among(alloc: Global, reasons: &[Reason]) -> Result<Vec<Thing>, NoMemory>
    ensures { IfOk result (λ things. things.items
        ≡ map (λ r. r.thing) (filter (λ r. not (is_loose r.why)) reasons.now)) }
{
    let mut things = Vec::new(alloc);
    for line in reasons {
        if !is_loose(&line.why) {
            things.push(line.thing)?;
        }
    }
    Ok(things)
}

impl Walk {
    // Walks to the end; at most so many levels have a thing.
    fn finish(&mut self, alloc: Global, orca: &Orca<'_>, most: u64) -> Result<(), NoMemory>
        requires home { NoneIsAway orca.now }
        requires none { orca.now.blocks ≡ [] }
        requires start { IsDoneTo orca.now.state.actors 0 self.old }
        requires most { most ≡ length self.old.reasons.items }
        ensures { OnOk result (AreReasons orca.now.state.actors self.new.reasons.items) }
    {
        // What a path leads to is left.
        orca.keeps_the_reachable();
        orca.weight_is_above_zero();
        for level in 0..most {
            if self.next.is_empty() {
                return Ok(());
            }
            let mut front = mem::replace(&mut self.next, Vec::new(alloc));
            front.sort_unstable();
            self.reach_level(orca, front.as_slice(), level + 1)?;
        }
        Ok(())
    }
}

/// Why each thing that is left is left, in the order of things: a root with its first cause; what else
/// is reached with its level, which is the least number of edges from a root, and with the least thing
/// one level lower that leads to it, by its first edge that does; the rest is loose. It looks once
/// along each edge. The machine has no blocks.
///
/// # Errors
/// `NoMemory` where memory was refused.
pub fn explain(alloc: Global, orca: &Orca<'_>) -> Result<Vec<Reason>, NoMemory>
    requires home { NoneIsAway orca.now }
    requires none { orca.now.blocks ≡ [] }
    ensures { IfOk result (λ reasons. AreReasons orca.now.state.actors reasons.items) }
{
    let things = orca.left(alloc)?;
    let reasons = first_lines(alloc, orca, things.as_slice())?;
    let next = kept_among(alloc, reasons.as_slice())?;
    let mut walk = Walk { reasons, next };
    walk.finish(alloc, orca, things.len() as u64)?;
    Ok(walk.reasons)
}
