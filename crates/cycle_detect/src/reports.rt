// The reports that are kept.

ghost use Rattle.std.specs.Prelude.{◌≡◌, ℕ, ◌-◌, ◌<◌, ◌≤◌, ◌++◌, [], None, false, filter, length, nat_le, not, OnOk, OnErr, IfOk, replicate, slice_index_or};
ghost use Rattle.std.specs.List.{find};
ghost use Rattle.std.specs.List.Sorted.{IsStrictlySortedBy};
ghost use Rattle.std.specs.Option.{option_copied};
ghost use Rattle.std.specs.Ordering.{nat_cmp};
ghost use Rattle.letter_kinds.specs.Detector.{has, handed_out, reports_of};
ghost use Rattle.cycle_detect.specs.Kept.{actors_of};
ghost use Rattle.cycle_detect.specs.Room.{no_reports};
ghost use Rattle.letter_kinds.specs.Reports.{drop_report, keep_report, kept_report};

use crate::names::number_of;
use letter_kinds::Report;
use orca_names::{ActorName, KeptReport, NoMemory};
use plain_list::Listed;
use ready_set::{PLACES_LIMIT, ReadySet};
use std::alloc::Global;
use std::marker::Model;

/// The kept reports, at most one of each actor, seen as a list in rising order of their actors, and
/// the number below which the reports of actors fit.
#[derive(Debug, Drop)]
pub(crate) struct Reports {
    /// For each actor below a bound, its report.
    slots: Vec<Option<Report>>,
    /// Which actors have one.
    kept: ReadySet,
}

impl Model for Reports {
    ghost use Rattle.std.specs.Prelude.{length};
    ghost use Rattle.cycle_detect.specs.Kept.{reports_in, AreByActor};
    ghost use Rattle.cycle_detect.specs.Room.{ReportsValue};

    ghost Value = { ReportsValue };

    ghost view = { λ r. record { list = reports_in r.slots.items; actors = length r.slots.items } };

    ghost invariant = { λ r. AreByActor r.slots.items r.kept };
}

/// Makes sure that the set has so many places; those that it gets are off.
///
/// # Errors
/// `NoMemory` where memory was refused.
fn widen(kept: &mut ReadySet, count: usize) -> Result<(), NoMemory>
    requires { count ≤ 262144 }
    ensures same { (k : ℕ) → slice_index_or kept.new k false ≡ slice_index_or kept.old k false }
    ensures longer { length kept.old ≤ length kept.new }
    ensures ok { OnOk result (count ≤ length kept.new) }
{
    while kept.len() < count {
        kept.grow()?;
    }
    Ok(())
}

/// Makes so many slots, of which those that are new have no report.
///
/// # Errors
/// `NoMemory` where memory was refused; the slots stay as they were.
fn lengthen(slots: &mut Vec<Option<Report>>, count: usize) -> Result<(), NoMemory>
    requires { length slots.old.items ≤ count }
    ensures ok { OnOk result (slots.new.items
        ≡ slots.old.items ++ replicate (count - length slots.old.items) None) }
    ensures err { OnErr result (slots.new.items ≡ slots.old.items) }
{
    let more = count - slots.len();
    slots.reserve(more)?;
    for _ in 0..more {
        slots.push_reserved(None);
    }
    Ok(())
}

impl Reports {
    /// No report, and no room. It takes no memory.
    pub(crate) fn new(alloc: Global) -> Reports
        ensures { result ≡ no_reports }
    {
        Reports {
            slots: Vec::new(alloc),
            kept: ReadySet::new(alloc),
        }
    }

    /// The report of an actor.
    pub(crate) fn get(&self, actor: ActorName) -> Option<&Report>
        ensures { option_copied result ≡ kept_report self.now.list actor }
    {
        let number = number_of(actor) as usize;
        if number >= self.slots.len() {
            return None;
        }
        self.slots[number].as_ref()
    }

    /// The report of the lowest actor that has one, from this number on.
    pub(crate) fn next(&self, from: usize) -> Option<&Report>
        ensures first { option_copied result ≡ find (λ r. nat_le from r.actor) self.now.list }
        ensures rising { IsStrictlySortedBy nat_cmp (actors_of self.now.list) }
    {
        if from >= self.slots.len() {
            return None;
        }
        match self.kept.next(from as u32) {
            Some(actor) => self.slots[actor as usize].as_ref(),
            None => None,
        }
    }

    /// Takes memory to keep a report of this actor.
    ///
    /// # Errors
    /// `NoMemory` where memory was refused, and for an actor not below `PLACES_LIMIT`; nothing has
    /// changed then.
    pub(crate) fn reserve(&mut self, actor: ActorName) -> Result<(), NoMemory>
        ensures list { self.new.list ≡ self.old.list }
        ensures more { self.old.actors ≤ self.new.actors }
        ensures ok { OnOk result (actor < self.new.actors) }
        ensures err { OnErr result (self.new ≡ self.old) }
    {
        let count = number_of(actor) as usize + 1;
        if count <= self.slots.len() {
            return Ok(());
        }
        if count > PLACES_LIMIT {
            return Err(NoMemory);
        }
        widen(&mut self.kept, count)?;
        lengthen(&mut self.slots, count)
    }

    /// With this report, which takes the place of an older one of its actor. It takes no memory.
    pub(crate) fn keep(&mut self, report: Report)
        requires { report.actor < self.old.actors }
        ensures list { self.new.list ≡ keep_report report self.old.list }
        ensures actors { self.new.actors ≡ self.old.actors }
    {
        let number = number_of(report.actor);
        self.slots[number as usize] = Some(report);
        self.kept.put(number, true);
    }

    /// Without the report of the actor.
    pub(crate) fn drop_of(&mut self, actor: ActorName)
        ensures list { self.new.list ≡ drop_report actor self.old.list }
        ensures actors { self.new.actors ≡ self.old.actors }
    {
        let number = number_of(actor);
        if (number as usize) < self.slots.len() {
            self.slots[number as usize] = None;
            self.kept.put(number, false);
        }
    }

    /// Without the reports of these actors.
    pub(crate) fn drop_all(&mut self, actors: &[ActorName])
        ensures list { self.new.list ≡ filter (λ r. not (has actors.now r.actor)) self.old.list }
        ensures actors { self.new.actors ≡ self.old.actors }
    {
        for actor in actors {
            self.drop_of(*actor);
        }
    }

    /// The reports of these actors, in their order.
    ///
    /// # Errors
    /// `NoMemory` where memory was refused.
    pub(crate) fn of_all(
        &self,
        alloc: Global,
        actors: &[ActorName],
    ) -> Result<Vec<KeptReport>, NoMemory>
        ensures { IfOk result (λ found. found.items ≡ reports_of self.now.list actors.now) }
    {
        let mut found = Vec::new(alloc);
        for actor in actors {
            if let Some(report) = self.get(*actor) {
                found.push(handed_out(alloc, report)?)?;
            }
        }
        Ok(found)
    }
}

/// A copy of the report, to be handed out.
fn handed_out(alloc: Global, report: &Report) -> Result<KeptReport, NoMemory>
    ensures { IfOk result (λ copy. copy ≡ handed_out report.now) }
{
    let mut held = Listed::new(alloc);
    held.extend_from_slice(report.held.as_slice())?;
    Ok(KeptReport {
        actor: report.actor,
        count: report.count,
        held,
    })
}
