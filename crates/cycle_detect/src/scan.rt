// The largest closed set: reports that the others do not cover fall, one after another.

ghost use Rattle.std.specs.Prelude.{◌≡◌, ℕ, ◌+◌, ◌*◌, ◌<◌, ◌≤◌, ◌++◌, ◌∷◌, ◌==◌, [], false, true, Some, IfNone, IfOk, IfSome, OnOk, length, replicate, slice_get, slice_index};
ghost use Rattle.letter_kinds.specs.Closed.{largest_closed};
ghost use Rattle.letter_kinds.specs.Detector.{has, in_token};
ghost use Rattle.letter_kinds.specs.Reports.{told_on, told_on_by};
ghost use Rattle.cycle_detect.specs.Falling.{free_reports, held_count, held_left, step_bound, those_left, told_in, told_without};
ghost use Rattle.cycle_detect.specs.Kept.{actors_of, reports_at};
ghost use Rattle.detector_tokens.specs.Marks.{unmarked_names};
ghost use Rattle.std.specs.List.Sorted.{IsStrictlySortedBy};
ghost use Rattle.std.specs.Ordering.{nat_cmp};
ghost use Rattle.cycle_detect.specs.Sums.{AreEnough, AreLowered, AreRaised, AreSums};
ghost use Rattle.cycle_detect.specs.Worklist.{Falls, IsFalling, IsLong, StayFalling, Stays, unsettled};

use crate::names::number_of;
use crate::reports::Reports;
use detector_tokens::{Tokens, place_of};
use letter_kinds::Report;
use orca_names::{ActorName, NoMemory};
use std::alloc::Global;
use std::sync::ledger::Ledger;
use step_count::Steps;

/// The reports of actors in no open token.
fn candidates<'a, L: Ledger>(
    alloc: Global,
    reports: &'a Reports,
    tokens: &Tokens,
    steps: &mut Steps<L>,
) -> Result<Vec<&'a Report>, NoMemory>
    ensures found { IfOk result (λ v. reports_at v.items
        ≡ free_reports tokens.now.list reports.now.list) }
    ensures rising { IsStrictlySortedBy nat_cmp (actors_of reports.now.list) }
    ensures cost { steps.new ≤ steps.old + length reports.now.list }
{
    let mut found = Vec::new(alloc);
    let mut from = 0;
    while let Some(report) = reports.next(from) {
        steps.tick();
        from = number_of(report.actor) as usize + 1;
        if !tokens.has_member(report.actor) {
            found.push(report)?;
        }
    }
    Ok(found)
}

/// The actors of these reports.
fn actors<L: Ledger>(
    alloc: Global,
    reports: &[&Report],
    steps: &mut Steps<L>,
) -> Result<Vec<ActorName>, NoMemory>
    ensures found { IfOk result (λ v. v.items ≡ actors_of (reports_at reports.now)) }
    ensures cost { steps.new ≤ steps.old + length reports.now }
{
    let mut found = Vec::new(alloc);
    for report in reports {
        steps.tick();
        found.push(report.actor)?;
    }
    Ok(found)
}

/// Where the actor stands among these, on which another one tells.
fn place_told<L: Ledger>(
    names: &[ActorName],
    teller: ActorName,
    actor: ActorName,
    steps: &mut Steps<L>,
) -> Option<usize>
    requires rising { IsStrictlySortedBy nat_cmp names.now }
    ensures some { IfSome result (λ k. slice_get names.now k ≡ Some actor) }
    ensures other { IfSome result (λ k. (actor == teller) ≡ false) }
    ensures none { IfNone result ((count k : ℕ) → k < length names.now
        → told_in (actor, count) teller (slice_index names.now k) ≡ 0) }
    ensures cost { steps.new ≤ steps.old + 2 }
{
    steps.tick();
    if actor == teller {
        return None;
    }
    steps.tick();
    place_of(names, actor)
}

/// Adds to an actor's sum what another one tells on it.
///
/// # Errors
/// `NoMemory` where the sum does not fit: it is of more counts than memory holds.
fn add_entry<L: Ledger>(
    names: &[ActorName],
    teller: ActorName,
    entry: (ActorName, u64),
    told: &mut [u128],
    steps: &mut Steps<L>,
) -> Result<(), NoMemory>
    requires rising { IsStrictlySortedBy nat_cmp names.now }
    requires long { length told.old ≡ length names.now }
    ensures added { OnOk result (AreRaised names.now (told_in entry teller) told.old told.new) }
    ensures cost { steps.new ≤ steps.old + 2 }
{
    let Some(k) = place_told(names, teller, entry.0, steps) else {
        return Ok(());
    };
    let Some(sum) = told[k].checked_add(u128::from(entry.1)) else {
        return Err(NoMemory);
    };
    told[k] = sum;
    Ok(())
}

/// Adds what a report tells on each of these actors.
fn add_told<L: Ledger>(
    names: &[ActorName],
    report: &Report,
    told: &mut [u128],
    steps: &mut Steps<L>,
) -> Result<(), NoMemory>
    requires rising { IsStrictlySortedBy nat_cmp names.now }
    requires long { length told.old ≡ length names.now }
    ensures added { OnOk result (AreRaised names.now (λ x. told_on x report.now) told.old told.new) }
    ensures cost { steps.new ≤ steps.old + 2 * length report.now.held }
{
    for entry in report.held.as_slice() {
        add_entry(names, report.actor, *entry, told, steps)?;
    }
    Ok(())
}

/// Adds what all these reports tell.
fn add_all<L: Ledger>(
    names: &[ActorName],
    reports: &[&Report],
    told: &mut [u128],
    steps: &mut Steps<L>,
) -> Result<(), NoMemory>
    requires rising { IsStrictlySortedBy nat_cmp names.now }
    requires long { length told.old ≡ length names.now }
    ensures added { OnOk result (AreRaised names.now
        (λ x. told_on_by x (reports_at reports.now)) told.old told.new) }
    ensures cost { steps.new ≤ steps.old + length reports.now
        + 2 * held_count (reports_at reports.now) }
{
    for report in reports {
        steps.tick();
        add_told(names, report, told, steps)?;
    }
    Ok(())
}

/// What these reports tell on each of their actors.
fn sums_told<L: Ledger>(
    alloc: Global,
    names: &[ActorName],
    reports: &[&Report],
    steps: &mut Steps<L>,
) -> Result<Vec<u128>, NoMemory>
    requires rising { IsStrictlySortedBy nat_cmp names.now }
    ensures long { IfOk result (λ v. length v.items ≡ length names.now) }
    ensures told { IfOk result (λ v. AreSums names.now
        (λ x. told_on_by x (reports_at reports.now)) v.items) }
    ensures cost { steps.new ≤ steps.old + length reports.now
        + 2 * held_count (reports_at reports.now) }
{
    let mut told = vec![in alloc; 0; names.len()]?;
    add_all(names, reports, &mut told, steps)?;
    Ok(told)
}

/// Which reports stand, and which have fallen, since those that stand do not cover them.
#[derive(Drop)]
struct Standing {
    /// What is told on each actor by the reports whose counts were not taken off.
    told: Vec<u128>,
    /// Whether each report has fallen.
    out: Vec<bool>,
    /// Fallen reports whose counts are still to be taken off.
    work: Vec<usize>,
}

/// Lets the report at this place fall, unless it has fallen or its count is told on it.
fn check(k: usize, count: u64, standing: &mut Standing) -> Result<(), NoMemory>
    requires told { k < length standing.old.told.items }
    requires out { k < length standing.old.out.items }
    ensures told { standing.new.told.items ≡ standing.old.told.items }
    ensures long { length standing.new.out.items ≡ length standing.old.out.items }
    ensures stays { OnOk result (Stays k count standing.old standing.new) }
    ensures falls { OnOk result (Falls k count standing.old standing.new) }
{
    if !standing.out[k] && standing.told[k] < u128::from(count) {
        standing.work.push(k)?;
        standing.out[k] = true;
    }
    Ok(())
}

/// Takes off an actor's sum what a report that fell tells on it.
fn take_entry<L: Ledger>(
    names: &[ActorName],
    reports: &[&Report],
    teller: ActorName,
    entry: (ActorName, u64),
    standing: &mut Standing,
    steps: &mut Steps<L>,
) -> Result<(), NoMemory>
    requires rising { IsStrictlySortedBy nat_cmp names.now }
    requires names { names.now ≡ actors_of (reports_at reports.now) }
    requires long { IsLong (length names.now) standing.old }
    requires enough { AreEnough names.now (told_in entry teller) standing.old.told.items }
    ensures long { IsLong (length names.now) standing.new }
    ensures lowered { OnOk result (AreLowered names.now (told_in entry teller)
        standing.old.told.items standing.new.told.items) }
    ensures falling { OnOk result (StayFalling (reports_at reports.now) names.now
        (told_in entry teller) standing.old standing.new) }
    ensures size { OnOk result (unsettled standing.new ≡ unsettled standing.old) }
    ensures cost { steps.new ≤ steps.old + 2 }
{
    let Some(k) = place_told(names, teller, entry.0, steps) else {
        return Ok(());
    };
    standing.told[k] -= u128::from(entry.1);
    check(k, reports[k].count, standing)
}

/// Takes off what a report that fell tells.
fn take_told<L: Ledger>(
    names: &[ActorName],
    reports: &[&Report],
    report: &Report,
    standing: &mut Standing,
    steps: &mut Steps<L>,
) -> Result<(), NoMemory>
    requires rising { IsStrictlySortedBy nat_cmp names.now }
    requires names { names.now ≡ actors_of (reports_at reports.now) }
    requires long { IsLong (length names.now) standing.old }
    requires enough { AreEnough names.now (λ x. told_on x report.now) standing.old.told.items }
    ensures long { OnOk result (IsLong (length names.now) standing.new) }
    ensures lowered { OnOk result (AreLowered names.now (λ x. told_on x report.now)
        standing.old.told.items standing.new.told.items) }
    ensures falling { OnOk result (StayFalling (reports_at reports.now) names.now
        (λ x. told_on x report.now) standing.old standing.new) }
    ensures size { OnOk result (unsettled standing.new ≡ unsettled standing.old) }
    ensures cost { steps.new ≤ steps.old + 2 * length report.now.held }
{
    for entry in report.held.as_slice() {
        take_entry(names, reports, report.actor, *entry, standing, steps)?;
    }
    Ok(())
}

/// Takes off what the report at this place tells, if that was not done before.
fn take_off<L: Ledger>(
    names: &[ActorName],
    reports: &[&Report],
    i: usize,
    off: &mut [bool],
    standing: &mut Standing,
    steps: &mut Steps<L>,
) -> Result<(), NoMemory>
    requires rising { IsStrictlySortedBy nat_cmp names.now }
    requires names { names.now ≡ actors_of (reports_at reports.now) }
    requires place { (i < length names.now) × (length off.old ≡ length names.now) }
    requires falling { IsFalling (reports_at reports.now) (length names.now) off.old standing.old
        (standing.old.work.items ++ i ∷ []) }
    requires told { AreSums names.now (told_without (reports_at reports.now) off.old)
        standing.old.told.items }
    ensures falling { OnOk result (IsFalling (reports_at reports.now) (length names.now) off.new
        standing.new standing.new.work.items) }
    ensures told { OnOk result (AreSums names.now (told_without (reports_at reports.now) off.new)
        standing.new.told.items) }
    ensures size { OnOk result (unsettled standing.new ≡ unsettled standing.old) }
    ensures cost { steps.new + 2 * held_left (reports_at reports.now) off.new
        ≤ steps.old + 2 * held_left (reports_at reports.now) off.old }
{
    if off[i] {
        return Ok(());
    }
    off[i] = true;
    take_told(names, reports, reports[i], standing, steps)
}

/// Lets the reports fall that the others do not cover at first.
fn first_falls<L: Ledger>(
    names: &[ActorName],
    reports: &[&Report],
    standing: &mut Standing,
    steps: &mut Steps<L>,
) -> Result<(), NoMemory>
    requires rising { IsStrictlySortedBy nat_cmp names.now }
    requires names { names.now ≡ actors_of (reports_at reports.now) }
    requires long { length standing.old.told.items ≡ length names.now }
    requires told { AreSums names.now (λ x. told_on_by x (reports_at reports.now))
        standing.old.told.items }
    requires none { standing.old.out.items ≡ replicate (length names.now) false }
    requires no_work { standing.old.work.items ≡ [] }
    ensures told { standing.new.told.items ≡ standing.old.told.items }
    ensures falling { OnOk result (IsFalling (reports_at reports.now) (length names.now)
        (replicate (length names.now) false) standing.new standing.new.work.items) }
    ensures size { OnOk result (unsettled standing.new ≡ length names.now) }
    ensures cost { steps.new ≤ steps.old + length names.now }
{
    for k in 0..reports.len() {
        steps.tick();
        check(k, reports[k].count, standing)?;
    }
    Ok(())
}

/// Takes off what those that fell tell, until those that stand cover one another.
fn settle<L: Ledger>(
    names: &[ActorName],
    reports: &[&Report],
    off: &mut [bool],
    standing: &mut Standing,
    steps: &mut Steps<L>,
) -> Result<(), NoMemory>
    requires rising { IsStrictlySortedBy nat_cmp names.now }
    requires names { names.now ≡ actors_of (reports_at reports.now) }
    requires long { length off.old ≡ length names.now }
    requires falling { IsFalling (reports_at reports.now) (length names.now) off.old standing.old
        standing.old.work.items }
    requires told { AreSums names.now (told_without (reports_at reports.now) off.old)
        standing.old.told.items }
    ensures long { OnOk result (length standing.new.out.items ≡ length names.now) }
    ensures settled { OnOk result (those_left (reports_at reports.now) standing.new.out.items
        ≡ largest_closed (reports_at reports.now)) }
    ensures cost { steps.new ≤ steps.old + unsettled standing.old
        + 2 * held_left (reports_at reports.now) off.old }
{
    while let Some(i) = standing.work.pop() {
        steps.tick();
        take_off(names, reports, i, off, standing, steps)?;
    }
    Ok(())
}

/// Those of the names whose mark is off.
fn unmarked<L: Ledger>(
    alloc: Global,
    names: &[ActorName],
    marks: &[bool],
    steps: &mut Steps<L>,
) -> Result<Vec<ActorName>, NoMemory>
    requires rising { IsStrictlySortedBy nat_cmp names.now }
    requires long { length marks.now ≡ length names.now }
    ensures found { IfOk result (λ v. v.items ≡ unmarked_names names.now marks.now) }
    ensures cost { steps.new ≤ steps.old + length names.now }
{
    let mut found = Vec::new(alloc);
    for k in 0..names.len() {
        steps.tick();
        if !marks[k] {
            found.push(names[k])?;
        }
    }
    Ok(found)
}

/// The members of the largest closed set among these reports.
fn largest_among<L: Ledger>(
    alloc: Global,
    names: &[ActorName],
    reports: &[&Report],
    steps: &mut Steps<L>,
) -> Result<Vec<ActorName>, NoMemory>
    requires rising { IsStrictlySortedBy nat_cmp names.now }
    requires names { names.now ≡ actors_of (reports_at reports.now) }
    ensures found { IfOk result (λ v. v.items
        ≡ actors_of (largest_closed (reports_at reports.now))) }
    ensures cost { steps.new ≤ steps.old + 4 * length names.now
        + 4 * held_count (reports_at reports.now) }
{
    let told = sums_told(alloc, names, reports, steps)?;
    let out = vec![in alloc; false; names.len()]?;
    let mut off = vec![in alloc; false; names.len()]?;
    let mut standing = Standing {
        told,
        out,
        work: Vec::new(alloc),
    };
    first_falls(names, reports, &mut standing, steps)?;
    settle(names, reports, &mut off, &mut standing, steps)?;
    unmarked(alloc, names, &standing.out, steps)
}

/// The members of the largest closed set among the reports of actors in no open token.
pub(crate) fn closed_set<L: Ledger>(
    alloc: Global,
    reports: &Reports,
    tokens: &Tokens,
    steps: &mut Steps<L>,
) -> Result<Vec<ActorName>, NoMemory>
    ensures found { IfOk result (λ v. v.items
        ≡ actors_of (largest_closed (free_reports tokens.now.list reports.now.list))) }
    ensures rising { IfOk result (λ v. IsStrictlySortedBy nat_cmp v.items) }
    ensures apart { IfOk result (λ v. (m : ℕ) → has v.items m ≡ true
        → in_token tokens.now.list m ≡ false) }
    ensures cost { steps.new ≤ steps.old + step_bound reports.now.list }
{
    let candidates = candidates(alloc, reports, tokens, steps)?;
    let names = actors(alloc, &candidates, steps)?;
    largest_among(alloc, &names, &candidates, steps)
}
