// An event becomes the last entry of the book.

ghost use Rattle.std.specs.Prelude.{◌≡◌, ◌≢◌, ◌+◌, ◌<◌, ◌≤◌, ℕ, [], IfErr, IfOk, None, OnOk};
ghost use Rattle.orca_names.specs.declared.limits.TheConstants.{BOOK_LIMIT};
ghost use Rattle.event_rule.specs.Runs.{Goes, Step};
ghost use Rattle.event_rule.specs.declared.event.Event.{Event};
ghost use Rattle.machine_rules.specs.State.{State};
ghost use Rattle.machine_rules.specs.Next.{next};
ghost use Rattle.orca_parts.specs.Away.{KeepsAway};
ghost use Rattle.orca_parts.specs.Faults.{IsFault};
ghost use Rattle.orca_parts.specs.Woken.{IsLowestWoken};
ghost use Rattle.orca_core.specs.Machine.{Fits, IsSame};
ghost use Rattle.run_book.specs.Books.{options_of_book};
ghost use Rattle.hall_rules.specs.Causes.{IsRefusal, full_cause, unready_cause};
ghost use Rattle.hall_rules.specs.Entering.{Enters, MayEnter, Refuses};

use actor_cell::Found;
use event_rule::Event;
use orca_core::{Orca, Ready, StepFault};
use orca_names::{ActorName, Options};
use row_store::NoBlocks;
use run_book::Book;
use std::alloc::Global;
use work_board::{Committed, Refuse};

/// As `Orca::prepare`. What was found is not evaluated again, and its place serves again.
fn prepare(
    alloc: Global,
    orca: &mut Orca<'_>,
    e: Event,
    found: &mut Option<Box<Found>>,
) -> Result<Ready, StepFault>
    requires { MayEnter e found.old orca.old }
    ensures same { IsSame orca.old orca.new }
    ensures event { IfOk result (λ ready. ready.event ≡ e) }
    ensures ok { IfOk result (λ ready. Fits ready orca.new) }
    ensures fault { IfErr result (IsFault (next orca.old.state e) e) }
{
    match found {
        Some(found) => orca.prepare_from(alloc, e, found, &mut NoBlocks::default()),
        None => orca.prepare(alloc, e, &mut NoBlocks::default()),
    }
}

/// As `Orca::apply_ready`, of a machine without blocks.
fn apply(orca: &mut Orca<'_>, ready: Ready) -> Option<ActorName>
    requires early { orca.old.steps < BOOK_LIMIT }
    requires fits { Fits ready orca.old }
    requires none { orca.old.blocks ≡ [] }
    ensures state { next orca.old.state ready.event ≡ Goes orca.new.state }
    ensures steps { orca.new.steps ≡ orca.old.steps + 1 }
    ensures out { KeepsAway orca.old.out orca.new.out }
    ensures woken { IsLowestWoken orca.old.state.actors orca.new.state.actors result }
    ensures none { orca.new.blocks ≡ [] }
{
    orca.apply_ready(ready, &mut NoBlocks::default())
}

/// The refusal of an enabled event whose step has this fault.
fn refuse_of(fault: StepFault) -> Refuse
    requires { (actor : ℕ) → fault ≢ StepFault.NoRows actor }
    ensures { (outcome : Step State) (e : Event) → unready_cause outcome ≡ None
        → IsFault outcome e fault → IsRefusal (full_cause outcome e) result }
{
    match fault {
        StepFault::NotEnabled => Refuse::NotReady,
        StepFault::ActorsFull { actor } => Refuse::Full { actor },
        StepFault::NoRows { actor: _ } => unreachable!(),
        StepFault::NoMemory => Refuse::NoMemory,
    }
}

/// Takes the memory for the event and for its entry.
///
/// # Errors
/// As `enter`.
fn reserve(
    alloc: Global,
    orca: &mut Orca<'_>,
    book: &mut Book,
    e: &Event,
    found: &mut Option<Box<Found>>,
) -> Result<Ready, Refuse>
    requires { MayEnter e.now found.old orca.old }
    ensures same { IsSame orca.old orca.new }
    ensures entries { book.new.entries ≡ book.old.entries }
    ensures book { (book.new.weight ≡ book.old.weight) × (book.new.trace ≡ book.old.trace) }
    ensures spare { OnOk result (1 ≤ book.new.spare) }
    ensures event { IfOk result (λ ready. ready.event ≡ e.now) }
    ensures ok { IfOk result (λ ready. Fits ready orca.new) }
    ensures refused { IfErr result (IsRefusal (full_cause (next orca.old.state e.now) e.now)) }
{
    if book.reserve(1).is_err() {
        return Err(Refuse::NoMemory);
    }
    match prepare(alloc, orca, *e, found) {
        Ok(ready) => Ok(ready),
        Err(fault) => Err(refuse_of(fault)),
    }
}

/// Does the event, which is enabled and not of an actor whose cell is away, and enters it into the book.
/// What was found of it is not evaluated again, and its place serves again. All memory is taken before
/// anything changes. The machine has no blocks.
///
/// # Errors
/// `Full` exactly where the event's actor would make one actor too many; `NoMemory` where memory was
/// refused. Nothing changes then but room.
pub fn enter(
    alloc: Global,
    orca: &mut Orca<'_>,
    book: &mut Book,
    e: &Event,
    found: &mut Option<Box<Found>>,
) -> Result<Committed, Refuse>
    requires { MayEnter e.now found.old orca.old }
    ensures ok { IfOk result (λ done. Enters e.now done orca.old orca.new book.old book.new) }
    ensures refused { IfErr result (λ refuse. Refuses e.now refuse orca.old orca.new book.old book.new) }
    ensures away { KeepsAway orca.old.out orca.new.out }
    ensures none { orca.new.blocks ≡ [] }
    ensures book { (book.new.weight ≡ book.old.weight) × (book.new.trace ≡ book.old.trace) }
{
    let ready = reserve(alloc, orca, book, e, found)?;
    let woke = apply(orca, ready);
    let place = book.len();
    book.push(*e);
    Ok(Committed { place, woke })
}

/// The options of the book's run.
pub fn book_options(book: &Book) -> Options
    ensures { result ≡ options_of_book book.now }
{
    Options {
        weight: book.weight(),
        trace: book.trace(),
    }
}
