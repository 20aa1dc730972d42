// Who went by the entries of a run book.

ghost use Rattle.std.specs.Prelude.{◌≡◌, ◌+◌, ◌++◌, ◌<◌, ◌≤◌, [], length, IfOk, OnOk};
ghost use Rattle.std.specs.Option.{option_to_list};
ghost use Rattle.event_rule.specs.Runs.{Goes};
ghost use Rattle.machine_rules.specs.Next.{next};
ghost use Rattle.machine_rules.specs.State.{State, first_state};
ghost use Rattle.machine_rules.specs.Run.{IsRun};
ghost use Rattle.orca_names.specs.declared.limits.TheConstants.{BOOK_LIMIT};
ghost use Rattle.orca_core.specs.Machine.{NoneIsAway};
ghost use Rattle.orca_parts.specs.Parts.{options_of};
ghost use Rattle.why_path.specs.Partings.{parting_at, partings_of};

use behaviour_check::Checked;
use event_rule::Event;
use orca_core::{Orca, StepFault};
use orca_names::{NoMemory, Parting};
use plain_list::Listed;
use row_store::NoBlocks;
use run_book::Book;
use std::alloc::Global;

// Who goes by an entry, if it is one by which actors go.
fn parting_at(alloc: Global, orca: &Orca<'_>, e: &Event) -> Result<Option<Parting>, NoMemory>
    ensures { IfOk result (λ parting. parting ≡ parting_at orca.now.state e.now) }
{
    match *e {
        Event::Leave(actor) => Ok(Some(Parting::Left { actor })),
        Event::Reap(token) => match orca.token_reports(alloc, token.get())? {
            Some(members) => Ok(Some(Parting::Reaped {
                token: token.get(),
                members: Listed::from(members),
            })),
            None => Ok(None),
        },
        Event::Take(_) => Ok(None),
        Event::Go(_) => Ok(None),
        Event::Collect(_) => Ok(None),
        Event::Block(_) => Ok(None),
        Event::Hear => Ok(None),
        Event::Scan => Ok(None),
    }
}

// Adds it, if there is one.
fn tell(found: &mut Vec<Parting>, parting: Option<Parting>) -> Result<(), NoMemory>
    ensures { OnOk result (found.new.items ≡ found.old.items ++ option_to_list parting) }
{
    if let Some(one) = parting {
        found.push(one)?;
    }
    Ok(())
}

// Does an entry of a run.
fn step(alloc: Global, orca: &mut Orca<'_>, e: &Event) -> Result<(), NoMemory>
    requires early { orca.old.steps < BOOK_LIMIT }
    requires home { NoneIsAway orca.old }
    requires none { orca.old.blocks ≡ [] }
    requires leads { (t : State) × (next orca.old.state e.now ≡ Goes t) }
    ensures ok { OnOk result (next orca.old.state e.now ≡ Goes orca.new.state) }
    ensures steps { OnOk result (orca.new.steps ≡ orca.old.steps + 1) }
    ensures home { NoneIsAway orca.new }
    ensures none { orca.new.blocks ≡ [] }
{
    match orca.step(alloc, *e, &mut NoBlocks::default()) {
        Ok(_) => Ok(()),
        Err(StepFault::NoMemory) => Err(NoMemory),
        Err(StepFault::NotEnabled) => unreachable!(),
        Err(StepFault::ActorsFull { actor: _ }) => unreachable!(),
        Err(StepFault::NoRows { actor: _ }) => unreachable!(),
    }
}

/// Who went by each leave and each reap of a book, in their order; for each reap, what the detector had
/// kept of its members. It steps the book once more from the start.
///
/// # Errors
/// `NoMemory` where memory was refused.
pub fn partings(alloc: Global, code: &Checked, book: &Book) -> Result<Vec<Parting>, NoMemory>
    requires run { let options = options_of book.now.weight book.now.trace in
        (t : State) × IsRun code.now options book.now.entries t }
    requires few { length book.now.entries ≤ BOOK_LIMIT }
    ensures { let options = options_of book.now.weight book.now.trace in
        IfOk result (λ found. found.items
        ≡ partings_of book.now.entries (first_state code.now options)) }
{
    let mut orca = Orca::start(alloc, code, book.weight(), None, book.trace())?;
    let mut found = Vec::new(alloc);
    for i in 0..book.len() {
        let e = book.at(i);
        tell(&mut found, parting_at(alloc, &orca, &e)?)?;
        step(alloc, &mut orca, &e)?;
    }
    Ok(found)
}
