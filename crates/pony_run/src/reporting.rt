// The report of a run, and that of an audit.

ghost use Rattle.std.specs.Prelude.{◌≡◌, ◌≤◌, [], count_by, length, not, option_map, IfOk};
ghost use Rattle.orca_names.specs.declared.limits.TheConstants.{BOOK_LIMIT};
ghost use Rattle.report_text.specs.Ends.{IsEnd};
ghost use Rattle.orca_core.specs.Laws.{IsRunOf};
ghost use Rattle.orca_core.specs.Machine.{NoneIsAway};
ghost use Rattle.orca_parts.specs.Parts.{options_of};
ghost use Rattle.pony_run.specs.Headline.{AreCounts, AreLeft, AreNumbers, AreWhys, IsAuditReport, IsReport, book_in, is_actor};

use behaviour_check::Checked;
use count_ledger::tally;
use orca_core::Orca;
use orca_names::{NoMemory, Tally, Thing};
use report_text::{Numbers, Status, audit_report, report, why_lines};
use run_book::Book;
use std::alloc::Global;
use why_path::{explain, partings};
use word_line::{Job, Order};

fn is_actor(thing: &Thing) -> bool
    ensures { result ≡ is_actor thing.now }
{
    match thing {
        Thing::Actor(_) => true,
        Thing::Obj(_) => false,
    }
}

fn count_actors(things: &[Thing]) -> u64
    ensures { result ≡ count_by is_actor things.now }
{
    things.iter().filter(|thing| is_actor(thing)).count() as u64
}

fn count_objects(things: &[Thing]) -> u64
    ensures { result ≡ count_by (λ x. not (is_actor x)) things.now }
{
    things.iter().filter(|thing| !is_actor(thing)).count() as u64
}

/// How many actors and how many objects are left.
fn left(alloc: Global, orca: &Orca<'_>) -> Result<(u64, u64), NoMemory>
    requires { NoneIsAway orca.now }
    ensures { IfOk result (λ r. AreLeft orca.now.state.actors r.0 r.1) }
{
    let things = orca.left(alloc)?;
    Ok((count_actors(&things), count_objects(&things)))
}

/// The counts of all that is left, where they are asked for.
fn counts(alloc: Global, orca: &Orca<'_>, asked: bool) -> Result<Option<Tally>, NoMemory>
    requires { NoneIsAway orca.now }
    ensures { IfOk result (λ counts. AreCounts asked orca.now.state.actors
        (option_map (λ t. t.sums) counts)) }
{
    if asked {
        Ok(Some(tally(alloc, orca)?))
    } else {
        Ok(None)
    }
}

/// The book, where it is asked for.
fn book_in(book: &Book, asked: bool) -> Option<&Book>
    ensures { option_map (λ b. b.now) result ≡ book_in asked book.now }
{
    if asked { Some(book) } else { None }
}

/// How many actors and how many objects were made and are left.
fn numbers(alloc: Global, orca: &Orca<'_>) -> Result<(Numbers, Numbers), NoMemory>
    requires { NoneIsAway orca.now }
    ensures { IfOk result (λ n. AreNumbers orca.now.state n.0 n.1) }
{
    let (actors_left, objects_left) = left(alloc, orca)?;
    let actors = Numbers {
        made: orca.made(),
        left: actors_left,
    };
    let objects = Numbers {
        made: orca.objects_made(),
        left: objects_left,
    };
    Ok((actors, objects))
}

/// The lines behind the report of a run: for `why` who went, and why each thing is left; else none.
fn whys(
    alloc: Global,
    job: Job,
    code: &Checked,
    orca: &Orca<'_>,
    book: &Book,
) -> Result<Vec<u8>, NoMemory>
    requires home { NoneIsAway orca.now }
    requires none { job ≡ Job.Why → orca.now.blocks ≡ [] }
    requires program { orca.now.state.program ≡ code.now }
    requires options { orca.now.state.options ≡ options_of book.now.weight book.now.trace }
    requires run { IsRunOf orca.now book.now.entries }
    requires few { length book.now.entries ≤ BOOK_LIMIT }
    ensures { IfOk result (λ lines. AreWhys job book.now.entries orca.now.state lines.items) }
{
    match job {
        Job::Why => {
            // What is told of reasons holds for any weight above 0.
            orca.weight_is_above_zero();
            let partings = partings(alloc, code, book)?;
            let reasons = explain(alloc, orca)?;
            why_lines(alloc, &partings, &reasons)
        }
        Job::Run | Job::Load(_) | Job::Audit => Ok(Vec::new(alloc)),
    }
}

/// The report of a run that ended so, whole in memory.
///
/// # Errors
/// `NoMemory` where memory was refused.
pub(crate) fn report_of_run(
    alloc: Global,
    order: &Order,
    code: &Checked,
    orca: &Orca<'_>,
    book: &Book,
    end: &Status,
) -> Result<Vec<u8>, NoMemory>
    requires end { IsEnd end.now }
    requires home { NoneIsAway orca.now }
    requires none { order.now.job ≡ Job.Why → orca.now.blocks ≡ [] }
    requires program { orca.now.state.program ≡ code.now }
    requires options { orca.now.state.options ≡ options_of book.now.weight book.now.trace }
    requires run { IsRunOf orca.now book.now.entries }
    requires few { length book.now.entries ≤ BOOK_LIMIT }
    ensures { IfOk result (λ text. IsReport end.now order.now book.now orca.now.state text.items) }
{
    let (actors, objects) = numbers(alloc, orca)?;
    let counts = counts(alloc, orca, order.counts)?;
    let asked = book_in(book, order.book);
    let prints = orca.prints();
    let mut text = report(alloc, end, prints, actors, objects, counts.as_ref(), asked)?;
    let whys = whys(alloc, order.job, code, orca, book)?;
    text.extend_from_slice(&whys)?;
    Ok(text)
}

/// The report of an audit whose book led to this state, whole in memory.
///
/// # Errors
/// `NoMemory` where memory was refused.
pub(crate) fn report_of_audit(
    alloc: Global,
    orca: &Orca<'_>,
    book: &Book,
) -> Result<Vec<u8>, NoMemory>
    requires { NoneIsAway orca.now }
    ensures { IfOk result (λ text. IsAuditReport book.now orca.now.state text.items) }
{
    let (actors, objects) = numbers(alloc, orca)?;
    audit_report(
        alloc,
        orca.quiet(),
        orca.prints(),
        book.len(),
        actors,
        objects,
    )
}
