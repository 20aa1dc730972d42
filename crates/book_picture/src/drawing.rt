// A book is drawn, entry by entry.

ghost use Rattle.std.specs.Prelude.{◌≡◌, ◌++◌, ◌≤◌, [], IfOk, OnOk, length, string_bytes};
ghost use Rattle.orca_names.specs.declared.limits.TheConstants.{BOOK_LIMIT};
ghost use Rattle.orca_names.specs.declared.options.Options.{Options as any_options};
ghost use Rattle.machine_rules.specs.Run.{IsRun};
ghost use Rattle.machine_rules.specs.State.{State, first_state};
ghost use Rattle.orca_core.specs.Machine.{NoneIsAway};
ghost use Rattle.picture_rules.specs.Parts.{state_lines};
ghost use Rattle.picture_rules.specs.Pictures.{IsPicture};
ghost use Rattle.picture_rules.specs.Words.{text_of_lines};
ghost use Rattle.run_book.specs.Books.{options_of_book};
ghost use Rattle.book_picture.specs.Entries.{CanFollow, TellsRun, TellsToTheEnd};

use crate::entries::push_event;
use crate::texts::push_actor;
use behaviour_check::Checked;
use behaviour_code::Names;
use orca_core::Orca;
use orca_names::{ActorName, NoMemory, Options};
use picture_lines::{head, push_detector, push_end};
use run_book::Book;
use std::alloc::{AllocError, Global};

/// The lines of a first state: its one actor and the detector.
fn push_first(orca: &Orca<'_>, names: &Names, out: &mut String) -> Result<(), AllocError>
    requires home { NoneIsAway orca.now }
    requires none { orca.now.blocks ≡ [] }
    requires first { (options : any_options)
        × (orca.now.state ≡ first_state orca.now.state.program options) }
    requires names { names.now ≡ orca.now.state.program.names }
    ensures { OnOk result (string_bytes out.new
        ≡ string_bytes out.old ++ text_of_lines (state_lines orca.now.state)) }
{
    let first = ActorName(0);
    push_actor(out, names, first, orca.cell(first), orca.mail(first))?;
    push_detector(out, orca.detector().news(), orca.detector().opened())
}

/// The lines of all entries of a book that is a run.
fn push_entries(
    alloc: Global,
    orca: &mut Orca<'_>,
    names: &Names,
    book: &Book,
    out: &mut String,
) -> Result<(), NoMemory>
    requires few { length book.now.entries ≤ BOOK_LIMIT }
    requires run { CanFollow orca.old.state book.now.entries }
    requires first { orca.old.state
        ≡ first_state orca.old.state.program (options_of_book book.now) }
    requires early { orca.old.steps ≡ 0 }
    requires home { NoneIsAway orca.old }
    requires none { orca.old.blocks ≡ [] }
    requires names { names.now ≡ orca.old.state.program.names }
    ensures told { OnOk result (TellsRun orca.old.state book.now.entries orca.new.state
        (string_bytes out.old) (string_bytes out.new)) }
    ensures home { OnOk result (NoneIsAway orca.new) }
{
    for place in 0..book.len() {
        push_event(alloc, orca, names, book.at(place), out)?;
    }
    Ok(())
}

/// The lines of the first state, of all entries, and of the end.
fn push_all(
    alloc: Global,
    orca: &mut Orca<'_>,
    names: &Names,
    book: &Book,
    out: &mut String,
) -> Result<(), NoMemory>
    requires few { length book.now.entries ≤ BOOK_LIMIT }
    requires run { CanFollow orca.old.state book.now.entries }
    requires first { orca.old.state
        ≡ first_state orca.old.state.program (options_of_book book.now) }
    requires early { orca.old.steps ≡ 0 }
    requires home { NoneIsAway orca.old }
    requires none { orca.old.blocks ≡ [] }
    requires names { names.now ≡ orca.old.state.program.names }
    ensures { OnOk result (TellsToTheEnd orca.old.state book.now.entries
        (string_bytes out.old) (string_bytes out.new)) }
{
    push_first(orca, names, out)?;
    push_entries(alloc, orca, names, book, out)?;
    push_end(out, orca.quiet())?;
    Ok(())
}

/// The lines behind the head, by a machine that does the book.
fn push_run(alloc: Global, code: &Checked, book: &Book, out: &mut String) -> Result<(), NoMemory>
    requires few { length book.now.entries ≤ BOOK_LIMIT }
    requires run { (s : State)
        × IsRun code.now (options_of_book book.now) book.now.entries s }
    ensures { let first = first_state code.now (options_of_book book.now) in
        OnOk result (TellsToTheEnd first book.now.entries (string_bytes out.old) (string_bytes out.new)) }
{
    let mut orca = Orca::start(alloc, code, book.weight(), None, book.trace())?;
    push_all(alloc, &mut orca, &code.program().names, book, out)
}

/// The picture of a book that is a run of the program, whole in memory: the program and what the run
/// chose, the first state, what each entry printed, posted and changed, and whether an event is enabled
/// at the end. An entry costs the size of the parts that it touched.
///
/// # Errors
/// `NoMemory` where memory was refused.
pub fn draw(alloc: Global, code: &Checked, book: &Book) -> Result<Vec<u8>, NoMemory>
    requires few { length book.now.entries ≤ BOOK_LIMIT }
    requires run { (s : State)
        × IsRun code.now (options_of_book book.now) book.now.entries s }
    ensures { let options = options_of_book book.now in let entries = book.now.entries in
        IfOk result (λ bytes. (t : State) → IsRun code.now options entries t
        → IsPicture code.now options entries t bytes.items) }
{
    let mut out = String::new(alloc);
    push_run(alloc, code, book, &mut out)?;
    let options = Options {
        weight: book.weight(),
        trace: book.trace(),
    };
    let mut bytes = head(alloc, &options, code.program())?;
    bytes.extend_from_slice(out.as_bytes())?;
    Ok(bytes)
}
