// A book is followed, entry by entry.

ghost use Rattle.std.specs.Prelude.{◌≡◌, ◌≤◌, ◌↔◌, ℕ, [], IfOk, MatchOption, length};
ghost use Rattle.orca_names.specs.declared.limits.TheConstants.{BOOK_LIMIT};
ghost use Rattle.machine_rules.specs.State.{first_state};
ghost use Rattle.orca_core.specs.Machine.{NoneIsAway};
ghost use Rattle.book_audit.specs.Verdicts.{IsARun, IsAuditedRun, IsRefuted, IsVerdict, SaysRun};
ghost use Rattle.run_book.specs.Books.{options_of_book};

use behaviour_check::Checked;
use orca_core::{Orca, StepFault};
use orca_names::NoMemory;
use row_store::NoBlocks;
use run_book::Book;
use std::alloc::Global;

/// What a book proves to be.
#[derive(Drop)]
pub enum Verdict<'a> {
    /// A run of the program, which leads to this state. The machine has no blocks.
    Run { state: Orca<'a> },
    /// None: the entries before this place, counted from 0, are a run, and the one at it is refused.
    /// The cause is 1 where it is not enabled, and 2 where it would make an actor too many.
    Not { place: u64, cause: u8 },
}

/// Does the entries of a book, up to the first that is refused: it tells that one's place and cause.
fn first_refused(
    alloc: Global,
    orca: &mut Orca<'_>,
    book: &Book,
) -> Result<Option<(u64, u8)>, NoMemory>
    requires few { length book.now.entries ≤ BOOK_LIMIT }
    requires first { orca.old.state
        ≡ first_state orca.old.state.program (options_of_book book.now) }
    requires early { orca.old.steps ≡ 0 }
    requires home { NoneIsAway orca.old }
    requires none { orca.old.blocks ≡ [] }
    ensures { let program = orca.old.state.program in
        IfOk result (λ found. MatchOption found (IsAuditedRun program book.now orca.new)
        (λ refused. IsRefuted program book.now refused.0 refused.1)) }
{
    for place in 0..book.len() {
        match orca.step(alloc, book.at(place), &mut NoBlocks::default()) {
            Ok(_) => {}
            Err(StepFault::NotEnabled) => return Ok(Some((place, 1))),
            Err(StepFault::ActorsFull { .. }) => return Ok(Some((place, 2))),
            Err(StepFault::NoRows { .. }) => unreachable!(),
            Err(StepFault::NoMemory) => return Err(NoMemory),
        }
    }
    Ok(None)
}

/// The verdict on a book that led the machine so far, where its first refused entry is this.
fn verdict_of<'a>(orca: Orca<'a>, refused: Option<(u64, u8)>) -> Verdict<'a>
    ensures { MatchOption refused (result ≡ Verdict.Run orca.entry)
        (λ r. result ≡ Verdict.Not r.0 r.1) }
{
    match refused {
        Some((place, cause)) => Verdict::Not { place, cause },
        None => Verdict::Run { state: orca },
    }
}

/// Whether a book, with its weight and its tracing, is a run of a program. It takes as many steps as
/// the book has entries up to the first that is refused.
///
/// # Errors
/// `NoMemory` where memory was refused.
pub fn audit<'a>(alloc: Global, code: &'a Checked, book: &Book) -> Result<Verdict<'a>, NoMemory>
    requires { length book.now.entries ≤ BOOK_LIMIT }
    // The verdict is right, and there is no other.
    ensures verdict { IfOk result (IsVerdict code.now book.now) }
    ensures run { IfOk result (λ v. SaysRun v ↔ IsARun code.now book.now) }
    ensures refuted { IfOk result (λ v. (place cause : ℕ)
        → v ≡ Verdict.Not place cause ↔ IsRefuted code.now book.now place cause) }
{
    let mut orca = Orca::start(alloc, code, book.weight(), None, book.trace())?;
    let refused = first_refused(alloc, &mut orca, book)?;
    Ok(verdict_of(orca, refused))
}
