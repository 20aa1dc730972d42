// One worker goes on until a run ends.

ghost use Rattle.std.specs.Prelude.{◌≡◌, ◌≢◌, ◌≤◌, ◌<◌, ◌+◌, ◌++◌, ◌∷◌, [], length, IfErr, OnErr, OnOk};
ghost use Rattle.orca_names.specs.declared.limits.TheConstants.{BOOK_LIMIT};
ghost use Rattle.event_rule.specs.Runs.{Goes};
ghost use Rattle.machine_rules.specs.Next.{next};
ghost use Rattle.row_blocks.specs.Blocks.{MayPutEach, MayPutFree};
ghost use Rattle.row_laws.specs.Blocks.{blocks_after};
ghost use Rattle.orca_core.specs.Laws.{IsRunOf};
ghost use Rattle.orca_core.specs.Machine.{HasRoomFor, IsFaultOf, IsSame, NoneIsAway, Stand};
ghost use Rattle.quiet_pass.specs.Ends.{EndsSo, GoesOnTo, IsEndOf};

use event_rule::Event;
use orca_core::{Orca, StepFault};
use orca_names::ActorName;
use row_store::RowWords;
use run_book::Book;
use std::alloc::Global;

/// How a run ends.
#[derive(Clone, Copy, Debug, PartialEq, Eq)]
pub enum End {
    /// No event is enabled.
    Quiet,
    /// An event is enabled, but the book has as many entries as it may have.
    Budget,
    /// The actor would make one more, and as many as there may be are made.
    Full { actor: ActorName },
    /// The actor's turn would make more rows than there are free blocks.
    NoRows { actor: ActorName },
    /// Memory was refused; the entries so far stand.
    NoMemory,
}

/// Does the event, and enters it into the book. Where it is refused, nothing changes but room.
fn step<W: RowWords>(
    alloc: Global,
    orca: &mut Orca<'_>,
    book: &mut Book,
    e: &Event,
    words: &mut W,
) -> Result<(), StepFault>
    requires early { orca.old.steps < BOOK_LIMIT }
    requires home { NoneIsAway orca.old }
    requires stand { Stand (W.known words.old) orca.old }
    requires put { MayPutFree orca.old.blocks (W.places words.old) }
    ensures ok { OnOk result (next orca.old.state e.now ≡ Goes orca.new.state) }
    ensures steps { OnOk result (orca.new.steps ≡ orca.old.steps + 1) }
    ensures entry { OnOk result (book.new.entries ≡ book.old.entries ++ e.now ∷ []) }
    ensures home { NoneIsAway orca.new }
    ensures blocks { OnOk result (orca.new.blocks
        ≡ blocks_after orca.old.state e.now orca.new.state orca.old.blocks) }
    ensures room { OnOk result
        (HasRoomFor orca.old.state e.now orca.new.state orca.old.blocks) }
    ensures stand { Stand (W.known words.new) orca.new }
    ensures places { W.places words.new ≡ W.places words.old }
    ensures beside { W.beside words.new ≡ W.beside words.old }
    ensures fault { IfErr result (IsFaultOf orca.old e.now) }
    ensures book { (book.new.weight ≡ book.old.weight) × (book.new.trace ≡ book.old.trace) }
    ensures same { OnErr result (IsSame orca.old orca.new) }
    ensures same_book { OnErr result (book.new.entries ≡ book.old.entries) }
{
    if book.reserve(1).is_err() {
        return Err(StepFault::NoMemory);
    }
    orca.step(alloc, *e, words)?;
    book.push(*e);
    Ok(())
}

/// How a run ends whose first enabled event is refused.
fn end_of(fault: StepFault) -> End
    requires { fault ≢ StepFault.NotEnabled }
    ensures { IsEndOf fault result }
{
    match fault {
        StepFault::ActorsFull { actor } => End::Full { actor },
        StepFault::NoRows { actor } => End::NoRows { actor },
        StepFault::NoMemory => End::NoMemory,
        StepFault::NotEnabled => unreachable!(),
    }
}

/// One worker goes on in the one-worker order, from whatever state it finds, and enters each event into
/// the book: until no event is enabled, else until the book is as long as the budget, else until an
/// actor would make one more than may be made, or more rows than there are free blocks, or memory is
/// refused. The words hold the rows that lie in blocks; without blocks they are not read.
pub fn finish<W: RowWords>(
    alloc: Global,
    orca: &mut Orca<'_>,
    book: &mut Book,
    budget: u64,
    words: &mut W,
) -> End
    requires most { budget ≤ BOOK_LIMIT }
    requires home { NoneIsAway orca.old }
    requires run { IsRunOf orca.old book.old.entries }
    requires within { length book.old.entries ≤ budget }
    requires stand { Stand (W.known words.old) orca.old }
    requires put { MayPutEach orca.old.blocks (W.places words.old) }
    ensures run { IsRunOf orca.new book.new.entries }
    ensures program { orca.new.state.program ≡ orca.old.state.program }
    ensures options { orca.new.state.options ≡ orca.old.state.options }
    ensures within { length book.new.entries ≤ budget }
    ensures book { (book.new.weight ≡ book.old.weight) × (book.new.trace ≡ book.old.trace) }
    ensures home { NoneIsAway orca.new }
    ensures size { length orca.new.blocks ≡ length orca.old.blocks }
    ensures on { GoesOnTo orca.old book.old.entries orca.new book.new.entries }
    ensures end { EndsSo result orca.new.state orca.new.blocks (length book.new.entries) budget }
    ensures stand { Stand (W.known words.new) orca.new }
    ensures places { W.places words.new ≡ W.places words.old }
    ensures beside { W.beside words.new ≡ W.beside words.old }
{
    loop {
        let Some(e) = orca.first_enabled() else {
            return End::Quiet;
        };
        if book.len() >= budget {
            return End::Budget;
        }
        match step(alloc, orca, book, &e, words) {
            Ok(()) => {}
            Err(fault) => return end_of(fault),
        }
    }
}
