// Books that both machines follow.

ghost use Rattle.std.specs.Prelude.{◌≡◌, []};
ghost use Rattle.orca_core.specs.Machine.{NoneIsAway};

use crate::tally::{Deed, Tally};
use behaviour_check::Checked;
use event_rule::Event;
use letter_kinds::Letter;
use orca_core::Orca;
use orca_names::ActorName;
use plain_machine::Plain;
use row_store::NoBlocks;
use run_book::Book;
use std::alloc::Global;

const MOST: u64 = 10_000;

/// Where a book ends.
#[derive(Clone, Copy, PartialEq, Eq)]
pub(crate) enum Ending {
    /// Nowhere: it is no run of one of the machines, or they print not the same.
    Never,
    /// Where an event is enabled.
    Open,
    /// Where none is.
    Quiet,
}

/// Whether the first letter of an actor is one that a program sent.
fn has_application_letter(orca: &Orca<'_>, a: ActorName) -> bool {
    match orca.mail(a) {
        Some(mail) => matches!(mail.front(), Some(Letter::App { .. })),
        None => false,
    }
}

/// Where in its behaviour an actor is, if it has a frame.
fn place_of(orca: &Orca<'_>, a: ActorName) -> Option<u32> {
    Some(orca.cell(a)?.frame.get()?.place)
}

/// Does an event in the machine that collects, and tells whether it was not refused.
fn step(alloc: Global, orca: &mut Orca<'_>, event: Event) -> bool
    requires home { NoneIsAway orca.old }
    requires none { orca.old.blocks ≡ [] }
    ensures home { NoneIsAway orca.new }
    ensures none { orca.new.blocks ≡ [] }
{
    if orca.steps() >= MOST {
        return false;
    }
    orca.step(alloc, event, &mut NoBlocks::default()).is_ok()
}

/// Does a go in the machine that collects, and tells what it was; `None` where it is refused.
fn goes(alloc: Global, orca: &mut Orca<'_>, a: ActorName) -> Option<Deed>
    requires home { NoneIsAway orca.old }
    requires none { orca.old.blocks ≡ [] }
    ensures home { NoneIsAway orca.new }
    ensures none { orca.new.blocks ≡ [] }
{
    let before = place_of(orca, a);
    if !step(alloc, orca, Event::Go(a)) {
        return None;
    }
    if place_of(orca, a) == before {
        Some(Deed::Mint)
    } else {
        Some(Deed::Act)
    }
}

/// Does an event in the machine that collects, and tells what it was; `None` where it is refused.
fn does(alloc: Global, orca: &mut Orca<'_>, event: &Event) -> Option<Deed>
    requires home { NoneIsAway orca.old }
    requires none { orca.old.blocks ≡ [] }
    ensures home { NoneIsAway orca.new }
    ensures none { orca.new.blocks ≡ [] }
{
    let deed = match event {
        Event::Go(a) => return goes(alloc, orca, *a),
        Event::Take(a) if has_application_letter(orca, *a) => Deed::Letter,
        Event::Leave(_) => Deed::Leave,
        Event::Reap(_) => Deed::Reap,
        _ => Deed::Other,
    };
    step(alloc, orca, *event).then_some(deed)
}

/// Does the event in the machine that frees nothing, where it is a choice there too.
fn chooses(alloc: Global, plain: &mut Plain<'_>, event: &Event, deed: Deed) -> bool {
    if plain.steps() >= MOST {
        return false;
    }
    match *event {
        Event::Take(a) if deed == Deed::Letter => plain.take(a).is_ok(),
        Event::Go(a) if deed == Deed::Act => plain.go(alloc, a).is_ok(),
        _ => true,
    }
}

/// Whether both machines have printed the same.
fn print_alike(orca: &Orca<'_>, plain: &Plain<'_>) -> bool {
    orca.prints() == plain.prints()
}

/// Does an entry of a book in both machines, and tells what it was; `None` where one of them refuses it,
/// or they then have not printed the same.
fn enter(alloc: Global, orca: &mut Orca<'_>, plain: &mut Plain<'_>, event: &Event) -> Option<Deed>
    requires home { NoneIsAway orca.old }
    requires none { orca.old.blocks ≡ [] }
    ensures home { NoneIsAway orca.new }
    ensures none { orca.new.blocks ≡ [] }
{
    let deed = does(alloc, orca, event)?;
    let both = chooses(alloc, plain, event, deed) && print_alike(orca, plain);
    both.then_some(deed)
}

/// Where a book ends that both machines follow.
fn follow(
    alloc: Global,
    orca: &mut Orca<'_>,
    plain: &mut Plain<'_>,
    book: &Book,
    tally: &mut Tally,
) -> Ending
    requires home { NoneIsAway orca.old }
    requires none { orca.old.blocks ≡ [] }
{
    for i in 0..book.len() {
        let Some(deed) = enter(alloc, orca, plain, &book.at(i)) else {
            return Ending::Never;
        };
        tally.add(deed);
    }
    tally.add_end(orca);
    if orca.quiet() {
        Ending::Quiet
    } else {
        Ending::Open
    }
}

fn follow_in(
    alloc: Global,
    orca: &mut Orca<'_>,
    code: &Checked,
    book: &Book,
    tally: &mut Tally,
) -> Ending
    requires home { NoneIsAway orca.old }
    requires none { orca.old.blocks ≡ [] }
{
    match Plain::start(alloc, code) {
        Ok(mut plain) => follow(alloc, orca, &mut plain, book, tally),
        Err(_) => Ending::Never,
    }
}

/// Where a book ends that both machines follow, with its weight and tracing. What it has is tallied.
pub(crate) fn ending_of(alloc: Global, code: &Checked, book: &Book, tally: &mut Tally) -> Ending {
    match Orca::start(alloc, code, book.weight(), None, book.trace()) {
        Ok(mut orca) => follow_in(alloc, &mut orca, code, book, tally),
        Err(_) => Ending::Never,
    }
}

/// Whether a book is a run of both machines that ends where nothing is enabled.
pub(crate) fn is_whole_run(alloc: Global, code: &Checked, book: &Book) -> bool {
    ending_of(alloc, code, book, &mut Tally::new()) == Ending::Quiet
}
