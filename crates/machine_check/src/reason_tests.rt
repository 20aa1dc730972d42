// Reasons that hold up, and reasons that do not.

ghost use Rattle.std.specs.Prelude.{◌≡◌, ◌<◌, ◌≤◌, [], length};
ghost use Rattle.orca_names.specs.declared.limits.TheConstants.{BOOK_LIMIT};
ghost use Rattle.orca_core.specs.Machine.{NoneIsAway};

use crate::plain_tests::checked;
use behaviour_check::Checked;
use book_audit::{Verdict, audit};
use orca_core::Orca;
use orca_names::{ActorName, Edge, NoMemory, Reason, Thing, Why};
use run_book::{Book, read_text};
use std::alloc::Global;
use std::test::Fail;
use why_path::{explain, holds_up};

/// A pinned actor keeps an object. Another one, whose row names the first, is loose after the turn.
const ONE_LOOSE: &str =
    "kind Main 1\non start 0\npin\nint r0 5\nrow r1 r0\nstore f0 r1\nrow r2 r1\nend\n";

const MAIN: Thing = Thing::Actor(ActorName(0));

/// That the field of the actor leads to a thing.
const BY_FIELD: Why = Why::By {
    parent: MAIN,
    edge: Edge::Field(0),
};

/// That a register of the actor does.
const BY_REGISTER: Why = Why::By {
    parent: MAIN,
    edge: Edge::Register(1),
};

/// Whether lines hold up once this is said of the thing of one of them.
fn hold_with(orca: &Orca<'_>, lines: &mut [Reason], at: usize, level: u64, why: Why) -> bool
    requires home { NoneIsAway orca.now }
    requires none { orca.now.blocks ≡ [] }
    requires there { at < length lines.old }
{
    let told = lines[at];
    lines[at] = Reason {
        thing: told.thing,
        level,
        why,
    };
    let holds = holds_up(orca, lines);
    lines[at] = told;
    holds
}

/// The first of these changes after which the three lines hold up where they should not, or do not where
/// they should.
fn first_wrong(orca: &Orca<'_>, lines: &mut [Reason]) -> Option<usize>
    requires home { NoneIsAway orca.now }
    requires none { orca.now.blocks ≡ [] }
    requires three { length lines.old ≡ 3 }
{
    let by_loose = Why::By {
        parent: lines[2].thing,
        edge: Edge::Place(0),
    };
    let changes: [(usize, u64, Why, bool); 8] = [
        (1, 1, BY_FIELD, true),
        // The level of a loose thing is free.
        (2, 9, Why::Loose, true),
        // A root reason that does not apply.
        (0, 0, Why::Frame, false),
        // A parent that is loose, one two levels lower, no such edge, and an edge to another thing.
        (1, 1, by_loose, false),
        (1, 2, BY_FIELD, false),
        (1, 1, BY_REGISTER, false),
        (2, 1, BY_FIELD, false),
        // An edge from what is kept to what is loose.
        (1, 0, Why::Loose, false),
    ];
    for (i, (at, level, why, holds)) in changes.iter().enumerate() {
        if hold_with(orca, lines, *at, *level, *why) != *holds {
            return Some(i);
        }
    }
    None
}

/// Whether three lines hold up with the root at another level, and not where the root is loose, as all
/// else is.
fn root_holds_at_any_level(orca: &Orca<'_>, lines: &mut [Reason]) -> bool
    requires home { NoneIsAway orca.now }
    requires none { orca.now.blocks ≡ [] }
    requires three { length lines.old ≡ 3 }
{
    lines[0].level = 4;
    let higher = hold_with(orca, lines, 1, 5, BY_FIELD);
    lines[0].why = Why::Loose;
    higher && !hold_with(orca, lines, 1, 5, Why::Loose)
}

/// Whether three lines hold up no more where one lacks, two have changed places, or one stands twice.
fn hold_whole_alone(orca: &Orca<'_>, lines: &[Reason]) -> bool
    requires home { NoneIsAway orca.now }
    requires none { orca.now.blocks ≡ [] }
    requires three { length lines.now ≡ 3 }
{
    let lacking = [lines[0], lines[1]];
    let swapped = [lines[1], lines[0], lines[2]];
    let twice = [lines[0], lines[1], lines[2], lines[2]];
    !holds_up(orca, &lacking) && !holds_up(orca, &swapped) && !holds_up(orca, &twice)
}

/// Whether these three reasons hold up, and do not once one of the five things is broken.
fn hold_exactly(orca: &Orca<'_>, lines: &mut [Reason]) -> bool
    requires home { NoneIsAway orca.now }
    requires none { orca.now.blocks ≡ [] }
    requires three { length lines.old ≡ 3 }
{
    holds_up(orca, lines)
        && hold_whole_alone(orca, lines)
        && first_wrong(orca, lines).is_none()
        && root_holds_at_any_level(orca, lines)
}

/// Whether there are three reasons in a state, and they do so.
fn reasons_hold(alloc: Global, orca: &Orca<'_>) -> Result<bool, NoMemory>
    requires home { NoneIsAway orca.now }
    requires none { orca.now.blocks ≡ [] }
{
    let mut reasons = explain(alloc, orca)?;
    Ok(reasons.len() == 3 && hold_exactly(orca, reasons.as_mut_slice()))
}

/// Whether they do so in the state to which a book leads.
fn hold_after(alloc: Global, code: &Checked, book: &Book) -> Result<bool, NoMemory>
    requires { length book.now.entries ≤ BOOK_LIMIT }
{
    match audit(alloc, code, book)? {
        Verdict::Run { state } => reasons_hold(alloc, &state),
        Verdict::Not { .. } => Ok(false),
    }
}

fn hold_after_text(alloc: Global, program: &str, book: &str) -> Result<bool, Fail> {
    let book = read_text(alloc, book.as_bytes())?;
    let code = checked(alloc, program)?;
    Ok(hold_after(alloc, &code, &book)?)
}

#[test]
fn reasons_hold_up_exactly_where_five_things_do(rt: HostRuntime) -> Result<(), Fail> {
    let book = "book 2 256\ntake 0\ngo 0\n";
    assert!(rt; hold_after_text(rt.alloc(), ONE_LOOSE, book)?);
    Ok(())
}
