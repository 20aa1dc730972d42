// Whether reasons hold up.

ghost use Rattle.std.specs.Prelude.{◌≡◌, ◌↔◌, [], true, All, Contains};
ghost use Rattle.orca_names.specs.Names.{owner_of};
ghost use Rattle.orca_names.specs.declared.names.Thing.{Thing as a_thing};
ghost use Rattle.machine_rules.specs.Left.{IsLeft};
ghost use Rattle.orca_core.specs.Left.{things_of};
ghost use Rattle.orca_core.specs.Machine.{NoneIsAway};
ghost use Rattle.why_path.specs.Checks.{Holds, HoldsUp, IsClosedAt, StandsBelow};
ghost use Rattle.why_path.specs.Lines.{Rise};
ghost use Rattle.why_path.specs.Reasons.{ListsLeft, things_in};

use crate::causes::{applies_to, cause_of};
use crate::checks::leads_to_none_loose;
use crate::leads::leads_by;
use crate::lines::{has_line, line_of};
use crate::seats::seat_of;
use crate::walk::is_loose;
use actor_cell::Cell;
use orca_core::Orca;
use orca_names::{ActorName, Reason, Thing, Why};

// Whether the things of the lines rise.
fn rise(reasons: &[Reason]) -> bool
    ensures { result ≡ true ↔ Rise reasons.now }
{
    for i in 1..reasons.len() {
        if !reasons[i - 1].thing.cmp(&reasons[i].thing).is_lt() {
            return false;
        }
    }
    true
}

// Whether a thing is left.
fn is_left(orca: &Orca<'_>, thing: &Thing) -> bool
    requires { NoneIsAway orca.now }
    ensures { result ≡ true ↔ IsLeft orca.now.state.actors thing.now }
{
    let Some(seat) = seat_of(orca, thing.owner()) else {
        return false;
    };
    match thing {
        Thing::Actor(_) => true,
        Thing::Obj(n) => seat.cell.heap.has(*n),
    }
}

// Whether each line is that of a thing that is left.
fn are_left(orca: &Orca<'_>, reasons: &[Reason]) -> bool
    requires { NoneIsAway orca.now }
    ensures { result ≡ true ↔ All (λ r. IsLeft orca.now.state.actors r.thing) reasons.now }
{
    for line in reasons {
        if !is_left(orca, &line.thing) {
            return false;
        }
    }
    true
}

// Whether the actor and each of its objects has a line.
fn lists_cell(reasons: &[Reason], cell: &Cell) -> bool
    requires { Rise reasons.now }
    ensures { result ≡ true ↔ All (Contains (things_in reasons.now)) (things_of cell.now) }
{
    if !has_line(reasons, &Thing::Actor(cell.heap.owner())) {
        return false;
    }
    for i in 0..cell.heap.len() {
        let (name, _, _) = cell.heap.at(i);
        if !has_line(reasons, &Thing::Obj(name)) {
            return false;
        }
    }
    true
}

// Whether all that is left of the actor has a line.
fn lists_of(orca: &Orca<'_>, reasons: &[Reason], a: ActorName) -> bool
    requires home { NoneIsAway orca.now }
    requires rising { Rise reasons.now }
    ensures { result ≡ true ↔ ((x : a_thing) → IsLeft orca.now.state.actors x → owner_of x ≡ a
        → Contains (things_in reasons.now) x) }
{
    match orca.cell(a) {
        Some(cell) => lists_cell(reasons, cell),
        None => true,
    }
}

// Whether all that is left has a line.
fn lists_left(orca: &Orca<'_>, reasons: &[Reason]) -> bool
    requires home { NoneIsAway orca.now }
    requires rising { Rise reasons.now }
    ensures { result ≡ true ↔ ((x : a_thing) → IsLeft orca.now.state.actors x
        → Contains (things_in reasons.now) x) }
{
    // Few actors were made.
    orca.keeps_the_reachable();
    for a in 0..orca.made() {
        if !lists_of(orca, reasons, ActorName(a as u32)) {
            return false;
        }
    }
    true
}

// Whether each thing that is left stands once, in the order of things, and nothing else.
fn lists_exactly(orca: &Orca<'_>, reasons: &[Reason]) -> bool
    requires { NoneIsAway orca.now }
    ensures { result ≡ true ↔ ListsLeft orca.now.state.actors reasons.now }
{
    if !rise(reasons) {
        return false;
    }
    are_left(orca, reasons) && lists_left(orca, reasons)
}

// Whether the thing's line is not loose, and stands one level lower.
fn stands_below(reasons: &[Reason], thing: &Thing, level: u64) -> bool
    requires { Rise reasons.now }
    ensures { result ≡ true ↔ StandsBelow reasons.now thing.now level }
{
    match line_of(reasons, thing) {
        Some(line) => !is_loose(&line.why) && level.checked_sub(1) == Some(line.level),
        None => false,
    }
}

// Whether what the line says is so.
fn line_holds(orca: &Orca<'_>, reasons: &[Reason], line: &Reason) -> bool
    requires home { NoneIsAway orca.now }
    requires none { orca.now.blocks ≡ [] }
    requires rising { Rise reasons.now }
    ensures { result ≡ true ↔ Holds orca.now.state.actors reasons.now line.now }
{
    match &line.why {
        Why::By { parent, edge } => {
            stands_below(reasons, parent, line.level) && leads_by(orca, parent, edge, &line.thing)
        }
        Why::Loose => cause_of(orca, &line.thing).is_none(),
        Why::Pinned | Why::Frame | Why::Letter => applies_to(orca, &line.thing, &line.why),
    }
}

// Whether what each line says is so.
fn lines_hold(orca: &Orca<'_>, reasons: &[Reason]) -> bool
    requires home { NoneIsAway orca.now }
    requires none { orca.now.blocks ≡ [] }
    requires rising { Rise reasons.now }
    ensures { result ≡ true ↔ All (Holds orca.now.state.actors reasons.now) reasons.now }
{
    for line in reasons {
        if !line_holds(orca, reasons, line) {
            return false;
        }
    }
    true
}

// Whether the line is loose, or no edge leads from its thing to a loose one.
fn is_closed_at(orca: &Orca<'_>, reasons: &[Reason], line: &Reason) -> bool
    requires home { NoneIsAway orca.now }
    requires none { orca.now.blocks ≡ [] }
    requires rising { Rise reasons.now }
    ensures { result ≡ true ↔ IsClosedAt orca.now.state.actors reasons.now line.now }
{
    is_loose(&line.why) || leads_to_none_loose(orca, reasons, &line.thing)
}

// Whether no edge leads from a kept thing to a loose one.
fn are_closed(orca: &Orca<'_>, reasons: &[Reason]) -> bool
    requires home { NoneIsAway orca.now }
    requires none { orca.now.blocks ≡ [] }
    requires rising { Rise reasons.now }
    ensures { result ≡ true ↔ All (IsClosedAt orca.now.state.actors reasons.now) reasons.now }
{
    for line in reasons {
        if !is_closed_at(orca, reasons, line) {
            return false;
        }
    }
    true
}

/// Whether these reasons hold up: each thing that is left stands once, in the order of things; each root
/// reason applies; each parent is not loose and stands one level lower, with that edge; no loose thing is a
/// root; and no edge leads from a kept thing to a loose one. It walks no path and takes no memory.
/// The machine has no blocks.
pub fn holds_up(orca: &Orca<'_>, reasons: &[Reason]) -> bool
    requires home { NoneIsAway orca.now }
    requires none { orca.now.blocks ≡ [] }
    ensures { result ≡ true ↔ HoldsUp orca.now.state.actors reasons.now }
{
    if !lists_exactly(orca, reasons) {
        return false;
    }
    lines_hold(orca, reasons) && are_closed(orca, reasons)
}
