// One actor in the table.

ghost use Rattle.std.specs.Prelude.{◌≡◌, ◌+◌, ◌<◌, ◌≤◌, ◌||◌, [], ℕ, IsSomeAnd, OnOk, if◌then◌else◌, is_some, option_map, Some, true, false, ⊤};
ghost use Rattle.std.specs.Option.{option_copied};
ghost use Rattle.letter_kinds.specs.Letters.{as_letter};
ghost use Rattle.letter_kinds.specs.Telling.{TellsOnly, all_brought, brought_in};
ghost use Rattle.machine_rules.specs.Actors.{with_letter_more};
ghost use Rattle.machine_rules.specs.Guards.{may_block, may_do, may_go};
ghost use Rattle.actor_cell.specs.Cells.{as_cell};
ghost use Rattle.actor_cell.specs.declared.cell.Cell.{Cell as a_cell};
ghost use Rattle.actor_table.specs.Bringing.{BringsIts};
ghost use Rattle.actor_table.specs.Changes.{CanChange, HasRoomToChange, KeepsPlace, letter_taken, note_taken, seat_after};
ghost use Rattle.actor_table.specs.Telling.{PlaceLies, SlotTells};
ghost use Rattle.actor_table.specs.declared.slot.Place.TheVariants.{Gone, Home};
ghost use Rattle.actor_table.specs.Slots.{can_act, can_settle, event_in, event_of, home_of, is_away, mail_of, may_at, may_event, owner_in, seat_of, IsOwnedBy};

use crate::change::Changes;
use actor_cell::Cell;
use behaviour_check::Checked;
use event_rule::Event;
use letter_kinds::{Letter, Note};
use mail_rows::MailRow;
use orca_names::{ActorName, NoMemory};
use std::alloc::Global;
use std::mem;
use std::snapshot::Snapshot;
use turn_rules::SpareFrame;

/// Where an actor's cell is. Of one that is away, proofs remember the cell.
#[derive(Drop)]
pub enum Place {
    Home(Cell),
    Away(Snapshot<Cell>),
    Gone,
}

/// An actor that was made: where its cell is, and the letters that wait for it.
#[derive(Drop)]
pub struct Slot {
    pub place: Place,
    pub mail: MailRow,
}

/// Whether the actor is present.
pub(crate) fn is_present(slot: &Slot) -> bool
    ensures { result ≡ is_some (seat_of slot.now) }
{
    !matches!(&slot.place, Place::Gone)
}

/// Its cell, where this is at home.
pub(crate) fn cell_of(slot: &Slot) -> Option<&Cell>
    ensures { option_copied result ≡ home_of slot.now }
{
    match &slot.place {
        Place::Home(cell) => Some(cell),
        _ => None,
    }
}

/// The letters that wait for it, where it is present.
pub(crate) fn mail_of(slot: &Slot) -> Option<&MailRow>
    ensures { option_copied result ≡ mail_of slot.now }
{
    match &slot.place {
        Place::Gone => None,
        _ => Some(&slot.mail),
    }
}

/// Whether an actor with this cell and these letters may report that it is blocked.
fn may_block(cell: &Cell, mail: &MailRow) -> bool
    ensures { result ≡ may_block (as_cell cell.now) mail.now.letters }
{
    !cell.frame.is_some() && mail.is_empty() && !(cell.dirty || cell.fields.pinned || cell.reported)
}

/// Whether it may do this event of its own.
#[inline(always)]
fn may_do(cell: &Cell, mail: &MailRow, e: &Event) -> bool
    ensures { result ≡ may_do (as_cell cell.now) mail.now.letters e.now }
{
    match *e {
        Event::Take(_) => !cell.frame.is_some() && !mail.is_empty(),
        Event::Go(_) => cell.frame.is_some(),
        Event::Collect(_) => !cell.frame.is_some() && cell.dirty,
        Event::Leave(_) => may_block(cell, mail) && cell.count.get() == 0,
        Event::Block(_) => may_block(cell, mail),
        Event::Hear | Event::Scan | Event::Reap(_) => false,
    }
}

/// Whether its cell is at home, and it may do this event of its own.
#[inline(always)]
pub(crate) fn may_event(slot: &Slot, e: &Event) -> bool
    ensures { result ≡ may_event e.now slot.now }
{
    match &slot.place {
        Place::Home(cell) => may_do(cell, &slot.mail, e),
        _ => false,
    }
}

/// Whether its cell is at home, and a behaviour of it runs.
pub(crate) fn goes_on(slot: &Slot) -> bool
    ensures { result ≡ may_at may_go slot.now }
{
    match &slot.place {
        Place::Home(cell) => cell.frame.is_some(),
        _ => false,
    }
}

/// Whether it goes on or takes a letter.
pub(crate) fn can_act(slot: &Slot) -> bool
    ensures { result ≡ can_act slot.now }
{
    match &slot.place {
        Place::Home(cell) => cell.frame.is_some() || !slot.mail.is_empty(),
        _ => false,
    }
}

/// Whether its cell is at home, and it collects, leaves or blocks once nothing else is to be done.
/// Letters change nothing of this.
pub(crate) fn can_settle(slot: &Slot) -> bool
    ensures { result ≡ can_settle slot.now }
{
    match &slot.place {
        Place::Home(cell) => {
            cell.frame.is_some() || cell.dirty || !(cell.fields.pinned || cell.reported)
        }
        _ => false,
    }
}

/// What the actor at home with this cell and these letters does first.
fn event_of_cell(cell: &Cell, mail: &MailRow, a: ActorName) -> Option<Event>
    ensures { result ≡ event_in a (record { cell = as_cell cell.now; mail = mail.now.letters }) }
{
    if cell.frame.is_some() {
        Some(Event::Go(a))
    } else if !mail.is_empty() {
        Some(Event::Take(a))
    } else if cell.dirty {
        Some(Event::Collect(a))
    } else if !may_block(cell, mail) {
        None
    } else if cell.count.get() == 0 {
        Some(Event::Leave(a))
    } else {
        Some(Event::Block(a))
    }
}

/// Its first event, in the one-worker order; none while its cell is away.
pub(crate) fn next_event(slot: &Slot, a: ActorName) -> Option<Event>
    ensures { result ≡ event_of a slot.now }
{
    match &slot.place {
        Place::Home(cell) => event_of_cell(cell, &slot.mail, a),
        _ => None,
    }
}

/// Takes the memory for the change, where the cell is at home.
#[inline(always)]
pub(crate) fn reserve<C: Changes>(
    slot: &mut Slot,
    change: &C,
    spare: &mut SpareFrame,
) -> Result<(), NoMemory>
    ensures seat { seat_of slot.new ≡ seat_of slot.old }
    ensures told { TellsOnly (SlotTells slot.old) [] (SlotTells slot.new) }
    ensures lie { PlaceLies slot.old.place → PlaceLies slot.new.place }
    ensures brings { BringsIts slot.old → BringsIts slot.new }
    ensures kept { KeepsPlace slot.old slot.new }
    ensures ok { OnOk result (HasRoomToChange (C.as_change change.now) slot.new) }
{
    let Place::Home(cell) = &mut slot.place else {
        return Ok(());
    };
    change.reserve(cell, &slot.mail, spare)
}

/// Takes the memory for so many letters, if the actor is present.
pub(crate) fn reserve_letters(slot: &mut Slot, n: usize) -> Result<(), NoMemory>
    ensures place { slot.new.place ≡ slot.old.place }
    ensures letters { slot.new.mail.letters ≡ slot.old.mail.letters }
    ensures brought { slot.new.mail.brought ≡ slot.old.mail.brought }
    ensures room { slot.old.mail.spare ≤ slot.new.mail.spare }
    ensures ok { OnOk result (is_some (seat_of slot.old) ≡ true → n ≤ slot.new.mail.spare) }
{
    if let Place::Gone = &slot.place {
        return Ok(());
    }
    slot.mail.reserve(n)
}

/// The actor goes, with its cell and its letters.
pub(crate) fn clear(alloc: Global, slot: &mut Slot)
    ensures place { slot.new.place ≡ Gone }
    ensures letters { (slot.new.mail.letters ≡ []) × (slot.new.mail.brought ≡ []) }
{
    *slot = Slot {
        place: Place::Gone,
        mail: MailRow::new(alloc),
    };
}

/// Lends the cell, if it is at home.
pub(crate) fn lift(slot: &mut Slot) -> Option<Cell>
    ensures cell { result ≡ home_of slot.old }
    ensures seat { seat_of slot.new ≡ seat_of slot.old }
    ensures away { is_away slot.new ≡ (if is_some result then true else is_away slot.old) }
    ensures owner { owner_in slot.new.place ≡ owner_in slot.old.place }
    ensures mail { slot.new.mail ≡ slot.old.mail }
    ensures told { TellsOnly (SlotTells slot.old) [] (SlotTells slot.new) }
    ensures lie { PlaceLies slot.old.place → PlaceLies slot.new.place }
{
    match mem::replace(&mut slot.place, Place::Gone) {
        Place::Home(cell) => {
            slot.place = Place::Away(Snapshot::of(&cell));
            Some(cell)
        }
        Place::Away(cell) => {
            slot.place = Place::Away(cell);
            None
        }
        Place::Gone => None,
    }
}

/// Takes back the cell that was lent.
pub(crate) fn put_back(slot: &mut Slot, cell: Cell)
    requires { is_away slot.old ≡ true }
    ensures place { slot.new.place ≡ Home cell }
    ensures mail { slot.new.mail ≡ slot.old.mail }
{
    slot.place = Place::Home(cell);
}

/// What the detector is to hear where the actor takes the first of its letters, if it has one.
#[inline(always)]
pub(crate) fn note_on(slot: &Slot) -> Option<Note>
    requires { IsSomeAnd (home_of slot.now) (λ c. ⊤) }
    ensures { (a : ℕ) → IsOwnedBy a slot.now.place → result ≡ note_taken a (seat_of slot.now) }
{
    let Place::Home(cell) = &slot.place else {
        unreachable!();
    };
    match slot.mail.front() {
        Some(letter) => cell.note_on(letter),
        None => None,
    }
}

/// The change is done, where the cell is at home, and gives the letter that it takes.
#[inline(always)]
pub(crate) fn change<C: Changes>(
    code: &Checked,
    slot: &mut Slot,
    change: &C,
    spare: &mut SpareFrame,
) -> Option<Letter>
    requires { IsSomeAnd (home_of slot.old)
        (λ c. CanChange c.heap.owner (C.as_change change.now) slot.old) }
    ensures seat { (a : ℕ) → IsOwnedBy a slot.old.place
        → seat_of slot.new ≡ seat_after code.now a (C.as_change change.now) (seat_of slot.old) }
    ensures told { (c : a_cell) → slot.old.place ≡ Home c
        → TellsOnly (SlotTells slot.old) (C.makes_in change.now c) (SlotTells slot.new) }
    ensures lie { C.puts_all change.now → PlaceLies slot.old.place → PlaceLies slot.new.place }
    ensures brings { BringsIts slot.old → BringsIts slot.new }
    ensures kept { KeepsPlace slot.old slot.new }
    ensures taken { option_map as_letter result
        ≡ letter_taken (C.as_change change.now) slot.old.mail.letters }
{
    let Place::Home(cell) = &mut slot.place else {
        unreachable!();
    };
    change.apply(code, cell, &mut slot.mail, spare)
}

/// One letter more, if the actor is present.
#[inline(always)]
pub(crate) fn push_letter(slot: &mut Slot, letter: Letter)
    requires { is_some (seat_of slot.old) ≡ true → 0 < slot.old.mail.spare }
    ensures seat { seat_of slot.new ≡ with_letter_more (as_letter letter) (seat_of slot.old) }
    ensures told { TellsOnly (SlotTells slot.old) (all_brought (brought_in letter)) (SlotTells slot.new) }
    ensures brings { BringsIts slot.old → BringsIts slot.new }
    ensures place { slot.new.place ≡ slot.old.place }
    ensures room { slot.old.mail.spare ≤ slot.new.mail.spare + 1 }
{
    if !is_present(slot) {
        return;
    }
    slot.mail.push(letter);
}
