// The table.

ghost use Rattle.std.specs.Prelude.{◌≡◌, ◌==◌, ◌+◌, ◌<◌, ◌≤◌, ◌++◌, ◌∷◌, ◌≢◌, [], ℕ, false, length, if◌then◌else◌, is_some, option_map, position, IfSome, OnOk, Some, None, set, true, ⊤};
ghost use Rattle.std.specs.Option.{option_copied};
ghost use Rattle.letter_kinds.specs.Letters.{as_letter};
ghost use Rattle.letter_kinds.specs.Telling.{TellsOnly, all_brought, brought_in};
ghost use Rattle.machine_rules.specs.Actors.{push_letter, seat_at};
ghost use Rattle.actor_cell.specs.Cells.{as_cell};
ghost use Rattle.actor_cell.specs.Tells.{AllIn, Tells};
ghost use Rattle.actor_cell.specs.declared.cell.Cell.{Cell as a_cell};
ghost use Rattle.orca_names.specs.declared.limits.TheConstants.{ACTORS_LIMIT};
ghost use Rattle.actor_table.specs.declared.slot.Place.TheVariants.{Gone, Home};
ghost use Rattle.actor_table.specs.Bringing.{AreBrought};
ghost use Rattle.actor_table.specs.Changes.{CanChange, HasCell, HasRoomToChange, KeepsRest, KeepsSpace, OnlyTableRoom, changed_at, letter_taken, note_taken, seat_after};
ghost use Rattle.actor_table.specs.Index.{IsIndex};
ghost use Rattle.actor_table.specs.Rounds.{IsNextThat, has_event};
ghost use Rattle.actor_table.specs.Slots.{IsOwnedBy, actors_of, away_of, can_act, can_settle, event_of, gone, home_of, is_away, mail_of, may_event, slot_at};
ghost use Rattle.actor_table.specs.Telling.{PlaceTells, TableLies, TableTells};

use crate::bits::{put_bits, put_bits_after, reserve_bits};
use crate::change::Changes;
use crate::rounds::Round;
use crate::slot;
use crate::slot::{Place, Slot, can_act};
use actor_cell::Cell;
use behaviour_check::Checked;
use event_rule::Event;
use letter_kinds::{Letter, Note};
use mail_rows::MailRow;
use orca_names::{ActorName, NoMemory};
use ready_set::ReadySet;
use std::alloc::Global;
use std::marker::Model;
use turn_rules::SpareFrame;

/// All actors ever made, by number, seen by contracts as their places and the room for further
/// ones. Two indexes tell who acts, and who settles once nothing else is to be done. The memory of the
/// frame that ended last is kept for the next that starts.
#[derive(Drop)]
pub struct ActorTable {
    slots: Vec<Slot>,
    acting: ReadySet,
    settling: ReadySet,
    spare_frame: SpareFrame,
}

impl Model for ActorTable {
    ghost use Rattle.std.specs.Prelude.{◌-◌, length, min, vec_capacity, vec_len};
    ghost use Rattle.std.specs.Coded.{codes};
    ghost use Rattle.actor_table.specs.Codes.{coded_blocks, coded_entries, coded_known, coded_own, coded_own_blocks};
    ghost use Rattle.actor_table.specs.Slots.{AreIndexed, Table};

    ghost Value = { Table };

    ghost coded = { Prim.hlevel (
      codes,
      coded_own,
      coded_own_blocks,
      coded_entries,
      coded_known,
      coded_blocks,
    ) };

    ghost view = { λ t. record {
      slots = t.slots.items;
      spare = min (vec_capacity t.slots) (min (length t.acting) (length t.settling)) - vec_len t.slots;
    } };

    ghost invariant = { λ t. AreIndexed t.slots.items t.acting t.settling };
}

// The actor with this number, if there is one.
#[inline(always)]
fn named(number: Option<u32>) -> Option<ActorName>
    ensures { result ≡ number }
{
    match number {
        Some(a) => Some(ActorName(a)),
        None => None,
    }
}

impl ActorTable {
    // Who has events in the round.
    fn ready(&self, round: Round) -> &ReadySet
        ensures index { IsIndex (has_event round) gone result.now self.now.slots }
        ensures few { length self.now.slots ≤ ACTORS_LIMIT }
    {
        match round {
            Round::Acting => &self.acting,
            Round::Settling => &self.settling,
        }
    }

    /// No actors. It takes no memory.
    pub fn new(alloc: Global) -> ActorTable
        ensures { result.slots ≡ [] }
    {
        ActorTable {
            slots: Vec::new(alloc),
            acting: ReadySet::new(alloc),
            settling: ReadySet::new(alloc),
            spare_frame: SpareFrame::new(alloc),
        }
    }

    /// How many actors were made.
    pub fn len(&self) -> usize
        ensures { result ≡ length self.now.slots }
    {
        self.slots.len()
    }

    /// The name that the next actor gets.
    pub fn next_name(&self) -> ActorName
        ensures { result ≡ length self.now.slots }
    {
        ActorName(self.slots.len() as u32)
    }

    /// Whether the actor is present.
    pub fn lives(&self, a: ActorName) -> bool
        ensures { result ≡ is_some (seat_at (actors_of self.now.slots) a) }
    {
        match self.slots.get(a.0 as usize) {
            Some(slot) => slot::is_present(slot),
            None => false,
        }
    }

    /// The cell of an actor; `None` exactly where the actor is not present or its cell is away.
    pub fn cell(&self, a: ActorName) -> Option<&Cell>
        ensures cell { option_copied result ≡ home_of (slot_at self.now.slots a) }
        ensures owner { IfSome result (λ c. c.now.heap.owner ≡ a) }
    {
        slot::cell_of(self.slots.get(a.0 as usize)?)
    }

    /// The letters that wait for an actor; `None` exactly where the actor is not present.
    pub fn mail(&self, a: ActorName) -> Option<&MailRow>
        ensures { option_copied result ≡ mail_of (slot_at self.now.slots a) }
    {
        slot::mail_of(self.slots.get(a.0 as usize)?)
    }

    /// Whether the cell of the actor is at home, and it may do this event of its own.
    #[inline(always)]
    pub fn may(&self, a: ActorName, e: &Event) -> bool
        ensures { result ≡ may_event e.now (slot_at self.now.slots a) }
    {
        match self.slots.get(a.0 as usize) {
            Some(slot) => slot::may_event(slot, e),
            None => false,
        }
    }

    /// The cell of an actor that may do this event of its own; `None` exactly where it may not, or its
    /// cell is away.
    #[inline(always)]
    pub fn acting(&self, a: ActorName, e: &Event) -> Option<&Cell>
        ensures cell { let x = slot_at self.now.slots a in
            option_copied result ≡ (if may_event e.now x then home_of x else None) }
        ensures owner { IfSome result (λ c. c.now.heap.owner ≡ a) }
    {
        match self.slots.get(a.0 as usize) {
            Some(slot) if slot::may_event(slot, e) => slot::cell_of(slot),
            _ => None,
        }
    }

    /// The first event of the actor, in the one-worker order; none while its cell is away.
    pub fn next_of(&self, a: ActorName) -> Option<Event>
        ensures { result ≡ event_of a (slot_at self.now.slots a) }
    {
        slot::next_event(self.slots.get(a.0 as usize)?, a)
    }

    /// The first actor that goes on or takes a letter.
    #[tactic(auto, using(crate::proofs::Changing::first_read))]
    pub fn first_acting(&self) -> Option<ActorName>
        ensures { result ≡ position can_act self.now.slots }
    {
        named(self.acting.first())
    }

    /// The first actor that collects, leaves or blocks once it neither goes on nor takes a letter; where
    /// none acts, the first that does so now.
    #[tactic(auto, using(crate::proofs::Changing::first_read))]
    pub fn first_settling(&self) -> Option<ActorName>
        ensures { result ≡ position can_settle self.now.slots }
    {
        named(self.settling.first())
    }

    /// The first actor from this one on that has an event in the round once it has none in the round
    /// before; `None` where none has.
    #[tactic(auto, using(crate::proofs::Indexing::next_read, crate::proofs::Indexing::next_within))]
    pub fn next_in(&self, round: Round, from: ActorName) -> Option<ActorName>
        ensures next { IsNextThat (λ a. has_event round (slot_at self.now.slots a)) from result }
        ensures made { IfSome result (λ a. a < length self.now.slots) }
        ensures few { IfSome result (λ a. a < ACTORS_LIMIT) }
    {
        named(self.ready(round).next(from.0))
    }

    /// Each cell is its actor's, each letter that waits tells of the rows that it brings and of no
    /// others, and none waits for an actor that is gone.
    #[inline(always)]
    pub fn tells_its_own(&self)
        ensures owned { (a : ℕ) → IsOwnedBy a (slot_at self.now.slots a).place }
        ensures brings { (a : ℕ) → AreBrought (slot_at self.now.slots a).mail.letters
            (slot_at self.now.slots a).mail.brought }
        ensures none { (a : ℕ) → (slot_at self.now.slots a).place ≡ Gone
            → (slot_at self.now.slots a).mail.brought ≡ [] }
    {
        // A field is named, so that the proof sees what the type keeps.
        let _ = &self.slots;
    }

    /// Takes the memory for the change of an actor.
    ///
    /// # Errors
    /// `NoMemory` where memory was refused.
    #[tactic(auto, using(crate::proofs::Changing::one_place))]
    #[inline(always)]
    pub fn reserve<C: Changes>(&mut self, a: ActorName, change: &C) -> Result<(), NoMemory>
        ensures actors { actors_of self.new.slots ≡ actors_of self.old.slots }
        ensures told { TellsOnly (TableTells self.old.slots) [] (TableTells self.new.slots) }
        ensures lie { TableLies self.old.slots → TableLies self.new.slots }
        ensures rest { KeepsRest self.old self.new }
        ensures ok { OnOk result (HasRoomToChange (C.as_change change.now) (slot_at self.new.slots a)) }
    {
        if a.0 as usize >= self.slots.len() {
            return Ok(());
        }
        slot::reserve(&mut self.slots[a.0 as usize], change, &mut self.spare_frame)
    }

    /// Takes the memory for so many letters to an actor.
    ///
    /// # Errors
    /// `NoMemory` where memory was refused.
    #[tactic(auto, using(crate::proofs::Changing::one_place))]
    pub fn reserve_letters(&mut self, to: ActorName, n: usize) -> Result<(), NoMemory>
        ensures same { OnlyTableRoom self.old self.new }
        ensures lie { TableLies self.old.slots → TableLies self.new.slots }
        ensures ok { OnOk result (is_some (seat_at (actors_of self.old.slots) to) ≡ true
            → n ≤ (slot_at self.new.slots to).mail.spare) }
    {
        if to.0 as usize >= self.slots.len() {
            return Ok(());
        }
        slot::reserve_letters(&mut self.slots[to.0 as usize], n)
    }

    /// Takes the memory for one actor more.
    ///
    /// # Errors
    /// `NoMemory` where memory was refused.
    #[inline(always)]
    pub fn reserve_actor(&mut self) -> Result<(), NoMemory>
        requires few { length self.old.slots < ACTORS_LIMIT }
        ensures slots { self.new.slots ≡ self.old.slots }
        ensures lie { TableLies self.old.slots → TableLies self.new.slots }
        ensures ok { OnOk result (0 < self.new.spare) }
    {
        reserve_bits(&self.slots, &mut self.acting, &mut self.settling)?;
        self.slots.reserve(1)?;
        Ok(())
    }

    /// One actor more, with this cell and these letters. It takes no memory.
    #[inline(always)]
    pub fn push_actor(&mut self, cell: Cell, mail: MailRow)
        requires room { 0 < self.old.spare }
        requires few { length self.old.slots < ACTORS_LIMIT }
        requires owner { cell.heap.owner ≡ length self.old.slots }
        requires brings { AreBrought mail.letters mail.brought }
        ensures slots { self.new.slots
            ≡ self.old.slots ++ record { place = Home cell; mail = mail } ∷ [] }
        ensures lie { AllIn cell.heap → TableLies self.old.slots → TableLies self.new.slots }
    {
        let made = self.slots.len();
        let slot = Slot {
            place: Place::Home(cell),
            mail,
        };
        put_bits(&slot, &mut self.acting, &mut self.settling, made as u32);
        self.slots.push_reserved(slot);
    }

    /// What the detector is to hear where the actor takes the first of its letters, if it has one.
    #[inline(always)]
    pub fn note_on(&self, a: ActorName) -> Option<Note>
        requires { HasCell (slot_at self.now.slots a) (λ c. ⊤) }
        ensures { result ≡ note_taken a (seat_at (actors_of self.now.slots) a) }
    {
        slot::note_on(&self.slots[a.0 as usize])
    }

    /// The change of an actor is done, and gives the letter that it takes. It takes no memory.
    #[tactic(auto, using(crate::proofs::Changing::one_place))]
    #[inline(always)]
    pub fn change<C: Changes>(&mut self, code: &Checked, a: ActorName, change: &C) -> Option<Letter>
        requires { CanChange a (C.as_change change.now) (slot_at self.old.slots a) }
        ensures actors { actors_of self.new.slots
            ≡ changed_at (seat_after code.now a (C.as_change change.now)) a (actors_of self.old.slots) }
        ensures told { (c : a_cell) → (slot_at self.old.slots a).place ≡ Home c
            → TellsOnly (TableTells self.old.slots) (C.makes_in change.now c)
            (TableTells self.new.slots) }
        ensures lie { C.puts_all change.now
            → TableLies self.old.slots → TableLies self.new.slots }
        ensures rest { KeepsRest self.old self.new }
        ensures taken { option_map as_letter result
            ≡ letter_taken (C.as_change change.now) (slot_at self.old.slots a).mail.letters }
    {
        let slot = &mut self.slots[a.0 as usize];
        let taken = slot::change(code, slot, change, &mut self.spare_frame);
        put_bits_after(slot, &mut self.acting, &mut self.settling, a.0, change);
        taken
    }

    /// A letter for an actor; where this is gone, the letter is lost.
    #[tactic(auto, using(crate::proofs::Changing::one_place, crate::proofs::Changing::lost_past))]
    #[inline(always)]
    pub fn push_letter(&mut self, to: ActorName, letter: Letter)
        requires { is_some (seat_at (actors_of self.old.slots) to) ≡ true
            → 0 < (slot_at self.old.slots to).mail.spare }
        ensures actors { actors_of self.new.slots
            ≡ push_letter to (as_letter letter) (actors_of self.old.slots) }
        ensures told { TellsOnly (TableTells self.old.slots) (all_brought (brought_in letter))
            (TableTells self.new.slots) }
        ensures lie { TableLies self.old.slots → TableLies self.new.slots }
        ensures spare { self.new.spare ≡ self.old.spare }
        ensures away { away_of self.new.slots ≡ away_of self.old.slots }
        ensures room { (b : ℕ) → (slot_at self.old.slots b).mail.spare
            ≤ (slot_at self.new.slots b).mail.spare + (if b == to then 1 else 0) }
    {
        if to.0 as usize >= self.slots.len() {
            return;
        }
        let slot = &mut self.slots[to.0 as usize];
        slot::push_letter(slot, letter);
        self.acting.put(to.0, can_act(slot));
    }

    /// The actor goes, with its cell and its letters. It takes no memory.
    #[tactic(auto, using(crate::proofs::Changing::one_place))]
    #[inline(always)]
    pub fn clear(&mut self, alloc: Global, a: ActorName)
        ensures actors { actors_of self.new.slots ≡ set (actors_of self.old.slots) a None }
        ensures told { TellsOnly (TableTells self.old.slots) [] (TableTells self.new.slots) }
        ensures lie { TableLies self.old.slots → TableLies self.new.slots }
        ensures spare { self.new.spare ≡ self.old.spare }
        ensures away { away_of self.new.slots ≡ set (away_of self.old.slots) a false }
        ensures room { (b : ℕ) → b ≢ a → slot_at self.new.slots b ≡ slot_at self.old.slots b }
    {
        if a.0 as usize >= self.slots.len() {
            return;
        }
        let slot = &mut self.slots[a.0 as usize];
        slot::clear(alloc, slot);
        put_bits(slot, &mut self.acting, &mut self.settling, a.0);
    }

    /// Lends the cell of an actor; `None` exactly where the actor is not present or its cell is away.
    /// It takes no memory.
    #[tactic(auto, using(crate::proofs::Changing::one_place))]
    pub fn lift(&mut self, a: ActorName) -> Option<Cell>
        ensures cell { result ≡ home_of (slot_at self.old.slots a) }
        ensures owner { IfSome result (λ c. c.heap.owner ≡ a) }
        ensures actors { actors_of self.new.slots ≡ actors_of self.old.slots }
        ensures away { away_of self.new.slots
            ≡ (if is_some result then set (away_of self.old.slots) a true else away_of self.old.slots) }
        ensures told { TellsOnly (TableTells self.old.slots) [] (TableTells self.new.slots) }
        ensures lie { TableLies self.old.slots → TableLies self.new.slots }
        ensures space { KeepsSpace self.old self.new }
    {
        if a.0 as usize >= self.slots.len() {
            return None;
        }
        let slot = &mut self.slots[a.0 as usize];
        let lent = slot::lift(slot);
        put_bits(slot, &mut self.acting, &mut self.settling, a.0);
        lent
    }

    /// Takes back the cell that was lent, unchanged; of rows in blocks it tells no more than it did. It
    /// takes no memory.
    #[tactic(auto, using(crate::proofs::Changing::one_place))]
    pub fn put_back(&mut self, a: ActorName, cell: Cell)
        requires away { is_away (slot_at self.old.slots a) ≡ true }
        requires same { option_map (λ o. o.cell) (seat_at (actors_of self.old.slots) a)
            ≡ Some (as_cell cell) }
        requires owner { cell.heap.owner ≡ a }
        requires told { TellsOnly (PlaceTells (slot_at self.old.slots a).place) [] (Tells cell) }
        ensures place { (slot_at self.new.slots a).place ≡ Home cell }
        ensures actors { actors_of self.new.slots ≡ actors_of self.old.slots }
        ensures away { away_of self.new.slots ≡ set (away_of self.old.slots) a false }
        ensures told { TellsOnly (TableTells self.old.slots) [] (TableTells self.new.slots) }
        ensures lie { AllIn cell.heap → TableLies self.old.slots → TableLies self.new.slots }
        ensures space { KeepsSpace self.old self.new }
    {
        let slot = &mut self.slots[a.0 as usize];
        slot::put_back(slot, cell);
        put_bits(slot, &mut self.acting, &mut self.settling, a.0);
    }
}
