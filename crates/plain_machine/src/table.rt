// The table of all actors, with an index of those that can do something.

ghost use Rattle.std.specs.Prelude.{◌≡◌, ℕ, ◌+◌, ◌<◌, ◌^◌, List, [], ◌∷◌, ◌++◌, All, IfNone, IfSome, length, slice_get, Some, None, OnOk, OnErr};
ghost use Rattle.std.specs.Bool.{OnTrue, OnFalse};
ghost use Rattle.std.specs.Option.{option_copied};
ghost use Rattle.orca_names.specs.declared.names.Value as names;
ghost use Rattle.event_rule.specs.Runs.{Goes, NotEnabled};
ghost use Rattle.plain_rules.specs.Machine.{objects_made, plain_row, plain_take, with_letter};
ghost use Rattle.plain_machine.specs.First.{ComesFirst, IsIdle};
ghost use Rattle.plain_machine.specs.Ready.{IsIndex};
ghost use Rattle.plain_machine.specs.State.{state_of};
ghost use Rattle.plain_machine.specs.Undo.{frame_left, with_first_rows, with_kept, with_rows};
ghost use Rattle.orca_names.specs.declared.limits.TheConstants.{ACTORS_LIMIT};

use crate::actor::take_letter;
use crate::acts::Stand;
use crate::first::{can_act, first_event};
use behaviour_check::Checked;
use event_rule::Event;
use orca_names::{ActorName, Fields, NoMemory, ObjName, Row, Rows, Value};
use plain_rules::{PlainActor, PlainLetter};
use ready_set::ReadySet;
use std::alloc::Global;
use std::marker::Model;
use turn_step::Turn;

/// The rows of all objects ever made.
#[derive(Clone, Copy)]
pub(crate) struct AllRows<'a> {
    pub actors: &'a [PlainActor],
}

impl Rows for AllRows<'_> {
    ghost use Rattle.plain_machine.specs.Objects.{all_objects, row_is_listed};

    ghost rows = { λ s n. plain_row s.actors.now n };

    ghost all = { λ s. all_objects 0 s.actors.now };

    ghost within = { λ s n row e. row_is_listed s.actors.now n row e };

    fn row_of(&self, n: ObjName) -> Option<&[Value]> {
        let owner = n.owner.0 as usize;
        if owner >= self.actors.len() {
            return None;
        }
        match self.actors[owner].rows.get(n.serial.get() as usize) {
            Some(row) => Some(row.as_slice()),
            None => None,
        }
    }
}

/// How many objects these actors made.
pub(crate) fn count_objects(actors: &[PlainActor]) -> u64
    requires { objects_made actors.now < 2 ^ 64 }
    ensures { result ≡ objects_made actors.now }
{
    actors.iter().map(|x| x.rows.len() as u64).sum()
}

/// The actor of a name, if it was made.
pub(crate) fn actor_at(actors: &[PlainActor], a: ActorName) -> Option<&PlainActor>
    ensures { option_copied result ≡ slice_get actors.now a }
{
    actors.get(a.0 as usize)
}

/// All actors ever made, by number, seen by contracts as their list. It is kept of each whether it
/// can do something, so that the first that can is found without a walk.
#[derive(Drop)]
pub(crate) struct Table {
    actors: Vec<PlainActor>,
    ready: ReadySet,
}

impl Model for Table {
    ghost use Rattle.std.specs.Prelude.{List};
    ghost use Rattle.plain_rules.specs.declared.PlainActor as rules;
    ghost use Rattle.plain_machine.specs.Ready.{IsIndex};

    ghost Value = { List rules.PlainActor };

    ghost view = { λ t. t.actors.items };

    ghost invariant = { λ t. IsIndex t.ready t.actors.items };
}

/// Makes sure that the index has a place for one actor more.
#[tactic(auto, using(crate::proofs::Indexing::index_after_grow))]
fn reserve_place(ready: &mut ReadySet, actors: &[PlainActor]) -> Result<(), NoMemory>
    requires few { length actors.now < ACTORS_LIMIT }
    requires index { IsIndex ready.old actors.now }
    ensures index { IsIndex ready.new actors.now }
    ensures ok { OnOk result (length actors.now < length ready.new) }
{
    if actors.len() == ready.len() {
        ready.grow()?;
    }
    Ok(())
}

impl Table {
    /// No actors. It takes no memory.
    pub fn new(alloc: Global) -> Table
        ensures { result ≡ [] }
    {
        Table {
            actors: Vec::new(alloc),
            ready: ReadySet::new(alloc),
        }
    }

    /// The actors, by number.
    pub fn as_slice(&self) -> &[PlainActor]
        ensures { result.now ≡ self.now }
    {
        self.actors.as_slice()
    }

    /// How many actors were made.
    pub fn len(&self) -> usize
        ensures { result ≡ length self.now }
    {
        self.actors.len()
    }

    /// What the first actor that can do something does.
    pub fn first_event(&self) -> Option<Event>
        ensures none { IfNone result (All IsIdle self.now) }
        ensures some { IfSome result (ComesFirst self.now) }
    {
        first_event(&self.actors, &self.ready)
    }

    /// One actor more.
    #[inline(always)]
    pub fn push(&mut self, actor: PlainActor) -> Result<(), NoMemory>
        requires { length self.old < ACTORS_LIMIT }
        ensures ok { OnOk result (self.new ≡ self.old ++ actor ∷ []) }
        ensures err { OnErr result (self.new ≡ self.old) }
    {
        let place = self.actors.len();
        reserve_place(&mut self.ready, &self.actors)?;
        self.actors.reserve(1)?;
        let on = can_act(&actor);
        self.actors.push_reserved(actor);
        self.ready.put(place as u32, on);
        Ok(())
    }

    /// The actor takes its first letter, where it has one and no frame.
    pub fn take(&mut self, code: &Checked, a: ActorName) -> bool
        ensures done { OnTrue result ((prints : List names.Value) (steps : ℕ) →
            plain_take (state_of code.now self.old prints steps) a ≡ Goes (state_of code.now self.new prints (steps + 1))) }
        ensures not_ready { OnFalse result ((prints : List names.Value) (steps : ℕ) →
            plain_take (state_of code.now self.old prints steps) a ≡ NotEnabled) }
        ensures same { OnFalse result (self.new ≡ self.old) }
    {
        let place = a.0 as usize;
        if place >= self.actors.len() {
            return false;
        }
        let actor = &mut self.actors[place];
        if take_letter(code, actor) {
            self.ready.put(a.0, can_act(actor));
            true
        } else {
            false
        }
    }

    /// More rows for an actor.
    pub fn add_rows(&mut self, a: ActorName, made: &[Row]) -> Result<(), NoMemory>
        requires { a < length self.old }
        ensures ok { OnOk result (self.new ≡ with_rows self.old a made.now) }
        ensures err { OnErr result (self.new ≡ self.old) }
    {
        if !made.is_empty() {
            let actor = &mut self.actors[a.0 as usize];
            actor.rows.extend_from_slice(made)?;
            self.ready.put(a.0, can_act(actor));
        }
        Ok(())
    }

    /// The first rows of an actor; the others are dropped.
    pub fn drop_rows(&mut self, a: ActorName, rows: usize)
        requires { a < length self.old }
        ensures { self.new ≡ with_first_rows self.old a rows }
    {
        let actor = &mut self.actors[a.0 as usize];
        actor.rows.truncate(rows);
        self.ready.put(a.0, can_act(actor));
    }

    /// Puts the registers and fields of a turn that goes on into its actor.
    pub fn keep_turn(&mut self, a: ActorName, stand: &Stand, turn: &Turn)
        requires { a < length self.old }
        ensures { self.new
            ≡ with_kept self.old a (Some (frame_left stand.now turn.now)) turn.now.fields }
    {
        let actor = &mut self.actors[a.0 as usize];
        actor
            .frame
            .keep(stand.kind, stand.behaviour, stand.place, turn.registers());
        actor.fields.copy_from(turn.fields());
        self.ready.put(a.0, can_act(actor));
    }

    /// Puts the fields of a turn that ended into its actor.
    pub fn end_turn(&mut self, a: ActorName, fields: &Fields)
        requires { a < length self.old }
        ensures { self.new ≡ with_kept self.old a None fields.now }
    {
        let actor = &mut self.actors[a.0 as usize];
        actor.frame.end();
        actor.fields.copy_from(fields);
        self.ready.put(a.0, can_act(actor));
    }

    /// One letter more for an actor that was made.
    pub fn post(&mut self, to: ActorName, letter: PlainLetter) -> Result<(), NoMemory>
        ensures ok { OnOk result (self.new ≡ with_letter self.old to letter) }
        ensures err { OnErr result (self.new ≡ self.old) }
    {
        let place = to.0 as usize;
        if place < self.actors.len() {
            let actor = &mut self.actors[place];
            actor.letters.push_back(letter)?;
            self.ready.put(to.0, can_act(actor));
        }
        Ok(())
    }
}
