// Go: a frame runs up to its next act.

ghost use Rattle.std.specs.Prelude.{◌≡◌, ◌+◌, ◌<◌, ◌≤◌, ◌^◌, ◌++◌, ◌∷◌, [], true, false, is_some, length, IfErr, IsSome, OnOk, None, Some};
ghost use Rattle.std.specs.FinMap as m;
ghost use Rattle.orca_names.specs.declared.limits.TheConstants.{ACTORS_LIMIT, BODY_LIMIT};
ghost use Rattle.orca_names.specs.declared.trace.Trace.{Trace as tracing};
ghost use Rattle.event_rule.specs.declared.event.Event.TheVariants.{Go as go_event};
ghost use Rattle.machine_rules.specs.Actors.{push_letter, seat};
ghost use Rattle.machine_rules.specs.Cell.{fresh_cell};
ghost use Rattle.machine_rules.specs.Options.{Options as choices};
ghost use Rattle.actor_cell.specs.Cells.{as_cell};
ghost use Rattle.actor_cell.specs.Tells.{told_out};
ghost use Rattle.actor_cell.specs.declared.cell.Cell.{Cell as a_cell};
ghost use Rattle.actor_table.specs.declared.slot.Place.TheVariants.{Home};
ghost use Rattle.actor_table.specs.Changes.{HasCell};
ghost use Rattle.actor_table.specs.Slots.{actors_of, away_of, may_event, places_of, slot_at};
ghost use Rattle.ref_weights.specs.Limit.{count_limit};
ghost use Rattle.actor_cell.specs.Goes.{out_of};
ghost use Rattle.actor_cell.specs.Moves.{act_in};
ghost use Rattle.letter_kinds.specs.Letters.{App as app, Inc as inc};
ghost use Rattle.letter_kinds.specs.Load.{as_load};
ghost use Rattle.letter_kinds.specs.Telling.{HoldsTold, TellsOnly, Told};
ghost use Rattle.actor_table.specs.Telling.{TableLies, TableTells};
ghost use Rattle.orca_parts.specs.Away.{KeepsAway};
ghost use Rattle.row_store.specs.Words.{SameWords};
ghost use Rattle.row_blocks.specs.Blocks.{MayPutFree};
ghost use Rattle.orca_parts.specs.Blocks.{AreKept, BlocksFit, HasBlocksFor};
ghost use Rattle.orca_parts.specs.Awaiting.{AwaitsMinted, IsAwaited};
ghost use Rattle.orca_parts.specs.Faults.{RefusedBy};
ghost use Rattle.orca_parts.specs.Fits.{KeepsTurn, OnlyRoom};
ghost use Rattle.orca_parts.specs.Goes.{CountsAllow, FitsGo, FitsPlaces, HasRoomForOne, HasRoomOut, HasRoomToPlace, IsFoundGo, MakesInLimit, given};
ghost use Rattle.orca_parts.specs.Core.{HasFound, HoldsFound, StandsWell};
ghost use Rattle.orca_parts.specs.Letters.{Posts};
ghost use Rattle.orca_parts.specs.Parts.{state_of};
ghost use Rattle.orca_parts.specs.Ready.{Applies, Lies, Prepares};
ghost use Rattle.orca_parts.specs.Woken.{IsLowestWoken};

use crate::fault::StepFault;
use crate::insides::Core;
use crate::letters::post;
use crate::parts::Parts;
use crate::placing::{place_made, reserve_placed};
use actor_cell::{Cell, Doing, Turned};
use actor_table::{ActorTable, Go};
use behaviour_check::Checked;
use behaviour_code::Name;
use event_rule::Event;
use letter_kinds::Letter;
use mail_rows::MailRow;
use orca_names::{ACTORS_LIMIT, ActorName, NoMemory};
use row_store::RowWords;
use std::alloc::Global;

// Takes the memory for what the act that was found gives out.
#[inline(always)]
fn reserve_out(alloc: Global, parts: &mut Parts) -> Result<(), NoMemory>
    requires { MakesInLimit parts.old }
    ensures same { OnlyRoom parts.old parts.new }
    ensures places { places_of parts.new.table.slots ≡ places_of parts.old.table.slots }
    ensures turn { KeepsTurn parts.old parts.new }
    ensures placed { parts.new.placed ≡ parts.old.placed }
    ensures ok { OnOk result (HasRoomOut (act_in parts.old.turned) parts.new) }
{
    match &parts.turned.doing {
        Doing::Post { to, behaviour: _ } => {
            let to = *to;
            parts.turned.reserve_letter(alloc)?;
            parts.table.reserve_letters(to, 1)
        }
        Doing::Mint { owner } => parts.table.reserve_letters(*owner, 1),
        Doing::New {
            kind: _,
            register: _,
        } => parts.table.reserve_actor(),
        Doing::Print { value: _ } => Ok(parts.prints.reserve(1)?),
        Doing::End | Doing::Rest => Ok(()),
    }
}

// Whether what was found makes an actor.
fn makes(found: &Turned) -> bool
    ensures { result ≡ is_some (out_of (act_in found.now)).made }
{
    matches!(
        found.doing,
        Doing::New {
            kind: _,
            register: _
        }
    )
}

// Takes the memory for what was found of the actor's turn, but for its blocks; the state stays as it was.
#[tactic(auto, using(crate::proofs::Preparing::no_memory, crate::proofs::Preparing::only_room))]
#[inline(always)]
fn reserve_turn(alloc: Global, m: &mut Core<'_>, a: ActorName) -> Result<(), StepFault>
    requires few { length m.old.parts.turn.made ≤ BODY_LIMIT }
    requires found { HasCell (slot_at m.old.parts.table.slots a)
        (IsFoundGo m.old.options m.old.code.now m.old.parts.blocks a m.old.parts.turn m.old.parts.turned) }
    requires limit { MakesInLimit m.old.parts }
    requires blocks { HasBlocksFor (act_in m.old.parts.turned) m.old.parts }
    requires placed { HasRoomToPlace m.old.parts }
    ensures prepares { Prepares (go_event a) m.old m.new result }
    ensures sends { told_out m.new.parts.turned ≡ told_out m.old.parts.turned }
{
    let change = Go {
        turn: &m.parts.turn,
        found: &m.parts.turned,
        name: m.parts.table.next_name(),
        weight: m.options.weight,
        blocks: &[],
    };
    m.parts.table.reserve(a, &change)?;
    reserve_out(alloc, &mut m.parts)?;
    Ok(())
}

// Takes all memory for what was found of the actor's turn; the state stays as it was.
#[tactic(auto, using(crate::proofs::Preparing::only_room))]
#[inline(always)]
fn prepare_turn(alloc: Global, m: &mut Core<'_>, a: ActorName) -> Result<(), StepFault>
    requires few { length m.old.parts.turn.made ≤ BODY_LIMIT }
    requires found { HasCell (slot_at m.old.parts.table.slots a)
        (IsFoundGo m.old.options m.old.code.now m.old.parts.blocks a m.old.parts.turn m.old.parts.turned) }
    ensures prepares { Prepares (go_event a) m.old m.new result }
    ensures sends { told_out m.new.parts.turned ≡ told_out m.old.parts.turned }
{
    if makes(&m.parts.turned) && m.parts.table.len() >= ACTORS_LIMIT {
        return Err(StepFault::ActorsFull { actor: a });
    }
    reserve_placed(&mut m.parts, a)?;
    reserve_turn(alloc, m, a)
}

// Finds the actor's turn, where it is not known. Where what was found last stands and awaits a letter of
// the actor, its turn isn't run again.
#[inline(always)]
fn find_turn<W: RowWords>(
    alloc: Global,
    m: &mut Core<'_>,
    known: bool,
    a: ActorName,
    words: &mut W,
) -> Result<(), StepFault>
    requires serials { (c : a_cell) → (slot_at m.old.parts.table.slots a).place ≡ Home c
        → c.heap.next + BODY_LIMIT < 2 ^ 64 }
    requires stands { StandsWell m.old }
    requires kept { AreKept m.old.parts.blocks (TableTells m.old.parts.table.slots) }
    requires hold { HoldsTold (W.known words.old) (TableTells m.old.parts.table.slots) }
    requires known { known ≡ true → HasFound (go_event a) m.old }
    requires holds { known ≡ true → HoldsFound (W.known words.old) (go_event a) m.old }
    ensures same { m.new ≡ record m.old {
      parts = record m.old.parts { turn = m.new.parts.turn; turned = m.new.parts.turned };
      stands = m.new.stands;
    } }
    ensures stands { StandsWell m.new }
    ensures found { OnOk result (HasCell (slot_at m.old.parts.table.slots a)
        (IsFoundGo m.old.options m.old.code.now m.old.parts.blocks a m.new.parts.turn m.new.parts.turned)) }
    ensures hold { OnOk result (HoldsTold (W.known words.new) (Told (told_out m.new.parts.turned))) }
    ensures few { OnOk result (length m.new.parts.turn.made ≤ BODY_LIMIT) }
    ensures fault { IfErr result (RefusedBy (may_event (go_event a) (slot_at m.old.parts.table.slots a))) }
    ensures words { SameWords W.known W.places W.beside words.old words.new }
{
    // The behaviours of a checked program are short.
    let _program = m.code.program();
    let stands = m.stands;
    m.stands = false;
    let Some(cell) = m.parts.table.acting(a, &Event::Go(a)) else {
        return Err(StepFault::NotEnabled);
    };
    if known {
        return Ok(());
    }
    let (code, options) = (m.code, m.options);
    let turn = &mut m.parts.turn;
    let found = &mut m.parts.turned;
    if stands {
        if let Some(letter) = found.awaits(a) {
            cell.find_again(alloc, code, options, turn, letter, found, words)?;
            m.stands = true;
            return Ok(());
        }
    }
    cell.find_go(alloc, code, options, turn, found, words)?;
    m.stands = true;
    Ok(())
}

/// Finds the actor's turn, where it is not known, and takes all memory for what it does; the state stays
/// as it was. Where what was found last stands, it serves again.
///
/// # Errors
/// `NotEnabled` exactly where the actor has no frame, or its cell is away; `ActorsFull` exactly where the
/// act would make an actor too many; `NoRows` exactly where, but for that, there are blocks, and the turn
/// would make more rows than are free; `NoMemory` where memory was refused.
#[inline(always)]
pub(crate) fn prepare_go<W: RowWords>(
    alloc: Global,
    m: &mut Core<'_>,
    known: bool,
    a: ActorName,
    words: &mut W,
) -> Result<(), StepFault>
    requires serials { (c : a_cell) → (slot_at m.old.parts.table.slots a).place ≡ Home c
        → c.heap.next + BODY_LIMIT < 2 ^ 64 }
    requires stands { StandsWell m.old }
    requires kept { AreKept m.old.parts.blocks (TableTells m.old.parts.table.slots) }
    requires hold { HoldsTold (W.known words.old) (TableTells m.old.parts.table.slots) }
    requires known { known ≡ true → HasFound (go_event a) m.old }
    requires holds { known ≡ true → HoldsFound (W.known words.old) (go_event a) m.old }
    ensures prepares { Prepares (go_event a) m.old m.new result }
    ensures words { SameWords W.known W.places W.beside words.old words.new }
    ensures hold { OnOk result (HoldsTold (W.known words.new) (Told (told_out m.new.parts.turned))) }
{
    find_turn(alloc, m, known, a, words)?;
    prepare_turn(alloc, m, a)
}

impl Parts {
    // The turn is kept: its objects count as made, and no letter is awaited.
    fn keep_turn(&mut self)
        requires { self.old.objects + length self.old.turn.made < 2 ^ 64 }
        ensures { self.new ≡ record self.old {
          objects = self.old.objects + length self.old.turn.made;
          turned = record self.old.turned { awaited = None };
        } }
    {
        self.objects += self.turn.made().len() as u64;
        self.turned.forget_letter();
    }
}

// An actor of the kind comes behind all others, and is told.
fn make(alloc: Global, code: &Checked, weight: u32, table: &mut ActorTable, kind: u32) -> ActorName
    requires light { weight < count_limit }
    requires few { length table.old.slots < ACTORS_LIMIT }
    requires room { 0 < table.old.spare }
    ensures actors { actors_of table.new.slots
        ≡ actors_of table.old.slots ++ seat (fresh_cell weight code.now kind) [] ∷ [] }
    ensures away { KeepsAway (away_of table.old.slots) (away_of table.new.slots) }
    ensures woken { IsLowestWoken (actors_of table.old.slots) (actors_of table.new.slots) (Some result) }
    ensures told { TellsOnly (TableTells table.old.slots) [] (TableTells table.new.slots) }
    ensures lie { TableLies table.old.slots → TableLies table.new.slots }
{
    let name = table.next_name();
    let cell = Cell::fresh(alloc, code, name, kind, u64::from(weight));
    table.push_actor(cell, MailRow::new(alloc));
    name
}

// The letter that was found moves to its actor, which is told where it is present.
#[inline(always)]
fn post_letter(
    alloc: Global,
    table: &mut ActorTable,
    found: &mut Turned,
    to: ActorName,
    behaviour: Name,
) -> Option<ActorName>
    requires room { HasRoomForOne to table.old.slots }
    requires letter { IsSome found.old.room }
    ensures posts { let load = as_load found.old.load in
        let letter = app behaviour found.old.args load (as_load found.old.rows) in
        Posts (push_letter to letter) (found.old.load ++ found.old.rows)
        table.old.slots table.new.slots result }
    ensures awaited { found.new.awaited ≡ found.old.awaited }
{
    post(table, to, found.take_letter(alloc, behaviour))
}

// What is minted is told to its owner, which is told where it is present.
#[inline(always)]
fn post_things(
    alloc: Global,
    table: &mut ActorTable,
    found: &mut Turned,
    owner: ActorName,
) -> Option<ActorName>
    requires { HasRoomForOne owner table.old.slots }
    ensures posts { Posts (push_letter owner (inc found.old.things)) [] table.old.slots table.new.slots result }
    ensures rest { found.new ≡ record found.old { things = found.new.things } }
{
    let things = found.take_things(alloc);
    post(table, owner, Letter::Inc { things })
}

// What the actor does where its turn stopped is given out, and the actor that gets it or is made is
// told. What was found stays where it is but for a letter or its things, which move out.
fn give_out(alloc: Global, code: &Checked, weight: u32, parts: &mut Parts) -> Option<ActorName>
    requires light { weight < count_limit }
    requires room { HasRoomOut (act_in parts.old.turned) parts.old }
    requires objects { parts.old.objects + length parts.old.turn.made < 2 ^ 64 }
    ensures state { (options : choices) → state_of code.now options parts.new
        ≡ given weight code.now (act_in parts.old.turned) (length parts.old.turn.made)
        (state_of code.now options parts.old) }
    ensures awaited { (trace : tracing) → AwaitsMinted trace code.now parts.old
        → IsAwaited trace code.now parts.new }
    ensures away { KeepsAway (away_of parts.old.table.slots) (away_of parts.new.table.slots) }
    ensures woken { IsLowestWoken (actors_of parts.old.table.slots) (actors_of parts.new.table.slots) result }
    ensures told { TellsOnly (TableTells parts.old.table.slots) (told_out parts.old.turned)
        (TableTells parts.new.table.slots) }
    ensures lie { TableLies parts.old.table.slots → TableLies parts.new.table.slots }
    ensures blocks { (parts.new.blocks ≡ parts.old.blocks) × (parts.new.placed ≡ parts.old.placed) }
{
    match &parts.turned.doing {
        Doing::Post { to, behaviour } => {
            let to = *to;
            let behaviour = *behaviour;
            parts.keep_turn();
            post_letter(alloc, &mut parts.table, &mut parts.turned, to, behaviour)
        }
        Doing::Mint { owner } => {
            let owner = *owner;
            post_things(alloc, &mut parts.table, &mut parts.turned, owner)
        }
        Doing::New { kind, register: _ } => {
            let kind = *kind;
            parts.keep_turn();
            Some(make(alloc, code, weight, &mut parts.table, kind))
        }
        Doing::Print { value } => {
            let value = *value;
            parts.keep_turn();
            parts.prints.push_reserved(value);
            None
        }
        Doing::End | Doing::Rest => {
            parts.keep_turn();
            None
        }
    }
}

/// What was found of the actor's turn is done, and the actor that gets a letter or is made is told. It
/// takes no memory.
pub(crate) fn apply_go<W: RowWords>(
    alloc: Global,
    m: &mut Core<'_>,
    a: ActorName,
    words: &mut W,
) -> Option<ActorName>
    requires light { m.old.options.weight ≤ 65536 }
    requires fits { FitsGo m.old.options m.old.code.now a m.old.parts.turned m.old.parts }
    requires places { FitsPlaces m.old.parts }
    requires can { (c : a_cell) → (slot_at m.old.parts.table.slots a).place ≡ Home c
        → CountsAllow a (act_in m.old.parts.turned) m.old.parts c }
    requires objects { m.old.parts.objects + BODY_LIMIT < 2 ^ 64 }
    requires blocks { BlocksFit m.old.options.trace m.old.parts.blocks m.old.parts.table.slots }
    requires hold { HoldsTold (W.known words.old) (TableTells m.old.parts.table.slots) }
    requires found { HoldsTold (W.known words.old) (Told (told_out m.old.parts.turned)) }
    requires put { MayPutFree m.old.parts.blocks (W.places words.old) }
    ensures applies { Applies (go_event a) m.old m.new result }
    ensures lies { Lies (W.known words.new) (go_event a) m.old m.new }
    ensures places { W.places words.new ≡ W.places words.old }
    ensures beside { W.beside words.new ≡ W.beside words.old }
{
    place_made(m, a, words);
    let change = Go {
        turn: &m.parts.turn,
        found: &m.parts.turned,
        name: m.parts.table.next_name(),
        weight: m.options.weight,
        blocks: m.parts.placed.as_slice(),
    };
    m.parts.table.change(m.code, a, &change);
    give_out(alloc, m.code, m.options.weight, &mut m.parts)
}
