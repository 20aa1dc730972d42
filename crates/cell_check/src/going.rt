// An actor's events, each where its counts allow it.

ghost use Rattle.std.specs.Prelude.{◌≡◌, ◌+◌, ◌<◌, ◌^◌, IsSome, IsTrue, None, length};
ghost use Rattle.actor_cell.specs.Cells.{as_cell};
ghost use Rattle.actor_cell.specs.Goes.{CanMove};
ghost use Rattle.actor_cell.specs.Moves.{act_in};
ghost use Rattle.actor_cell.specs.Takes.{CanTake};
ghost use Rattle.letter_kinds.specs.Letters.{as_letter};
ghost use Rattle.letter_kinds.specs.Load.{as_load};
ghost use Rattle.letter_kinds.specs.Telling.{TellsNothing, Told, all_brought, brought_in};
ghost use Rattle.actor_cell.specs.Tells.{Tells};
ghost use Rattle.cell_check.specs.Spare.{AreLow, AreSpare, IsLow, IsSpare};
ghost use Rattle.turn_rules.specs.Segment as segments;

use actor_cell::{Cell, Out, Turned};
use behaviour_check::{Checked, check};
use behaviour_text::parse;
use foreign_table::ForeignTable;
use known_rows::KnownPlaces;
use letter_kinds::{Amounts, Letter, Load};
use orca_names::{Options, Thing, Trace};
use row_store::{NoBlocks, Told as ToldRow};
use std::alloc::Global;
use std::test::Fail;
use turn_rules::SpareFrame;
use turn_step::Turn;

const WEIGHT: u32 = 256;

/// The program of a text.
pub(crate) fn checked(alloc: Global, text: &str) -> Result<Checked, Fail> {
    if text.len() > 4096 {
        return Err(Fail::from("a long text"));
    }
    Ok(check(parse(alloc, text.as_bytes())?)?)
}

/// What the idle actor gives out as it takes a letter.
pub(crate) fn takes(
    alloc: Global,
    code: &Checked,
    cell: &mut Cell,
    letter: Letter,
) -> Result<Out, Fail>
    requires idle { cell.old.frame ≡ None }
    requires can { CanTake cell.old.heap.owner (as_letter letter) (as_cell cell.old).holdings }
    requires brought { TellsNothing (Told (all_brought (brought_in letter))) }
    ensures { TellsNothing (Tells cell.old) → TellsNothing (Tells cell.new) }
{
    match cell.take(alloc, code, letter) {
        Ok(out) => Ok(out),
        Err(_) => Err(Fail::from("it can't be taken")),
    }
}

/// Whether another's thing is held so often at least.
fn is_spare(loaded: &(Thing, ToldRow), cell: &Cell, least: u64) -> bool
    ensures { IsTrue result
        → IsSpare cell.now.heap.owner (as_cell cell.now).holdings least (loaded.now.0, None) }
{
    let me = cell.heap.owner();
    if loaded.0.owner() == me {
        return false;
    }
    cell.foreign.count(loaded.0) >= least
}

/// Whether a load has few things, each another's that is held so often at least.
pub(crate) fn are_spare(load: &Load, cell: &Cell, least: u64) -> bool
    ensures { IsTrue result
        → AreSpare cell.now.heap.owner (as_cell cell.now).holdings least (as_load load.now) }
{
    if load.len() > 8 {
        return false;
    }
    let (items, _) = load.parts();
    for loaded in items {
        if !is_spare(loaded, cell, least) {
            return false;
        }
    }
    true
}

/// Whether a thing is held at most a thousand times, and an amount is not above the weight.
fn is_low(amount: &(Thing, u64), cell: &Cell) -> bool
    ensures { IsTrue result → IsLow (as_cell cell.now).holdings amount.now }
{
    cell.foreign.count(amount.0) <= 1000 && amount.1 <= 256
}

/// Whether these are few things, each held so rarely.
fn are_low(things: &Amounts, cell: &Cell) -> bool
    ensures { IsTrue result → AreLow (as_cell cell.now).holdings things.now }
{
    if things.len() > 8 {
        return false;
    }
    for amount in things.as_slice() {
        if !is_low(amount, cell) {
            return false;
        }
    }
    true
}

/// Whether its counts allow what an actor was found to do.
fn allows(cell: &Cell, found: &Turned) -> bool
    ensures { (turn : segments.Turn) → IsTrue result
        → CanMove cell.now.heap.owner (as_cell cell.now).holdings turn (act_in found.now) }
{
    if !are_spare(&found.load, cell, 8) {
        return false;
    }
    are_low(&found.things, cell)
}

/// What the actor gives out as it goes on, if its counts allow what it would do.
fn goes_over(
    alloc: Global,
    code: &Checked,
    cell: &mut Cell,
    turn: &mut Turn,
    found: &mut Turned,
) -> Result<Out, Fail>
    requires { TellsNothing (Tells cell.old) }
    ensures { TellsNothing (Tells cell.new) }
{
    if !cell.frame.is_some() || cell.heap.made() > 1000 {
        return Err(Fail::from("it cannot go"));
    }
    let options = Options {
        weight: WEIGHT,
        trace: Trace::Deep,
    };
    cell.find_go(alloc, code, options, turn, found, &mut NoBlocks::default())?;
    if !allows(cell, found) {
        return Err(Fail::from("its counts do not allow what it would do"));
    }
    Ok(cell.go(alloc, code, WEIGHT, Trace::Deep, &mut NoBlocks::default())?)
}

/// The same, in a turn of its own.
pub(crate) fn goes(alloc: Global, code: &Checked, cell: &mut Cell) -> Result<Out, Fail>
    requires { TellsNothing (Tells cell.old) }
    ensures { TellsNothing (Tells cell.new) }
{
    let mut turn = Turn::new(alloc);
    let mut found = Turned::new(alloc);
    goes_over(alloc, code, cell, &mut turn, &mut found)
}

// What was found of the actor's turn is done, and the rows that it made lie in these blocks.
fn does_in(
    cell: &mut Cell,
    turn: &Turn,
    found: &Turned,
    blocks: &[u32],
    spare: &mut SpareFrame,
) -> Result<(), Fail>
    requires running { IsSome cell.old.frame }
    requires can { CanMove cell.old.heap.owner (as_cell cell.old).holdings turn.now
        (act_in found.now) }
    requires serials { cell.old.heap.next + length turn.now.made < 2 ^ 64 }
{
    cell.reserve_go(turn, found)?;
    cell.apply_go(turn, found, blocks, spare);
    Ok(())
}

/// The actor goes on, if its counts allow what it would do, and the rows that it makes lie in these
/// blocks.
pub(crate) fn goes_in(
    alloc: Global,
    code: &Checked,
    cell: &mut Cell,
    blocks: &[u32],
) -> Result<(), Fail>
    requires { TellsNothing (Tells cell.old) }
{
    if !cell.frame.is_some() || cell.heap.made() > 1000 {
        return Err(Fail::from("it cannot go"));
    }
    let options = Options {
        weight: WEIGHT,
        trace: Trace::Deep,
    };
    let mut turn = Turn::new(alloc);
    let mut found = Turned::new(alloc);
    let words = &mut NoBlocks::default();
    cell.find_go(alloc, code, options, &mut turn, &mut found, words)?;
    if !allows(cell, &found) {
        return Err(Fail::from("its counts do not allow what it would do"));
    }
    does_in(cell, &turn, &found, blocks, &mut SpareFrame::new(alloc))
}

/// What the actor gives out as it collects, if it holds others' things alone.
pub(crate) fn collects(alloc: Global, cell: &mut Cell) -> Result<Out, Fail>
    requires { TellsNothing (Tells cell.old) }
    ensures { TellsNothing (Tells cell.new) }
{
    if !KnownPlaces::of(&cell.heap, &cell.foreign).holds_others_only() {
        return Err(Fail::from("it holds things of its own"));
    }
    let empty = ForeignTable::new(alloc);
    if !KnownPlaces::of(&cell.heap, cell.known.held_or(&empty)).holds_others_only() {
        return Err(Fail::from("it knows things of its own"));
    }
    Ok(cell.collect(alloc, Trace::Deep, &mut NoBlocks::default())?)
}
