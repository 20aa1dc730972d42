// What an act does to the table, with the turn that it ends. Where memory is refused, nothing changes.

ghost use Rattle.std.specs.Prelude.{◌≡◌, ◌<◌, [], ◌∷◌, ◌++◌, length, slice_get, None, Some, IfSome, OnOk, OnErr};
ghost use Rattle.behaviour_code.specs.WellFormed.{IsWellFormed};
ghost use Rattle.plain_rules.specs.Machine.{fresh_actor as the_fresh, with_turn, with_letter};
ghost use Rattle.plain_machine.specs.Undo.{has_rows, frame_left};
ghost use Rattle.orca_names.specs.declared.limits.TheConstants.{ACTORS_LIMIT};

use crate::actor::fresh_actor;
use crate::table::Table;
use behaviour_code::Program;
use orca_names::{ActorName, NoMemory, Value};
use plain_rules::PlainLetter;
use std::alloc::Global;
use turn_step::Turn;

/// The behaviour that runs, the place behind its act, and how many rows its actor had before.
#[derive(Clone, Copy, Debug)]
pub(crate) struct Stand {
    pub kind: u32,
    pub behaviour: u8,
    pub place: u32,
    pub rows: usize,
}

pub(crate) fn end(actors: &mut Table, a: ActorName, turn: &Turn) -> Result<(), NoMemory>
    requires { a < length actors.old }
    ensures ok { OnOk result (actors.new
        ≡ with_turn actors.old a None turn.now.fields turn.now.made) }
    ensures err { OnErr result (actors.new ≡ actors.old) }
{
    actors.add_rows(a, turn.made())?;
    actors.end_turn(a, turn.fields());
    Ok(())
}

pub(crate) fn send(
    actors: &mut Table,
    a: ActorName,
    stand: &Stand,
    turn: &Turn,
    to: ActorName,
    letter: PlainLetter,
) -> Result<(), NoMemory>
    requires there { a < length actors.old }
    requires rows { IfSome (slice_get actors.old a) (has_rows stand.now) }
    ensures ok { OnOk result (actors.new
        ≡ with_letter
        (with_turn actors.old a
        (Some (frame_left stand.now turn.now)) turn.now.fields turn.now.made) to letter) }
    ensures err { OnErr result (actors.new ≡ actors.old) }
{
    actors.add_rows(a, turn.made())?;
    match actors.post(to, letter) {
        Ok(()) => {
            actors.keep_turn(a, stand, turn);
            Ok(())
        }
        Err(e) => {
            actors.drop_rows(a, stand.rows);
            Err(e)
        }
    }
}

pub(crate) fn print(
    actors: &mut Table,
    prints: &mut Vec<Value>,
    a: ActorName,
    stand: &Stand,
    turn: &Turn,
    value: Value,
) -> Result<(), NoMemory>
    requires there { a < length actors.old }
    requires rows { IfSome (slice_get actors.old a) (has_rows stand.now) }
    ensures ok { OnOk result (actors.new
        ≡ with_turn actors.old a
        (Some (frame_left stand.now turn.now)) turn.now.fields turn.now.made) }
    ensures prints { OnOk result (prints.new.items ≡ prints.old.items ++ value ∷ []) }
    ensures err { OnErr result (actors.new ≡ actors.old) }
    ensures err_prints { OnErr result (prints.new.items ≡ prints.old.items) }
{
    actors.add_rows(a, turn.made())?;
    match prints.push(value) {
        Ok(()) => {
            actors.keep_turn(a, stand, turn);
            Ok(())
        }
        Err(_) => {
            actors.drop_rows(a, stand.rows);
            Err(NoMemory)
        }
    }
}

pub(crate) fn make(
    alloc: Global,
    program: &Program,
    actors: &mut Table,
    a: ActorName,
    stand: &Stand,
    turn: &Turn,
    kind: u32,
) -> Result<(), NoMemory>
    requires good { IsWellFormed program.now }
    requires few { length actors.old < ACTORS_LIMIT }
    requires there { a < length actors.old }
    requires rows { IfSome (slice_get actors.old a) (has_rows stand.now) }
    ensures ok { OnOk result (actors.new
        ≡ with_turn actors.old a
        (Some (frame_left stand.now turn.now)) turn.now.fields turn.now.made
        ++ the_fresh program.now kind ∷ []) }
    ensures err { OnErr result (actors.new ≡ actors.old) }
{
    actors.add_rows(a, turn.made())?;
    match actors.push(fresh_actor(alloc, program, kind)) {
        Ok(()) => {
            actors.keep_turn(a, stand, turn);
            Ok(())
        }
        Err(e) => {
            actors.drop_rows(a, stand.rows);
            Err(e)
        }
    }
}
