// Running up to the next act.

ghost use Rattle.std.specs.Prelude.{◌≡◌, ℕ, ◌+◌, ◌<◌, length, map, slice_get, IsOk, IsErr, IfSome, IfErr, OnOk, OnErr};
ghost use Rattle.behaviour_code.specs.WellFormed.{IsWellFormed};
ghost use Rattle.event_rule.specs.Runs.{Goes};
ghost use Rattle.plain_rules.specs.Machine.{after_act, plain_go};
ghost use Rattle.plain_machine.specs.Faults.{Faulted};
ghost use Rattle.plain_machine.specs.State.{state_of};
ghost use Rattle.plain_machine.specs.Undo.{frame_left, has_rows};
ghost use Rattle.turn_rules.specs.Segment.{value_at};
ghost use Rattle.turn_step.specs.Turns.{act_of};

use crate::acts::{Stand, end, make, print, send};
use crate::machine::PlainFault;
use crate::table::{AllRows, Table, actor_at};
use behaviour_check::Checked;
use behaviour_code::{Name, Program, Registers};
use orca_names::{ACTORS_LIMIT, ActorName, NoMemory, Reading, Value};
use plain_rules::PlainLetter;
use std::alloc::Global;
use turn_step::{Deed, Setting, Turn, segment_at};

fn outcome(done: Result<(), NoMemory>) -> Result<(), PlainFault>
    ensures ok { OnOk result (IsOk done) }
    ensures err { IfErr result (λ e. (e ≡ PlainFault.NoMemory) × IsErr done) }
{
    match done {
        Ok(()) => Ok(()),
        Err(NoMemory) => Err(PlainFault::NoMemory),
    }
}

/// A letter with the values of these registers.
fn letter_of(turn: &Turn, behaviour: Name, values: &Registers) -> PlainLetter
    ensures { result ≡ record { behaviour = behaviour; args = map (value_at turn.now) values.now } }
{
    PlainLetter {
        behaviour,
        args: turn.gather(values.as_slice()),
    }
}

/// What the turn of an actor leads to, by its deed.
fn commit(
    alloc: Global,
    program: &Program,
    actors: &mut Table,
    prints: &mut Vec<Value>,
    a: ActorName,
    stand: &Stand,
    turn: &mut Turn,
    deed: &Deed<'_>,
) -> Result<(), PlainFault>
    requires good { IsWellFormed program.now }
    requires there { a < length actors.old }
    requires rows { IfSome (slice_get actors.old a) (has_rows stand.now) }
    requires gone { (steps : ℕ) → plain_go (state_of program.now actors.old prints.old.items steps) a
        ≡ after_act (state_of program.now actors.old prints.old.items steps) a
        (frame_left stand.now turn.old) turn.old.fields turn.old.made (act_of deed.now turn.old) }
    ensures ok { OnOk result ((steps : ℕ)
        → plain_go (state_of program.now actors.old prints.old.items steps) a
        ≡ Goes (state_of program.now actors.new prints.new.items (steps + 1))) }
    ensures fault { IfErr result (λ e. (steps : ℕ)
        → Faulted (plain_go (state_of program.now actors.old prints.old.items steps) a) a e) }
    ensures same { OnErr result (actors.new ≡ actors.old) }
    ensures same_prints { OnErr result (prints.new.items ≡ prints.old.items) }
{
    match *deed {
        Deed::End => outcome(end(actors, a, turn)),
        Deed::Print { register } => {
            let value = turn.value(register);
            outcome(print(actors, prints, a, stand, turn, value))
        }
        Deed::Post {
            to,
            behaviour,
            values,
        } => {
            let letter = letter_of(turn, behaviour, values);
            outcome(send(actors, a, stand, turn, to, letter))
        }
        Deed::New { kind, into } => {
            if actors.len() >= ACTORS_LIMIT {
                return Err(PlainFault::ActorsFull { actor: a });
            }
            let name = ActorName(actors.len() as u32);
            turn.put(into, Value::Actor(name));
            outcome(make(alloc, program, actors, a, stand, turn, kind))
        }
    }
}

/// The actor's frame runs up to and with its next act.
pub(crate) fn go_in(
    alloc: Global,
    code: &Checked,
    actors: &mut Table,
    prints: &mut Vec<Value>,
    turn: &mut Turn,
    a: ActorName,
) -> Result<(), PlainFault>
    ensures ok { OnOk result ((steps : ℕ)
        → plain_go (state_of code.now actors.old prints.old.items steps) a
        ≡ Goes (state_of code.now actors.new prints.new.items (steps + 1))) }
    ensures fault { IfErr result (λ e. (steps : ℕ)
        → Faulted (plain_go (state_of code.now actors.old prints.old.items steps) a) a e) }
    ensures same { OnErr result (actors.new ≡ actors.old) }
    ensures same_prints { OnErr result (prints.new.items ≡ prints.old.items) }
{
    let Some(actor) = actor_at(actors.as_slice(), a) else {
        return Err(PlainFault::NotReady);
    };
    let Some(start) = actor.frame.get() else {
        return Err(PlainFault::NotReady);
    };
    let rows = actor.rows.as_slice().len();
    let setting = Setting {
        code,
        me: a,
        base: rows as u64,
    };
    let all = AllRows {
        actors: actors.as_slice(),
    };
    let done = segment_at(
        &setting,
        start,
        &actor.fields,
        &mut Reading { rows: &all },
        turn,
    );
    match done {
        Ok(stop) => {
            let stand = Stand {
                kind: start.kind,
                behaviour: start.behaviour,
                place: stop.place,
                rows,
            };
            commit(
                alloc,
                code.program(),
                actors,
                prints,
                a,
                &stand,
                turn,
                &stop.deed,
            )
        }
        Err(NoMemory) => Err(PlainFault::NoMemory),
    }
}
