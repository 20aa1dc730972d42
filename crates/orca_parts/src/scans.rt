// Scan: the largest closed set becomes a token, and its members are asked (MAC, OOPSLA 2013).

ghost use Rattle.std.specs.Prelude.{◌≡◌, ◌<◌, [], IfOk, OnOk, ℕ};
ghost use Rattle.std.specs.List.Sorted.{IsStrictlySortedBy};
ghost use Rattle.std.specs.Ordering.{nat_cmp};
ghost use Rattle.event_rule.specs.declared.event.Event.TheVariants.{Scan as scan_event};
ghost use Rattle.letter_kinds.specs.Telling.{TellsOnly};
ghost use Rattle.machine_rules.specs.Detect.{ask_all};
ghost use Rattle.actor_table.specs.Changes.{OnlyTableRoom};
ghost use Rattle.actor_table.specs.Slots.{actors_of, away_of};
ghost use Rattle.actor_table.specs.Telling.{TableLies, TableTells};
ghost use Rattle.cycle_detect.specs.declared.detector.TheConstants.{TOKENS_LIMIT};
ghost use Rattle.orca_parts.specs.Fits.{CanOpenThen, CanScan};
ghost use Rattle.orca_parts.specs.Letters.{FitLetters, Posts};
ghost use Rattle.orca_parts.specs.Ready.{Applies, Prepares};

use crate::fault::StepFault;
use crate::insides::Core;
use crate::letters::{lower, post};
use actor_table::ActorTable;
use cycle_detect::{Detector, Token};
use letter_kinds::Letter;
use orca_names::{ActorName, NoMemory};
use std::alloc::Global;

/// Takes the memory for one letter to each of these actors.
#[tactic(auto, using(crate::proofs::Reserving::more_room))]
fn reserve_asks(table: &mut ActorTable, members: &[ActorName]) -> Result<(), NoMemory>
    requires { IsStrictlySortedBy nat_cmp members.now }
    ensures same { OnlyTableRoom table.old table.new }
    ensures ok { OnOk result (FitLetters members.now table.new.slots) }
{
    for member in members {
        table.reserve_letters(*member, 1)?;
    }
    Ok(())
}

/// The token that the largest closed set becomes, if it has members, and the memory to open it and to
/// ask them.
#[tactic(auto, using(crate::proofs::Asking::opens_then, crate::proofs::Preparing::still_lies))]
fn prepare_open(
    alloc: Global,
    table: &mut ActorTable,
    detector: &mut Detector,
) -> Result<Option<Token>, NoMemory>
    requires few { detector.old.state.opened < TOKENS_LIMIT }
    ensures actors { actors_of table.new.slots ≡ actors_of table.old.slots }
    ensures away { away_of table.new.slots ≡ away_of table.old.slots }
    ensures told { TellsOnly (TableTells table.old.slots) [] (TableTells table.new.slots) }
    ensures lie { TableLies table.old.slots → TableLies table.new.slots }
    ensures state { detector.new.state ≡ detector.old.state }
    ensures ok { IfOk result (λ token. CanOpenThen token table.new.slots detector.new) }
{
    let closed = detector.largest_closed(alloc)?;
    if closed.is_empty() {
        return Ok(None);
    }
    reserve_asks(table, &closed)?;
    let token = detector.prepare_token(alloc, &closed)?;
    Ok(Some(token))
}

/// Takes the memory for a scan: the token that it opens, if the closed set has members. Nothing
/// changes but room.
///
/// # Errors
/// `NotEnabled` exactly where there is no news, and `NoMemory` where memory was refused.
pub(crate) fn prepare_scan(alloc: Global, m: &mut Core<'_>) -> Result<(), StepFault>
    requires few { m.old.parts.detector.state.opened < TOKENS_LIMIT }
    ensures { Prepares scan_event m.old m.new result }
{
    if !m.parts.detector.news() {
        return Err(StepFault::NotEnabled);
    }
    m.parts.token = prepare_open(alloc, &mut m.parts.table, &mut m.parts.detector)?;
    Ok(())
}

/// Each of these actors is asked whether it is still blocked, and the lowest that is present is told.
fn ask_all(table: &mut ActorTable, members: &[ActorName], number: u64) -> Option<ActorName>
    requires { FitLetters members.now table.old.slots }
    ensures { Posts (ask_all members.now number) [] table.old.slots table.new.slots result }
{
    let mut lowest = None;
    for member in members {
        lowest = lower(
            lowest,
            post(table, *member, Letter::Confirm { token: number }),
        );
    }
    lowest
}

/// There is no news any more; the token that was prepared, if one was, is opened, and its members are
/// asked. It takes no memory, and tells the lowest that is present.
pub(crate) fn apply_scan(m: &mut Core<'_>) -> Option<ActorName>
    requires { CanScan m.old.parts.token m.old.parts.table.slots m.old.parts.detector }
    ensures { Applies scan_event m.old m.new result }
{
    m.stands = false;
    m.parts.detector.clear_news();
    let Some(token) = m.parts.token.take() else {
        return None;
    };
    let woken = ask_all(&mut m.parts.table, token.members(), token.number());
    m.parts.detector.open_prepared(token);
    woken
}
