// Reap: the members of a token that all acknowledged go (MAC, OOPSLA 2013).

ghost use Rattle.std.specs.Prelude.{◌≡◌, [], IfOk, List, ℕ};
ghost use Rattle.std.specs.List.Sorted.{IsStrictlySortedBy};
ghost use Rattle.std.specs.Ordering.{nat_cmp};
ghost use Rattle.event_rule.specs.declared.event.Event.TheVariants.{Reap as reap_event};
ghost use Rattle.letter_kinds.specs.Telling.{TellsOnly};
ghost use Rattle.machine_rules.specs.Detect.{empty_seats, reap_decs};
ghost use Rattle.actor_table.specs.Slots.{actors_of, away_of};
ghost use Rattle.actor_table.specs.Telling.{TableLies, TableTells};
ghost use Rattle.orca_parts.specs.Blocks.{BlocksFit};
ghost use Rattle.orca_parts.specs.Fits.{FitsReap, without_all};
ghost use Rattle.orca_parts.specs.Letters.{FitLetters};
ghost use Rattle.orca_parts.specs.Ready.{Applies, Prepares};
ghost use Rattle.orca_parts.specs.Reaping.{AckedAreHome, AreHome};

use crate::fault::StepFault;
use crate::insides::Core;
use crate::letters::{push_decs, reserve_all};
use crate::placing::give_back_each;
use actor_table::ActorTable;
use letter_kinds::Amounts;
use orca_names::{ActorName, NoMemory};
use std::alloc::Global;
use std::mem;

/// What each of these held on things of those who stay, in groups of their owners.
fn letters_outside(
    alloc: Global,
    table: &ActorTable,
    members: &[ActorName],
) -> Result<Vec<(ActorName, Amounts)>, NoMemory>
    requires rising { IsStrictlySortedBy nat_cmp members.now }
    requires home { AreHome members.now table.now.slots }
    ensures { IfOk result (λ letters. letters.items
        ≡ reap_decs members.now members.now (actors_of table.now.slots)) }
{
    let mut letters = Vec::new(alloc);
    for member in members {
        let Some(cell) = table.cell(*member) else {
            unreachable!();
        };
        let mut returned = cell.give_back(alloc, members)?;
        letters.append(&mut returned)?;
    }
    Ok(letters)
}

/// Takes the memory for a reap: who goes, and the letters that return what they held outside. Nothing
/// changes but room.
///
/// # Errors
/// `NotEnabled` exactly where no open token of this number is acknowledged by all its members, and
/// `NoMemory` where memory was refused.
#[tactic(auto, using(crate::proofs::Preparing::no_memory, crate::proofs::Preparing::only_room, crate::proofs::Preparing::still_lies, crate::proofs::Reaping::none_acked))]
pub(crate) fn prepare_reap(alloc: Global, m: &mut Core<'_>, number: u64) -> Result<(), StepFault>
    requires home { AckedAreHome number m.old.parts.detector.state m.old.parts.table.slots }
    ensures { Prepares (reap_event number) m.old m.new result }
{
    let Some(members) = m.parts.detector.acked_members(number) else {
        return Err(StepFault::NotEnabled);
    };
    let letters = letters_outside(alloc, &m.parts.table, members)?;
    reserve_all(alloc, &mut m.parts.table, &letters)?;
    let going = Vec::from_slice(alloc, members)?;
    m.parts.members = going;
    m.parts.letters = letters;
    Ok(())
}

/// The actors go, with their cells and letters.
fn clear_all(alloc: Global, table: &mut ActorTable, members: &[ActorName])
    ensures actors { actors_of table.new.slots ≡ empty_seats members.now (actors_of table.old.slots) }
    ensures away { away_of table.new.slots ≡ without_all members.now (away_of table.old.slots) }
    ensures room { (names : List ℕ) → FitLetters names table.old.slots
        → FitLetters names table.new.slots }
    ensures told { TellsOnly (TableTells table.old.slots) [] (TableTells table.new.slots) }
    ensures lie { TableLies table.old.slots → TableLies table.new.slots }
{
    for member in members {
        table.clear(alloc, *member);
    }
}

/// The members of the token go, and what they held outside goes back; the lowest to whom a letter goes
/// is told. It takes no memory.
pub(crate) fn apply_reap(alloc: Global, m: &mut Core<'_>, number: u64) -> Option<ActorName>
    requires fits { FitsReap number m.old.parts.members.items m.old.parts.letters.items m.old.parts }
    requires blocks { BlocksFit m.old.options.trace m.old.parts.blocks m.old.parts.table.slots }
    ensures { Applies (reap_event number) m.old m.new result }
{
    m.stands = false;
    give_back_each(
        &mut m.parts.blocks,
        &m.parts.table,
        m.parts.members.as_slice(),
    );
    let letters = mem::replace(&mut m.parts.letters, Vec::new(alloc));
    clear_all(alloc, &mut m.parts.table, m.parts.members.as_slice());
    let woken = push_decs(&mut m.parts.table, letters);
    m.parts.detector.close(number);
    woken
}
