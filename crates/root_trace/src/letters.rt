// What a letter loads, and which rows it carries.

ghost use Rattle.std.specs.Prelude.{◌≡◌, [], None, IfOk, OnOk, map};
ghost use Rattle.letter_kinds.specs.Load.{as_load};
ghost use Rattle.letter_kinds.specs.Telling.{TellsNothing, Told};
ghost use Rattle.reach_walk.specs.Marks.{load_lying, marks_of};
ghost use Rattle.row_store.specs.Memory.{remembered};
ghost use Rattle.row_store.specs.Standing.{AreRemembered};
ghost use Rattle.row_store.specs.Told.{thing_row};

use crate::nowhere::NoRows;
use letter_kinds::Load;
use orca_names::{Args, NoMemory, Thing};
use reach_walk::{TellsRows, ThingList, find_loaded, load_of, with_rows};
use row_store::Remembered;
use std::alloc::Global;

/// Finds the things of the load of a letter: those that stand in its arguments, and the owners of
/// these, each once, in the order of things.
///
/// # Errors
/// `NoMemory` where memory was refused; what `things` holds then is left open.
pub fn find_loaded_roots(alloc: Global, args: &Args, things: &mut ThingList) -> Result<(), NoMemory>
    ensures { OnOk result (things.new ≡ marks_of (λ n. None) [] args.now) }
{
    find_loaded(alloc, args, &mut NoRows, things)
}

/// The load of a letter with these things, none of which comes with its row.
///
/// # Errors
/// `NoMemory` where memory was refused.
pub fn without_rows(alloc: Global, things: &[Thing]) -> Result<Load, NoMemory>
    ensures load { IfOk result (λ load.
        as_load load ≡ map (λ x. (x, thing_row (λ n. None) x)) things.now) }
    ensures told { IfOk result (λ load. TellsNothing (Told load)) }
{
    let items = with_rows(alloc, things, &mut NoRows)?;
    Ok(Load::with(items, Remembered::new()))
}

/// What a letter carries uncounted: all that its arguments reach through the rows that the sender
/// knows, each object with its row. `memory` has those of these rows that lie in blocks.
///
/// # Errors
/// `NoMemory` where memory was refused.
pub fn rows_of<R: TellsRows>(
    alloc: Global,
    args: &Args,
    known: &mut R,
    memory: Remembered,
) -> Result<Load, NoMemory>
    requires known { AreRemembered (R.rows known.old) (R.blocks known.old) (remembered memory) }
    ensures rows { let lying = load_lying (R.rows known.old) (R.blocks known.old) (R.all known.old) args.now in
        IfOk result (λ rows. rows ≡ lying) }
    ensures same { (R.rows known.new ≡ R.rows known.old) × (R.all known.new ≡ R.all known.old)
        × (R.beside known.new ≡ R.beside known.old) }
{
    let items = load_of(alloc, args, known)?;
    Ok(Load::with(items, memory))
}
