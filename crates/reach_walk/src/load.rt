// Loads: what a letter's arguments reach, with the rows.

ghost use Rattle.std.specs.Prelude.{◌≡◌, ◌↔◌, ◌+◌, ◌*◌, ◌<◌, ◌≤◌, ◌++◌, ◌∷◌, [], IfOk, IsOk, IsTrue, OnOk, length, map, vec_capacity, vec_len};
ghost use Rattle.row_store.specs.Told.{lie_as, thing_lies};
ghost use Rattle.reach_walk.specs.Marks.{load_lying, marks_of};
ghost use Rattle.reach_walk.specs.Reach.{named_by};

use crate::seen::Seen;
use crate::telling::TellsRows;
use crate::walk_rows::{walk_freely, walk_rows};
use orca_names::{Args, NoMemory, RowReader, Thing, Value};
use plain_list::Listed;
use row_store::Told;
use std::alloc::Global;
use std::marker::Brand;
use std::sync::ledger::{Blank, Ledger};
use step_count::Steps;
use thing_list::ThingList;

/// Whether no value names a thing. The values are looked at up to the first that names one, by a step
/// for each.
#[inline(always)]
pub(crate) fn names_nothing_within<L: Ledger>(values: &[Value], steps: &mut Steps<L>) -> bool
    ensures nothing { IsTrue result ↔ (named_by values.now ≡ []) }
    ensures all { IsTrue result → steps.new ≡ steps.old + length values.now }
    ensures least { steps.old ≤ steps.new }
    ensures most { steps.new ≤ steps.old + length values.now }
{
    for value in values {
        steps.tick();
        if value.thing().is_some() {
            return false;
        }
    }
    true
}

// The same, with steps that are counted on a ledger of their own.
#[inline(always)]
fn names_nothing_counted<L: Ledger>(values: &[Value], blank: Blank) -> bool
    requires name { blank.name ≡ L.name }
    requires parts { blank.parts ≡ L.parts }
    requires some { 0 < blank.parts }
    ensures { IsTrue result ↔ (named_by values.now ≡ []) }
{
    let mut steps: Steps<L> = Steps::none(blank);
    names_nothing_within(values, &mut steps)
}

// Whether no value names a thing; the steps are not told.
#[inline(always)]
fn names_nothing(values: &[Value]) -> bool
    ensures { IsTrue result ↔ (named_by values.now ≡ []) }
{
    names_nothing_counted::<Brand>(values, Blank::new(1))
}

// Appends a thing with what is told of its row. That is written into its place: as a part of what is
// appended it would be copied twice.
#[inline(always)]
fn push_told<R: TellsRows>(load: &mut Vec<(Thing, Told)>, thing: &Thing, rows: &mut R)
    requires { vec_len load.old < vec_capacity load.old }
    ensures load { let its = R.rows rows.old in
        let lies = thing_lies its (R.blocks rows.old) in
        lie_as its load.new.items ≡ lie_as its load.old.items ++ (thing.now, lies thing.now) ∷ [] }
    ensures room { vec_capacity load.new ≡ vec_capacity load.old }
    ensures rows { (R.rows rows.new ≡ R.rows rows.old) × (R.all rows.new ≡ R.all rows.old)
        × (R.beside rows.new ≡ R.beside rows.old) }
{
    let at = load.len();
    load.push_reserved((*thing, Told::Nothing));
    rows.tell(thing, &mut load[at].1);
}

/// Each of these things with its row, which is told and not read where it lies in a block.
///
/// # Errors
/// `NoMemory` where memory was refused.
#[inline(always)]
pub fn with_rows<R: TellsRows>(
    alloc: Global,
    things: &[Thing],
    rows: &mut R,
) -> Result<Listed<(Thing, Told)>, NoMemory>
    ensures load { let its = R.rows rows.old in
        let lies = thing_lies its (R.blocks rows.old) in
        IfOk result (λ load. lie_as its load ≡ map (λ x. (x, lies x)) things.now) }
    ensures rows { (R.rows rows.new ≡ R.rows rows.old) × (R.all rows.new ≡ R.all rows.old)
        × (R.beside rows.new ≡ R.beside rows.old) }
{
    let mut load = Vec::with_capacity(alloc, things.len())?;
    for thing in things {
        push_told(&mut load, thing, rows);
    }
    Ok(Listed::from(load))
}

/// The load of a letter with these arguments: each thing that they reach, with its row, which is told
/// and not read where it lies in a block. A step is one thing taken from the worklist or one value
/// looked at. Where no argument names a thing, it takes no memory.
///
/// # Errors
/// `NoMemory` where memory was refused.
pub fn load_within<R: TellsRows, L: Ledger>(
    alloc: Global,
    args: &Args,
    rows: &mut R,
    steps: &mut Steps<L>,
) -> Result<Listed<(Thing, Told)>, NoMemory>
    ensures load { let its = R.rows rows.old in
        let lying = load_lying its (R.blocks rows.old) (R.all rows.old) args.now in
        IfOk result (λ load. lie_as its load ≡ lying) }
    ensures nothing { named_by args.now ≡ [] → IsOk result }
    ensures steps { IfOk result (λ load. steps.new ≤ steps.old + (9 * length load + 9)) }
    ensures rows { (R.rows rows.new ≡ R.rows rows.old) × (R.all rows.new ≡ R.all rows.old)
        × (R.beside rows.new ≡ R.beside rows.old) }
{
    if names_nothing(args.as_slice()) {
        return Ok(Listed::new(alloc));
    }
    let mut seen = Seen::new(alloc);
    walk_rows(rows, &mut seen, args.as_slice(), steps)?;
    seen.sort()?;
    with_rows(alloc, seen.things.as_slice(), rows)
}

/// Finds the things of the load of a letter with these arguments: all that they reach, in the order
/// of things. Where no argument names a thing, it takes no memory.
///
/// # Errors
/// `NoMemory` where memory was refused; what `things` holds then is left open.
#[inline(always)]
pub fn find_loaded<R: RowReader>(
    alloc: Global,
    args: &Args,
    rows: &mut R,
    things: &mut ThingList,
) -> Result<(), NoMemory>
    ensures things { OnOk result
        (things.new ≡ marks_of (R.rows rows.old) (R.all rows.old) args.now) }
    ensures nothing { named_by args.now ≡ [] → IsOk result }
    ensures rows { (R.rows rows.new ≡ R.rows rows.old) × (R.all rows.new ≡ R.all rows.old)
        × (R.beside rows.new ≡ R.beside rows.old) }
{
    if names_nothing(args.as_slice()) {
        things.clear();
        return Ok(());
    }
    let mut seen = Seen::new(alloc);
    walk_freely(rows, &mut seen, args.as_slice())?;
    seen.sort()?;
    let Seen { things: found, .. } = seen;
    *things = found;
    Ok(())
}

/// The load of a letter with these arguments: each thing that they reach, with its row, which is told
/// and not read where it lies in a block. Where no argument names a thing, it takes no memory.
///
/// # Errors
/// `NoMemory` where memory was refused.
pub fn load_of<R: TellsRows>(
    alloc: Global,
    args: &Args,
    rows: &mut R,
) -> Result<Listed<(Thing, Told)>, NoMemory>
    ensures load { let its = R.rows rows.old in
        let lying = load_lying its (R.blocks rows.old) (R.all rows.old) args.now in
        IfOk result (λ load. lie_as its load ≡ lying) }
    ensures nothing { named_by args.now ≡ [] → IsOk result }
    ensures rows { (R.rows rows.new ≡ R.rows rows.old) × (R.all rows.new ≡ R.all rows.old)
        × (R.beside rows.new ≡ R.beside rows.old) }
{
    if names_nothing(args.as_slice()) {
        return Ok(Listed::new(alloc));
    }
    let mut things = ThingList::new(alloc);
    find_loaded(alloc, args, rows, &mut things)?;
    with_rows(alloc, things.as_slice(), rows)
}
