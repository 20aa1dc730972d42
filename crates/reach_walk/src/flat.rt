// What values name that lead no further, as most letters and fields have them: no walk is wanted.

ghost use Rattle.std.specs.Prelude.{All, Contains, IfOk, IsTrue, List, OnOk, ◌≡◌, ◌↔◌, ◌+◌, ◌*◌, ◌<◌, ◌≤◌, [], ◌∷◌, length};
ghost use Rattle.std.specs.List.Sorted.{IsStrictlySortedBy};
ghost use Rattle.std.specs.declared.cmp.Ordering.TheVariants.{Less};
ghost use Rattle.orca_names.specs.Names.{thing_cmp};
ghost use Rattle.orca_names.specs.declared.names.Thing.{Thing as any_thing};
ghost use Rattle.orca_names.specs.declared.names.Thing.TheVariants.{Obj as object};
ghost use Rattle.orca_names.specs.declared.names.Value.{Value as names};
ghost use Rattle.row_store.specs.Standing.{Stand};
ghost use Rattle.row_store.specs.Words.{HasRow, HoldsRow, SameWords};
ghost use Rattle.reach_walk.specs.Flat.{LeadsNowhere, Puts};
ghost use Rattle.reach_walk.specs.Marks.{marks_of, with_owners};
ghost use Rattle.reach_walk.specs.Reach.{named_by, row_edges};

use crate::lent_rows::LentRows;
use crate::load::names_nothing_within;
use orca_names::{Args, NoMemory, ObjName, Thing, Value};
use row_store::{Lent, RowWords, read};
use std::marker::Brand;
use std::sync::ledger::{Blank, Ledger};
use step_count::Steps;
use thing_list::{ThingList, put};

// Whether the row in a block names nothing. Out of line: where no row lies in a block it is not
// called.
#[inline(never)]
fn block_names_nothing<W: RowWords, L: Ledger>(
    block: u32,
    steps: &mut Steps<L>,
    words: &mut W,
) -> bool
    requires { HasRow block (W.known words.old) }
    ensures nothing { (row : List names) → HoldsRow block row (W.known words.old)
        → IsTrue result ↔ (named_by row ≡ []) }
    ensures all { (row : List names) → HoldsRow block row (W.known words.old)
        → IsTrue result → steps.new ≡ steps.old + length row }
    ensures steps { (steps.old ≤ steps.new) × (steps.new ≤ steps.old + 8) }
    ensures words { SameWords W.known W.places W.beside words.old words.new }
{
    let row = read(words, block);
    names_nothing_within(row.as_slice(), steps)
}

// Whether the object leads nowhere. It is taken, which is a step, and the values of its row are
// looked at.
#[inline(always)]
fn leads_nowhere<R: LentRows, W: RowWords, L: Ledger>(
    n: &ObjName,
    rows: &R,
    steps: &mut Steps<L>,
    words: &mut W,
) -> bool
    requires { Stand (R.rows rows.now) (R.blocks rows.now) (W.known words.old) }
    ensures flat { IsTrue result ↔ LeadsNowhere (R.rows rows.now) (object n.now) }
    ensures all { IsTrue result
        → steps.new ≡ steps.old + 1 + length (row_edges (R.rows rows.now) (object n.now)) }
    ensures steps { (steps.old < steps.new) × (steps.new ≤ steps.old + 9) }
    ensures words { SameWords W.known W.places W.beside words.old words.new }
{
    steps.tick();
    match rows.row_of(*n) {
        Lent::Nothing => true,
        Lent::Here(values) => names_nothing_within(values, steps),
        Lent::In(block) => block_names_nothing(block, steps, words),
    }
}

// Whether the value leads no further than to what it names. A look at it is a step.
#[inline(always)]
fn leads_no_further<R: LentRows, W: RowWords, L: Ledger>(
    value: &Value,
    rows: &R,
    steps: &mut Steps<L>,
    words: &mut W,
) -> bool
    requires { Stand (R.rows rows.now) (R.blocks rows.now) (W.known words.old) }
    ensures flat { IsTrue result ↔
        All (LeadsNowhere (R.rows rows.now)) (named_by (value.now ∷ [])) }
    ensures steps { (steps.old < steps.new) × (steps.new ≤ steps.old + 10) }
    ensures words { SameWords W.known W.places W.beside words.old words.new }
{
    steps.tick();
    match value {
        Value::Obj(n) => leads_nowhere(n, rows, steps, words),
        _ => true,
    }
}

/// Whether the values lead no further than to what they name. A step is one value looked at, or one
/// object taken whose row is looked at.
#[inline(always)]
pub fn lead_no_further_within<R: LentRows, W: RowWords, L: Ledger>(
    values: &[Value],
    rows: &R,
    steps: &mut Steps<L>,
    words: &mut W,
) -> bool
    requires { Stand (R.rows rows.now) (R.blocks rows.now) (W.known words.old) }
    ensures flat { IsTrue result ↔ All (LeadsNowhere (R.rows rows.now)) (named_by values.now) }
    ensures steps { steps.new ≤ steps.old + 10 * length values.now }
    ensures words { SameWords W.known W.places W.beside words.old words.new }
{
    for value in values {
        if !leads_no_further(value, rows, steps, words) {
            return false;
        }
    }
    true
}

// The same, with steps that are counted on a ledger of their own.
#[inline(always)]
fn lead_no_further_counted<R: LentRows, W: RowWords, L: Ledger>(
    values: &[Value],
    rows: &R,
    words: &mut W,
    blank: Blank,
) -> bool
    requires stand { Stand (R.rows rows.now) (R.blocks rows.now) (W.known words.old) }
    requires name { blank.name ≡ L.name }
    requires parts { blank.parts ≡ L.parts }
    requires some { 0 < blank.parts }
    ensures flat { IsTrue result ↔ All (LeadsNowhere (R.rows rows.now)) (named_by values.now) }
    ensures words { SameWords W.known W.places W.beside words.old words.new }
{
    let mut steps: Steps<L> = Steps::none(blank);
    lead_no_further_within(values, rows, &mut steps, words)
}

/// Whether the values lead no further than to what they name. It takes as many steps as
/// `lead_no_further_within`; they are not told.
#[inline(always)]
pub fn lead_no_further<R: LentRows, W: RowWords>(values: &[Value], rows: &R, words: &mut W) -> bool
    requires { Stand (R.rows rows.now) (R.blocks rows.now) (W.known words.old) }
    ensures flat { IsTrue result ↔ All (LeadsNowhere (R.rows rows.now)) (named_by values.now) }
    ensures words { SameWords W.known W.places W.beside words.old words.new }
{
    lead_no_further_counted::<R, W, Brand>(values, rows, words, Blank::new(1))
}

// Puts what the value names in its place, and the owner; `false` where that leads on.
#[inline(always)]
fn put_named<R: LentRows, W: RowWords, L: Ledger>(
    things: &mut ThingList,
    value: &Value,
    rows: &R,
    steps: &mut Steps<L>,
    words: &mut W,
) -> Result<bool, NoMemory>
    requires rising { IsStrictlySortedBy thing_cmp things.old }
    requires stand { Stand (R.rows rows.now) (R.blocks rows.now) (W.known words.old) }
    ensures puts { IfOk result (λ flat. IsTrue flat
        → Puts (with_owners (named_by (value.now ∷ []))) things.old things.new) }
    ensures flat { IfOk result (λ flat. IsTrue flat
        ↔ All (LeadsNowhere (R.rows rows.now)) (named_by (value.now ∷ []))) }
    ensures steps { (steps.old < steps.new) × (steps.new ≤ steps.old + 10) }
    ensures words { SameWords W.known W.places W.beside words.old words.new }
{
    if !leads_no_further(value, rows, steps, words) {
        return Ok(false);
    }
    match value {
        Value::Obj(n) => {
            put(things, Thing::Actor(n.owner))?;
            put(things, Thing::Obj(*n))?;
        }
        Value::Actor(a) => put(things, Thing::Actor(*a))?,
        _ => {}
    }
    Ok(true)
}

/// Finds the things of the load of a letter with these arguments, in the order of things, where they
/// lead no further than to what they name: `true` exactly there. Where they lead on, what `things`
/// holds is left open. A step is one value looked at, or one object taken whose row is looked at; to
/// put a thing in its place is no step.
///
/// # Errors
/// `NoMemory` where memory was refused; what `things` holds then is left open too.
#[inline(always)]
pub fn find_flat_within<R: LentRows, W: RowWords, L: Ledger>(
    args: &Args,
    rows: &R,
    things: &mut ThingList,
    steps: &mut Steps<L>,
    words: &mut W,
) -> Result<bool, NoMemory>
    requires { Stand (R.rows rows.now) (R.blocks rows.now) (W.known words.old) }
    ensures things { IfOk result (λ flat. IsTrue flat
        → things.new ≡ marks_of (R.rows rows.now) (R.all rows.now) args.now) }
    ensures flat { IfOk result (λ flat. IsTrue flat
        ↔ All (LeadsNowhere (R.rows rows.now)) (named_by args.now)) }
    ensures steps { OnOk result (steps.new ≤ steps.old + 10 * length args.now) }
    ensures words { SameWords W.known W.places W.beside words.old words.new }
{
    things.clear();
    for value in args.as_slice() {
        if !put_named(things, value, rows, steps, words)? {
            return Ok(false);
        }
    }
    Ok(true)
}

// The same, with steps that are counted on a ledger of their own.
#[inline(always)]
fn find_flat_counted<R: LentRows, W: RowWords, L: Ledger>(
    args: &Args,
    rows: &R,
    things: &mut ThingList,
    words: &mut W,
    blank: Blank,
) -> Result<bool, NoMemory>
    requires stand { Stand (R.rows rows.now) (R.blocks rows.now) (W.known words.old) }
    requires name { blank.name ≡ L.name }
    requires parts { blank.parts ≡ L.parts }
    requires some { 0 < blank.parts }
    ensures things { IfOk result (λ flat. IsTrue flat
        → things.new ≡ marks_of (R.rows rows.now) (R.all rows.now) args.now) }
    ensures flat { IfOk result (λ flat. IsTrue flat
        ↔ All (LeadsNowhere (R.rows rows.now)) (named_by args.now)) }
    ensures words { SameWords W.known W.places W.beside words.old words.new }
{
    let mut steps: Steps<L> = Steps::none(blank);
    find_flat_within(args, rows, things, &mut steps, words)
}

/// Finds the things of the load of a letter with these arguments, in the order of things, where they
/// lead no further than to what they name: `true` exactly there. Where they lead on, what `things`
/// holds is left open. It takes as many steps as `find_flat_within`; they are not told.
///
/// # Errors
/// `NoMemory` where memory was refused; what `things` holds then is left open too.
#[inline(always)]
pub fn find_flat<R: LentRows, W: RowWords>(
    args: &Args,
    rows: &R,
    things: &mut ThingList,
    words: &mut W,
) -> Result<bool, NoMemory>
    requires { Stand (R.rows rows.now) (R.blocks rows.now) (W.known words.old) }
    ensures things { IfOk result (λ flat. IsTrue flat
        → things.new ≡ marks_of (R.rows rows.now) (R.all rows.now) args.now) }
    ensures flat { IfOk result (λ flat. IsTrue flat
        ↔ All (LeadsNowhere (R.rows rows.now)) (named_by args.now)) }
    ensures words { SameWords W.known W.places W.beside words.old words.new }
{
    find_flat_counted::<R, W, Brand>(args, rows, things, words, Blank::new(1))
}
