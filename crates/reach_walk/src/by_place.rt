// The walk by places: marks and loads of what lies in tables.

ghost use Rattle.std.specs.Prelude.{◌≡◌, ◌↔◌, ◌+◌, ◌*◌, ◌≤◌, ◌<◌, ◌++◌, ◌∷◌, [], ℕ, Contains, IfOk, IfSome, List, OnOk, Option, Some, false, length, slice_index_or, true, vec_capacity, vec_len};
ghost use Rattle.std.specs.Option.{IsNone};
ghost use Rattle.orca_names.specs.declared.names.Thing.{Thing as any_thing};
ghost use Rattle.orca_names.specs.declared.names.Thing.TheVariants.{Obj as object};
ghost use Rattle.orca_names.specs.declared.names.ObjName.{ObjName as object_name};
ghost use Rattle.orca_names.specs.declared.names.Value.{Value as names};
ghost use Rattle.ready_set.specs.Next.{AreOn};
ghost use Rattle.reach_walk.specs.Dense.{PushesFrom, StandTogether};
ghost use Rattle.row_store.specs.Standing.{Stand};
ghost use Rattle.row_store.specs.Lent.{IsLent};
ghost use Rattle.row_store.specs.Told.{lie_as, thing_block, thing_lies, thing_row};
ghost use Rattle.row_store.specs.Words.{HasRow, HoldsRow, SameWords};
ghost use Rattle.row_store.specs.declared.told.Told.TheVariants.{Here as here};
ghost use Rattle.reach_walk.specs.Reach.{row_edges};
ghost use Rattle.reach_walk.specs.Marks.{TellMarks, load_lying, marks_of};
ghost use Rattle.reach_walk.specs.Met.{Grows, HasMet, HasReached, HasUnplaced, ListsRows, met_by};

use crate::dense::Dense;
use crate::met::Met;
use crate::near::meet_row;
use crate::places::{PlacedRows, Places};
use orca_names::{Args, NoMemory, Row, Thing, Value};
use plain_list::Listed;
use ready_set::PlaceSet;
use row_store::{Lent, RowWords, Told, read};
use std::alloc::Global;
use std::marker::Brand;
use std::sync::ledger::{Blank, Ledger};
use step_count::Steps;

// The owners of a load's things are few.
const GUESSED_OWNERS: usize = 8;

// What the row in a block names is met. Out of line: where no row lies in a block it is not called.
#[inline(never)]
fn meet_block<P: Places, W: RowWords, L: Ledger>(
    places: &P,
    met: &mut Met,
    block: u32,
    steps: &mut Steps<L>,
    words: &mut W,
) -> Result<(), NoMemory>
    requires known { HasRow block (W.known words.old) }
    requires room { P.count places.now ≤ length met.old.noted.bits }
    ensures met { (row : List names) → HoldsRow block row (W.known words.old)
        → (things : List any_thing)
        → HasMet (P.place places.now) (P.count places.now) met.old things
        → OnOk result (HasMet (P.place places.now) (P.count places.now) met.new
        (things ++ met_by row)) }
    ensures queue { OnOk result (Grows met.old.queue.items met.new.queue.items) }
    ensures same { length met.new.noted.bits ≡ length met.old.noted.bits }
    ensures steps { (row : List names) → HoldsRow block row (W.known words.old)
        → OnOk result (steps.new ≡ steps.old + length row) }
    ensures words { SameWords W.known W.places W.beside words.old words.new }
{
    let row = read(words, block);
    met.meet_all(row.as_slice(), places, steps)
}

// The thing at a place is taken from the queue, which is a step: what its row names is met. Out of line,
// so that the walk from objects that stand together stays short.
#[inline(never)]
fn take_far<R: PlacedRows, W: RowWords, L: Ledger>(
    rows: &R,
    met: &mut Met,
    at: usize,
    steps: &mut Steps<L>,
    words: &mut W,
) -> Result<(), NoMemory>
    requires stand { Stand (R.rows rows.now) (R.blocks rows.now) (W.known words.old) }
    requires within { at < R.count rows.now }
    requires room { R.count rows.now ≤ length met.old.noted.bits }
    ensures met { let place = R.place rows.now in let count = R.count rows.now in
        (things : List any_thing) (n : object_name)
        → HasMet place count met.old things → Contains things (object n)
        → place (object n) ≡ Some at
        → OnOk result (HasMet place count met.new
        (things ++ met_by (row_edges (R.rows rows.now) (object n)))) }
    ensures queue { OnOk result (Grows met.old.queue.items met.new.queue.items) }
    ensures same { length met.new.noted.bits ≡ length met.old.noted.bits }
    ensures steps { (n : object_name) → R.place rows.now (object n) ≡ Some at →
        let row = row_edges (R.rows rows.now) (object n) in
        OnOk result ((steps.new ≡ steps.old + 1 + length row) × (length row ≤ 8)) }
    ensures words { SameWords W.known W.places W.beside words.old words.new }
{
    steps.tick();
    let (_, row) = rows.entry_at(at);
    match row {
        Lent::Nothing => Ok(()),
        Lent::Here(values) => met.meet_all(values, rows, steps),
        Lent::In(block) => meet_block(rows, met, block, steps, words),
    }
}

// The same, where the objects that stand together are known.
#[inline(always)]
fn take<R: PlacedRows, W: RowWords, L: Ledger>(
    rows: &R,
    dense: &Dense<'_>,
    met: &mut Met,
    at: usize,
    steps: &mut Steps<L>,
    words: &mut W,
) -> Result<(), NoMemory>
    requires together { StandTogether (R.place rows.now) (R.rows rows.now) (R.blocks rows.now)
        dense.now }
    requires stand { Stand (R.rows rows.now) (R.blocks rows.now) (W.known words.old) }
    requires within { at < R.count rows.now }
    requires room { R.count rows.now ≤ length met.old.noted.bits }
    ensures met { let place = R.place rows.now in let count = R.count rows.now in
        (things : List any_thing) (n : object_name)
        → HasMet place count met.old things → Contains things (object n)
        → place (object n) ≡ Some at
        → OnOk result (HasMet place count met.new
        (things ++ met_by (row_edges (R.rows rows.now) (object n)))) }
    ensures queue { OnOk result (Grows met.old.queue.items met.new.queue.items) }
    ensures same { length met.new.noted.bits ≡ length met.old.noted.bits }
    ensures steps { (n : object_name) → R.place rows.now (object n) ≡ Some at →
        let row = row_edges (R.rows rows.now) (object n) in
        OnOk result ((steps.new ≡ steps.old + 1 + length row) × (length row ≤ 8)) }
    ensures words { SameWords W.known W.places W.beside words.old words.new }
{
    match dense.row_at(at) {
        Some(row) => {
            steps.tick();
            meet_row(rows, dense, met, row.as_slice(), steps)
        }
        None => take_far(rows, met, at, steps, words),
    }
}

// Meets all that the values reach.
fn walk_places<R: PlacedRows, W: RowWords, L: Ledger>(
    alloc: Global,
    rows: &R,
    roots: &[Value],
    steps: &mut Steps<L>,
    words: &mut W,
) -> Result<Met, NoMemory>
    requires { Stand (R.rows rows.now) (R.blocks rows.now) (W.known words.old) }
    ensures reached { IfOk result
        (HasReached (R.place rows.now) (R.count rows.now) (R.rows rows.now) roots.now) }
    ensures steps { IfOk result (λ met.
        steps.new ≤ steps.old + (9 * length met.queue.items + length roots.now)) }
    ensures words { SameWords W.known W.places W.beside words.old words.new }
{
    let mut met = Met::new(alloc, rows)?;
    met.meet_all(roots, rows, steps)?;
    let dense = rows.dense();
    let mut i = 0;
    while i < met.queue.len() {
        let at = met.queue[i];
        take(rows, &dense, &mut met, at, steps, words)?;
        i += 1;
    }
    Ok(met)
}

/// The marks of the values by place, as a sweep wants them: no list of them is made. A step is one
/// thing taken from the worklist or one value looked at; looking up a place, and clearing and setting
/// bits, are no steps.
///
/// # Errors
/// `NoMemory` where memory was refused.
#[inline(always)]
pub fn mark_bits_within<R: PlacedRows, W: RowWords, L: Ledger>(
    alloc: Global,
    roots: &[Value],
    rows: &R,
    steps: &mut Steps<L>,
    words: &mut W,
) -> Result<PlaceSet, NoMemory>
    requires { Stand (R.rows rows.now) (R.blocks rows.now) (W.known words.old) }
    ensures marks { let marks = marks_of (R.rows rows.now) (R.all rows.now) roots.now in
        IfOk result (λ bits. TellMarks (R.place rows.now) bits marks) }
    ensures room { IfOk result (λ bits. R.count rows.now ≤ length bits) }
    ensures steps { let marks = marks_of (R.rows rows.now) (R.all rows.now) roots.now in
        OnOk result (steps.new ≤ steps.old + (9 * length marks + length roots.now)) }
    ensures words { SameWords W.known W.places W.beside words.old words.new }
{
    let met = walk_places(alloc, rows, roots, steps, words)?;
    Ok(met.noted.bits)
}

// The same, with steps that are counted on a ledger of their own.
#[inline(always)]
fn mark_bits_counted<R: PlacedRows, W: RowWords, L: Ledger>(
    alloc: Global,
    roots: &[Value],
    rows: &R,
    words: &mut W,
    blank: Blank,
) -> Result<PlaceSet, NoMemory>
    requires stand { Stand (R.rows rows.now) (R.blocks rows.now) (W.known words.old) }
    requires name { blank.name ≡ L.name }
    requires parts { blank.parts ≡ L.parts }
    requires some { 0 < blank.parts }
    ensures marks { let marks = marks_of (R.rows rows.now) (R.all rows.now) roots.now in
        IfOk result (λ bits. TellMarks (R.place rows.now) bits marks) }
    ensures room { IfOk result (λ bits. R.count rows.now ≤ length bits) }
    ensures words { SameWords W.known W.places W.beside words.old words.new }
{
    let mut steps: Steps<L> = Steps::none(blank);
    mark_bits_within(alloc, roots, rows, &mut steps, words)
}

/// The marks of the values by place, as a sweep wants them: no list of them is made. It takes as many
/// steps as `mark_bits_within`; they are not told.
///
/// # Errors
/// `NoMemory` where memory was refused.
#[inline(always)]
pub fn mark_bits<R: PlacedRows, W: RowWords>(
    alloc: Global,
    roots: &[Value],
    rows: &R,
    words: &mut W,
) -> Result<PlaceSet, NoMemory>
    requires { Stand (R.rows rows.now) (R.blocks rows.now) (W.known words.old) }
    ensures marks { let marks = marks_of (R.rows rows.now) (R.all rows.now) roots.now in
        IfOk result (λ bits. TellMarks (R.place rows.now) bits marks) }
    ensures room { IfOk result (λ bits. R.count rows.now ≤ length bits) }
    ensures words { SameWords W.known W.places W.beside words.old words.new }
{
    mark_bits_counted::<R, W, Brand>(alloc, roots, rows, words, Blank::new(1))
}

// Appends a thing with its row. The row is copied once, into its place: as a part of what is appended
// it would be copied twice.
#[inline(always)]
fn push_with_row(load: &mut Vec<(Thing, Told)>, thing: Thing, values: &[Value])
    requires room { vec_len load.old < vec_capacity load.old }
    requires row { (1 ≤ length values.now) × (length values.now ≤ 8) }
    ensures { load.new.items ≡ load.old.items ++ (thing, here values.now) ∷ [] }
{
    let at = load.len();
    load.push_reserved((thing, Told::Here(Row::from_args(Args::nulls(1)))));
    if let Told::Here(place) = &mut load[at].1 {
        place.set_values(values);
    }
}

// Appends a thing with its row as it is lent; one in a block is told and not read.
#[inline(always)]
fn push_lent(load: &mut Vec<(Thing, Told)>, thing: Thing, row: Lent<'_>)
    requires room { vec_len load.old < vec_capacity load.old }
    requires lent { (its : Option (List names)) × (block : Option ℕ) × IsLent its block row }
    ensures { (rows : object_name → Option (List names)) (blocks : object_name → Option ℕ)
        → IsLent (thing_row rows thing) (thing_block blocks thing) row.entry
        → lie_as rows load.new.items
        ≡ lie_as rows load.old.items ++ (thing, thing_lies rows blocks thing) ∷ [] }
{
    match row {
        Lent::Nothing => load.push_reserved((thing, Told::Nothing)),
        Lent::Here(values) => push_with_row(load, thing, values),
        Lent::In(block) => load.push_reserved((thing, Told::In(block))),
    }
}

// Appends the thing at a place, with its row.
#[inline(always)]
fn push_entry<R: PlacedRows>(
    rows: &R,
    at: usize,
    load: &mut Vec<(Thing, Told)>,
) -> Result<(), NoMemory>
    requires { at < R.count rows.now }
    ensures { let its = R.rows rows.now in let lies = thing_lies its (R.blocks rows.now) in
        OnOk result ((x : any_thing) × (R.place rows.now x ≡ Some at)
        × (lie_as its load.new.items ≡ lie_as its load.old.items ++ (x, lies x) ∷ [])) }
{
    load.reserve(1)?;
    let (thing, row) = rows.entry_at(at);
    push_lent(load, thing, row);
    Ok(())
}

// Appends the thing at a place that is on, or some that stand together there, with their rows; how
// many.
#[inline(always)]
fn push_run<R: PlacedRows>(
    rows: &R,
    dense: &Dense<'_>,
    bits: &PlaceSet,
    at: usize,
    load: &mut Vec<(Thing, Told)>,
) -> Result<usize, NoMemory>
    requires together { StandTogether (R.place rows.now) (R.rows rows.now) (R.blocks rows.now)
        dense.now }
    requires within { at < R.count rows.now }
    requires on { slice_index_or bits.now at false ≡ true }
    ensures some { IfOk result (λ count. 0 < count) }
    ensures on { IfOk result (λ count. AreOn bits.now at (at + count)) }
    ensures pushed { let its = R.rows rows.now in let lies = thing_lies its (R.blocks rows.now) in
        IfOk result (λ count. PushesFrom (R.place rows.now) lies at count
        (lie_as its load.old.items) (lie_as its load.new.items)) }
{
    let run = dense.run_at(bits, at);
    if run.is_empty() {
        push_entry(rows, at, load)?;
        return Ok(1);
    }
    load.extend_from_slice(run)?;
    Ok(run.len())
}

// The things whose places are on, each with its row.
fn listed<R: PlacedRows>(
    alloc: Global,
    rows: &R,
    bits: &PlaceSet,
    guess: usize,
) -> Result<Vec<(Thing, Told)>, NoMemory>
    requires within { (p : ℕ) → slice_index_or bits.now p false ≡ true → p < R.count rows.now }
    ensures { let its = R.rows rows.now in let lies = thing_lies its (R.blocks rows.now) in
        IfOk result (λ load. ListsRows (R.place rows.now) lies bits.now (lie_as its load.items)) }
{
    let mut load = Vec::with_capacity(alloc, guess)?;
    let dense = rows.dense();
    let count = rows.places();
    let mut from = 0;
    while from < count {
        match bits.next(from) {
            Some(at) => {
                from = at + push_run(rows, &dense, bits, at, &mut load)?;
            }
            None => return Ok(load),
        }
    }
    Ok(load)
}

/// The load of a letter with these arguments: each thing that they reach, with its row, which is told
/// and not read where it lies in a block; `None` exactly where they reach a thing that has no place. A
/// step is one thing taken from the worklist
/// or one value looked at; looking up a place, clearing, setting and finding bits, and copying rows
/// into the load are no steps.
///
/// # Errors
/// `NoMemory` where memory was refused.
pub fn load_by_place_within<R: PlacedRows, W: RowWords, L: Ledger>(
    alloc: Global,
    args: &Args,
    rows: &R,
    steps: &mut Steps<L>,
    words: &mut W,
) -> Result<Option<Listed<(Thing, Told)>>, NoMemory>
    requires { Stand (R.rows rows.now) (R.blocks rows.now) (W.known words.old) }
    ensures load { let its = R.rows rows.now in
        let lying = load_lying its (R.blocks rows.now) (R.all rows.now) args.now in
        IfOk result (λ found. IfSome found (λ load. lie_as its load ≡ lying)) }
    ensures none { let marks = marks_of (R.rows rows.now) (R.all rows.now) args.now in
        IfOk result (λ found. IsNone found ↔ HasUnplaced (R.place rows.now) marks) }
    ensures steps { let marks = marks_of (R.rows rows.now) (R.all rows.now) args.now in
        OnOk result (steps.new ≤ steps.old + (9 * length marks + length args.now)) }
    ensures words { SameWords W.known W.places W.beside words.old words.new }
{
    let met = walk_places(alloc, rows, args.as_slice(), steps, words)?;
    if !met.noted.others.is_empty() {
        return Ok(None);
    }
    let guess = met.queue.len().saturating_add(GUESSED_OWNERS);
    let load = listed(alloc, rows, &met.noted.bits, guess)?;
    Ok(Some(Listed::from(load)))
}

// The same, with steps that are counted on a ledger of their own.
#[inline(always)]
fn load_counted<R: PlacedRows, W: RowWords, L: Ledger>(
    alloc: Global,
    args: &Args,
    rows: &R,
    words: &mut W,
    blank: Blank,
) -> Result<Option<Listed<(Thing, Told)>>, NoMemory>
    requires stand { Stand (R.rows rows.now) (R.blocks rows.now) (W.known words.old) }
    requires name { blank.name ≡ L.name }
    requires parts { blank.parts ≡ L.parts }
    requires some { 0 < blank.parts }
    ensures load { let its = R.rows rows.now in
        let lying = load_lying its (R.blocks rows.now) (R.all rows.now) args.now in
        IfOk result (λ found. IfSome found (λ load. lie_as its load ≡ lying)) }
    ensures none { let marks = marks_of (R.rows rows.now) (R.all rows.now) args.now in
        IfOk result (λ found. IsNone found ↔ HasUnplaced (R.place rows.now) marks) }
    ensures words { SameWords W.known W.places W.beside words.old words.new }
{
    let mut steps: Steps<L> = Steps::none(blank);
    load_by_place_within(alloc, args, rows, &mut steps, words)
}

/// The load of a letter with these arguments: each thing that they reach, with its row, which is told
/// and not read where it lies in a block; `None` exactly where they reach a thing that has no place. It
/// takes as many steps as
/// `load_by_place_within`; they are not told.
///
/// # Errors
/// `NoMemory` where memory was refused.
#[inline(always)]
pub fn load_by_place<R: PlacedRows, W: RowWords>(
    alloc: Global,
    args: &Args,
    rows: &R,
    words: &mut W,
) -> Result<Option<Listed<(Thing, Told)>>, NoMemory>
    requires { Stand (R.rows rows.now) (R.blocks rows.now) (W.known words.old) }
    ensures load { let its = R.rows rows.now in
        let lying = load_lying its (R.blocks rows.now) (R.all rows.now) args.now in
        IfOk result (λ found. IfSome found (λ load. lie_as its load ≡ lying)) }
    ensures none { let marks = marks_of (R.rows rows.now) (R.all rows.now) args.now in
        IfOk result (λ found. IsNone found ↔ HasUnplaced (R.place rows.now) marks) }
    ensures words { SameWords W.known W.places W.beside words.old words.new }
{
    load_counted::<R, W, Brand>(alloc, args, rows, words, Blank::new(1))
}
