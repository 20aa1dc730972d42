// A small graph by hand: rows that are shared, absent or lead back, owners, roots named twice.

ghost use Rattle.std.specs.Prelude.{◌≡◌, ◌<◌, ◌≤◌, ◌+◌, ◌==◌, ◌∷◌, ⊤, IfOk, if◌then◌else◌, true, false, None, Some, Contains, ℕ, [], length, map, slice_get};
ghost use Rattle.std.specs.List.{range_with_len};
ghost use Rattle.std.proofs.Common.{refl, sym, subst, ◌∙◌, zero-add};
ghost use Rattle.std.proofs.lemmas.Bool.{eqb-true};
ghost use Rattle.std.proofs.lemmas.List.{length-map};
ghost use Rattle.std.proofs.lemmas.List.FromFn.{length-range_with_len, get_or-map-range_with_len};
ghost use Rattle.std.proofs.lemmas.Option.{none-some, slice_get_within};
ghost use Rattle.orca_names.specs.declared.names.ObjName.{ObjName as object_name};
ghost use Rattle.row_store.specs.Standing.{Stand};
ghost use Rattle.row_store.specs.Vectors.{known_in};
ghost use Rattle.table_check.specs.One.{one_has, one_listed, the_one};

use crate::cases::{
    Given, Loaded, Named, are_loaded, are_things, args_of, object, row_of, thing_of,
};
use orca_names::{ActorName, NoMemory, ObjName, Row, Thing, Value};
use reach_walk::{
    BlockRows, Edges, LentRows, ThingList, WithWords, find_flat, load_of, load_within, mark,
    mark_within, walk,
};
use row_store::{Lent, NoBlocks, Told, put};
use std::alloc::Global;
use std::marker::Brand;
use std::sync::ledger::{Blank, Ledger};
use step_count::Steps;

// The rows of the objects of actor 0, in the order of their serials.
#[derive(Drop)]
struct Shelf {
    rows: Vec<Row>,
}

impl BlockRows for Shelf {
    ghost rows = { λ s n. if n.owner == 0 then slice_get s.rows.items n.serial else None };

    ghost blocks = { λ _ _. None };

    ghost all = { λ s. map (λ k. record { owner = 0; serial = k }) (range_with_len 0 (length s.rows.items)) };

    ghost within = { λ s n row.
        let name : ℕ → object_name = λ serial. record { owner = 0; serial = serial } in
        let count = length s.rows.items in
        elim (n.owner == 0) as (λ b. (n.owner == 0) ≡ b → (if b then slice_get s.rows.items n.serial else None) ≡ Some row → Contains (map name (range_with_len 0 count)) n) [
          | true ↦ λ own found.
              let inside = slice_get_within s.rows.items n.serial row found in
              let as_many = length-map (range_with_len 0 count) name ∙ length-range_with_len 0 count in
              let at = get_or-map-range_with_len name 0 count n.serial n.serial n inside (zero-add n.serial) in
              (n.serial, subst (λ m. n.serial < m) (sym as_many) inside, at ∙ (λ i. record { owner = sym (eqb-true n.owner 0 own) i; serial = n.serial }))
          | false ↦ λ _ found. absurd (none-some row found)
        ] refl };
}

impl LentRows for Shelf {
    fn row_of(&self, n: ObjName) -> Lent<'_> {
        if n.owner != ActorName(0) {
            return Lent::Nothing;
        }
        match self.rows.get(n.serial.get() as usize) {
            Some(row) => Lent::Here(row.as_slice()),
            None => Lent::Nothing,
        }
    }
}

// A graph in which nothing leads on.
#[derive(Drop)]
struct Nowhere;

impl Edges for Nowhere {
    ghost edges = { λ _ _. [] };

    ghost all = { λ _. [] };

    ghost Kept = { ⊤ };

    ghost kept = { λ _. tt };

    fn push_edges(&mut self, _: Thing, _: &mut Vec<Value>) -> Result<(), NoMemory> {
        Ok(())
    }

    ghost within = { λ _ _ leads. absurd (leads refl) };

    ghost same_edges = { λ _ _ _. refl };
}

/// A shelf with these rows.
fn shelf_of(alloc: Global, rows: &[&[Given]]) -> Result<Shelf, NoMemory> {
    let mut shelf = Vec::new(alloc);
    for values in rows {
        if let Some(row) = row_of(values) {
            shelf.push(row)?;
        }
    }
    Ok(Shelf { rows: shelf })
}

const FIVE_ROWS: &[&[Given]] = &[
    &[Given::Object(0, 1), Given::Num(5)],
    &[Given::Object(0, 3), Given::Actor(7)],
    &[Given::Object(0, 3)],
    &[Given::Null, Given::Object(4, 9)],
    &[Given::Object(0, 4)],
];

// Roots, and what they reach through these rows.
const REACHED: &[(&[Given], &[Named])] = &[
    (
        &[
            Given::Object(0, 2),
            Given::Null,
            Given::Object(0, 0),
            Given::Object(0, 2),
        ],
        &[
            Named::Actor(0),
            Named::Object(0, 0),
            Named::Object(0, 1),
            Named::Object(0, 2),
            Named::Object(0, 3),
            Named::Actor(4),
            Named::Object(4, 9),
            Named::Actor(7),
        ],
    ),
    (
        &[Given::Object(0, 4)],
        &[Named::Actor(0), Named::Object(0, 4)],
    ),
    (&[Given::Num(3)], &[]),
];

/// Whether the roots reach these things.
fn reach(alloc: Global, shelf: &Shelf, roots: &[Given], want: &[Named]) -> bool {
    let roots = args_of(roots);
    match mark(
        alloc,
        roots.as_slice(),
        &mut WithWords::of(shelf, &mut NoBlocks::default()),
    ) {
        Ok(marks) => are_things(marks.as_slice(), want),
        Err(_) => false,
    }
}

fn all_reach(alloc: Global, shelf: &Shelf) -> bool {
    for (roots, want) in REACHED {
        if !reach(alloc, shelf, roots, want) {
            return false;
        }
    }
    true
}

#[test]
fn marks_are_what_rows_reach(rt: HostRuntime) {
    let holds = match shelf_of(rt.alloc(), FIVE_ROWS) {
        Ok(shelf) => all_reach(rt.alloc(), &shelf),
        Err(_) => false,
    };
    assert!(rt; holds);
}

const TWO_ROWS: &[&[Given]] = &[&[Given::Num(4)], &[Given::Object(0, 0)]];

const LOAD: &[Loaded] = &[
    (Named::Actor(0), &[]),
    (Named::Object(0, 0), &[Given::Num(4)]),
    (Named::Object(0, 1), &[Given::Object(0, 0)]),
];

/// Whether both objects are loaded with their rows, and their owner.
fn loads_both(alloc: Global, shelf: &Shelf) -> bool {
    let args = args_of(&[Given::Object(0, 0), Given::Object(0, 1)]);
    match load_of(
        alloc,
        &args,
        &mut WithWords::of(shelf, &mut NoBlocks::default()),
    ) {
        Ok(load) => are_loaded(load.as_slice(), LOAD),
        Err(_) => false,
    }
}

#[test]
fn loads_have_each_thing_with_its_row(rt: HostRuntime) {
    let holds = match shelf_of(rt.alloc(), TWO_ROWS) {
        Ok(shelf) => loads_both(rt.alloc(), &shelf),
        Err(_) => false,
    };
    assert!(rt; holds);
}

// A row that names an object of actor 0 twice.
fn twice(serial: u64) -> Row {
    Row::of(&[Value::Obj(object(0, serial)), Value::Obj(object(0, serial))])
}

// A chain of rows, each but the first naming the one before twice.
fn chain(alloc: Global, count: u64) -> Result<Shelf, NoMemory> {
    let mut rows = Vec::new(alloc);
    rows.push(Row::of(&[Value::Null]))?;
    for serial in 1..count {
        rows.push(twice(serial - 1))?;
    }
    Ok(Shelf { rows })
}

// How many marks the first row has.
fn marks_of_first<L: Ledger>(
    alloc: Global,
    shelf: &Shelf,
    steps: &mut Steps<L>,
) -> Result<usize, NoMemory> {
    let root = [Value::Obj(object(0, 0))];
    let marks = mark_within(
        alloc,
        &root,
        &mut WithWords::of(shelf, &mut NoBlocks::default()),
        steps,
    )?;
    Ok(marks.len())
}

// The load of the last of 40 rows; how many things it has.
fn load_of_chain<L: Ledger>(
    alloc: Global,
    shelf: &Shelf,
    steps: &mut Steps<L>,
) -> Result<usize, NoMemory>
    ensures { IfOk result (λ count. count ≡ 41 → steps.new ≤ steps.old + 378) }
{
    let args = args_of(&[Given::Object(0, 39)]);
    let load = load_within(
        alloc,
        &args,
        &mut WithWords::of(shelf, &mut NoBlocks::default()),
        steps,
    )?;
    Ok(load.len())
}

// The marks of one row, and then the load of a chain, on one ledger.
fn walk_both<L: Ledger>(
    alloc: Global,
    row: &Shelf,
    chain: &Shelf,
    blank: Blank,
) -> Result<(usize, usize), NoMemory>
    requires name { blank.name ≡ L.name }
    requires parts { blank.parts ≡ L.parts }
    requires some { 0 < blank.parts }
{
    let mut steps: Steps<L> = Steps::none(blank);
    let marks = marks_of_first(alloc, row, &mut steps)?;
    let things = load_of_chain(alloc, chain, &mut steps)?;
    Ok((marks, things))
}

/// Whether the first row has two marks, and the last of 40 rows a load of 41 things.
fn walks_once(alloc: Global, row: &Shelf) -> bool {
    let Ok(rows) = chain(alloc, 40) else {
        return false;
    };
    let walked = walk_both::<Brand>(alloc, row, &rows, Blank::new(1));
    matches!(walked, Ok((2, 41)))
}

#[test]
fn chains_are_walked_once(rt: HostRuntime) {
    let holds = match chain(rt.alloc(), 1) {
        Ok(row) => walks_once(rt.alloc(), &row),
        Err(_) => false,
    };
    assert!(rt; holds);
}

const WALKED: &[Named] = &[Named::Actor(2), Named::Actor(6), Named::Object(6, 1)];

#[test]
fn walks_begin_at_their_roots(rt: HostRuntime) {
    let roots = [
        thing_of(Named::Object(6, 1)),
        thing_of(Named::Actor(2)),
        thing_of(Named::Object(6, 1)),
    ];
    let holds = match walk(rt.alloc(), &roots, &mut Nowhere) {
        Ok(found) => are_things(found.as_slice(), WALKED),
        Err(_) => false,
    };
    assert!(rt; holds);
}

const FLAT_ROWS: &[&[Given]] = &[&[Given::Num(5)], &[Given::Object(0, 0)]];

const FLAT: &[Given] = &[
    Given::Actor(3),
    Given::Object(0, 0),
    Given::Object(4, 9),
    Given::Null,
    Given::Object(0, 0),
];

const FOUND: &[Named] = &[
    Named::Actor(0),
    Named::Object(0, 0),
    Named::Actor(3),
    Named::Actor(4),
    Named::Object(4, 9),
];

/// Whether those that lead nowhere are found flat, and what leads on is not.
fn finds_flat(shelf: &Shelf, things: &mut ThingList) -> bool {
    let flat = matches!(
        find_flat(&args_of(FLAT), shelf, things, &mut NoBlocks::default()),
        Ok(true)
    );
    let found = are_things(things.as_slice(), FOUND);
    let leads_on = args_of(&[Given::Object(0, 1)]);
    flat && found
        && matches!(
            find_flat(&leads_on, shelf, things, &mut NoBlocks::default()),
            Ok(false)
        )
}

fn is_found_flat(alloc: Global, shelf: &Shelf) -> bool {
    let mut things = ThingList::new(alloc);
    let holds = finds_flat(shelf, &mut things);
    drop(things);
    holds
}

#[test]
fn what_leads_nowhere_is_found_flat(rt: HostRuntime) {
    let holds = match shelf_of(rt.alloc(), FLAT_ROWS) {
        Ok(shelf) => is_found_flat(rt.alloc(), &shelf),
        Err(_) => false,
    };
    assert!(rt; holds);
}

// Object 2 of actor 0 alone has a row, which lies in block 1. Here it stands for the clauses alone.
#[derive(Drop)]
struct InBlock {
    row: Row,
}

impl BlockRows for InBlock {
    ghost rows = { λ s. one_has s.row };

    ghost blocks = { λ _. one_has 1 };

    ghost all = { λ _. the_one ∷ [] };

    ghost within = { λ s n row e. one_listed s.row row n e };
}

impl LentRows for InBlock {
    fn row_of(&self, n: ObjName) -> Lent<'_> {
        if n.owner == ActorName(0) && n.serial.get() == 2 {
            Lent::In(1)
        } else {
            Lent::Nothing
        }
    }
}

/// Words in which the row lies where the table says.
fn words_with(alloc: Global, table: &InBlock) -> Result<Vec<u64>, NoMemory>
    ensures { IfOk result (λ words.
        Stand (one_has table.now.row) (one_has 1) (known_in 0 words.items)) }
{
    let mut words = vec![in alloc; 0; 34]?;
    put(&mut words, 1, &table.row);
    Ok(words)
}

const LED_TO: &[Named] = &[
    Named::Actor(0),
    Named::Object(0, 2),
    Named::Actor(4),
    Named::Object(4, 9),
];

/// Whether marks go on to what the row names.
fn marks_go_on(alloc: Global, table: &InBlock) -> Result<bool, NoMemory> {
    let mut words = words_with(alloc, table)?;
    let roots = args_of(&[Given::Object(0, 2)]);
    let marks = mark(
        alloc,
        roots.as_slice(),
        &mut WithWords::of(table, &mut words),
    )?;
    Ok(are_things(marks.as_slice(), LED_TO))
}

/// Whether the object leads no further than to itself.
fn leads_nowhere(alloc: Global, table: &InBlock) -> Result<bool, NoMemory> {
    let mut words = words_with(alloc, table)?;
    let mut things = ThingList::new(alloc);
    let args = args_of(&[Given::Object(0, 2)]);
    find_flat(&args, table, &mut things, &mut words)
}

/// Whether a load tells the block of the row, and not the row.
fn load_tells_block(alloc: Global, table: &InBlock) -> Result<bool, NoMemory> {
    let mut words = words_with(alloc, table)?;
    let args = args_of(&[Given::Object(0, 2)]);
    let load = load_of(alloc, &args, &mut WithWords::of(table, &mut words))?;
    let its = (thing_of(Named::Object(0, 2)), Told::In(1));
    Ok(load.len() == 4 && load.as_slice().get(1) == Some(&its))
}

fn reads_words(alloc: Global, table: &InBlock) -> Result<bool, NoMemory> {
    Ok(
        marks_go_on(alloc, table)?
            && !leads_nowhere(alloc, table)?
            && load_tells_block(alloc, table)?,
    )
}

#[test]
fn rows_in_blocks_are_read_from_words(rt: HostRuntime) {
    let row = Row::of(&[Value::Obj(object(4, 9)), Value::Num(3)]);
    let holds = reads_words(rt.alloc(), &InBlock { row });
    assert!(rt; matches!(holds, Ok(true)));
}
