// The table.

ghost use Rattle.std.specs.Prelude.{◌≡◌, ◌≢◌, ◌↔◌, ◌+◌, ◌-◌, ◌^◌, ◌<◌, ◌≤◌, List, [], Option, Some, None, length, map, slice_get, IfOk, IfSome, IsOk, IsSome, IsTrue, MatchOption, OnOk, is_some};
ghost use Rattle.std.specs.FinMap as m;
ghost use Rattle.orca_names.specs.Names.{thing_cmp};
ghost use Rattle.orca_names.specs.declared.names.Thing.{Thing as any_thing};
ghost use Rattle.orca_names.specs.declared.names.Value as names;
ghost use Rattle.plain_list.specs.Rising.{IsAt};
ghost use Rattle.foreign_table.specs.Back.{BackRises, given_up};
ghost use Rattle.foreign_table.specs.Entry.{amount_of, pair_of};
ghost use Rattle.foreign_table.specs.Span.{IsSpan};
ghost use Rattle.foreign_table.specs.Table.{AllHere, DoRise, IsSame, Table, block_at, count_on, count_unheld, counted, entered, kept_in, known_block, known_row, no_table, on_actors, row_length, without};
ghost use Rattle.letter_kinds.specs.Telling.{TellsNothing};
ghost use Rattle.letter_kinds.specs.Holdings.{Row as any_row, entry_row};
ghost use Rattle.row_store.specs.Lent.{IsLent};
ghost use Rattle.row_store.specs.Memory.{remembered};
ghost use Rattle.row_store.specs.Standing.{AreRemembered};
ghost use Rattle.row_store.specs.Told.{row_here, thing_row, told_block, told_row};
ghost use Rattle.ref_weights.specs.Limit.{count_limit};

use crate::aside::{lend, put_entry, raise, take_entry, told_values};
use crate::keep::keep_others;
use crate::search::{Entry, place_of};
use crate::span::span;
use letter_kinds::Amounts;
use orca_names::{ActorName, NoMemory, ObjName, Thing, Value};
use row_store::{Lent, Remembered, Told};
use std::alloc::Global;
use std::marker::Model;

// As many places come with the first one.
const FIRST_PLACES: usize = 4;

/// The things of others that an actor holds, each with its count and, for an object, its row where
/// that is known, and the room for new ones.
#[derive(Drop)]
pub struct ForeignTable {
    held: Vec<Entry>,
    // Of the rows at hand, one behind another in the order of their entries.
    values: Vec<Value>,
    // The rows that lie in blocks.
    memory: Remembered,
}

impl Model for ForeignTable {
    ghost use Rattle.std.specs.Prelude.{◌-◌, length, vec_len, vec_capacity};
    ghost use Rattle.foreign_table.specs.Entry.{FollowFrom};
    ghost use Rattle.foreign_table.specs.Table.{AreRecalled, DoRise, Table, coded_table, kept_in, seen_by};
    ghost use Rattle.row_store.specs.Memory.{remembered};

    ghost Value = { Table };

    ghost coded = { coded_table };

    ghost view = { λ s. seen_by (remembered s.memory) (vec_capacity s.held - vec_len s.held)
        (vec_capacity s.values - vec_len s.values) (kept_in s.values.items s.held.items) };

    ghost invariant = { λ s. DoRise s.held.items
        × FollowFrom 0 s.held.items (length s.values.items)
        × AreRecalled (remembered s.memory) (kept_in s.values.items s.held.items) };
}

// The place of a thing that is there.
fn place_there(held: &[Entry], thing: Thing) -> usize
    requires own { DoRise held.now }
    requires there { (values : List names.Value) × IsSome (m.get (kept_in values held.now) thing) }
    ensures { IsAt thing_cmp (map amount_of held.now) thing result }
{
    match place_of(held, thing) {
        Ok(i) => i,
        Err(_) => unreachable!(),
    }
}

// How many more places to take where so many are wanted: the first ones come together, since most
// actors hold a few things.
fn places_to_take(wanted: usize, capacity: usize) -> usize
    ensures enough { wanted ≤ result }
    ensures asked { 0 < capacity → result ≡ wanted }
{
    if capacity == 0 {
        wanted.max(FIRST_PLACES)
    } else {
        wanted
    }
}

fn is_held(held: &[Entry], thing: Thing) -> bool
    requires { DoRise held.now }
    ensures { (values : List names.Value) → result ≡ is_some (m.get (kept_in values held.now) thing) }
{
    match place_of(held, thing) {
        Ok(_) => true,
        Err(_) => false,
    }
}

// How many of these things are not held.
fn count_unheld(held: &[Entry], things: &Amounts) -> usize
    requires { DoRise held.now }
    ensures { (values : List names.Value)
        → result ≡ count_unheld things.now (kept_in values held.now) }
{
    let mut count = 0;
    for amount in things.as_slice() {
        if !is_held(held, amount.0) {
            count += 1;
        }
    }
    count
}

// How many of the things are actors; their rows do not matter.
fn count_actors(held: &[Entry]) -> usize
    ensures { result ≡ length (on_actors (map (pair_of []) held.now)) }
{
    let mut count = 0;
    for entry in held {
        if let Thing::Actor(_) = entry.thing {
            count += 1;
        }
    }
    count
}

fn actors_of(alloc: Global, held: &[Entry]) -> Result<Vec<(ActorName, u64)>, NoMemory>
    ensures { IfOk result (λ found. found.items ≡ on_actors (map (pair_of []) held.now)) }
{
    let mut found = Vec::with_capacity(alloc, count_actors(held))?;
    for entry in held {
        if let Thing::Actor(a) = entry.thing {
            found.push_reserved((a, entry.count.get()));
        }
    }
    Ok(found)
}

fn same_entries(held: &[Entry], others: &[Entry]) -> bool
    ensures { IsTrue result ↔ (held.now ≡ others.now) }
{
    held == others
}

fn same_values(values: &[Value], others: &[Value]) -> bool
    ensures { IsTrue result ↔ (values.now ≡ others.now) }
{
    values == others
}

// A row that is told to lie in a block is remembered as it is there.
#[inline(always)]
fn remember(memory: &mut Remembered, thing: &Thing, told: &Told, from: &Remembered)
    ensures here { IsSome (told_block told.now) → thing_row (remembered memory.new) thing.now
        ≡ thing_row (remembered from.now) thing.now }
    ensures others { (x : any_thing) → x ≢ thing.now
        → thing_row (remembered memory.new) x ≡ thing_row (remembered memory.old) x }
{
    let Told::In(_) = told else {
        return;
    };
    let Thing::Obj(n) = thing else {
        return;
    };
    memory.know_from(*n, from);
}

impl ForeignTable {
    /// Nothing is held. It takes no memory.
    pub fn new(alloc: Global) -> ForeignTable
        ensures { result ≡ no_table }
    {
        ForeignTable {
            held: Vec::new(alloc),
            values: Vec::new(alloc),
            memory: Remembered::new(),
        }
    }

    /// Raises the room for new entries to at least this, if there is less.
    ///
    /// # Errors
    /// `NoMemory` where memory was refused; all but the room is then as before.
    #[inline(always)]
    pub fn reserve(&mut self, n: usize) -> Result<(), NoMemory>
        ensures room { OnOk result (n ≤ self.new.spare) }
        ensures more { self.old.spare ≤ self.new.spare }
        ensures same { self.new ≡ record self.old { spare = self.new.spare } }
        ensures enough { n ≤ self.old.spare → IsOk result }
    {
        if n == 0 {
            return Ok(());
        }
        let n = places_to_take(n, self.held.capacity());
        self.held.reserve(n)?;
        Ok(())
    }

    /// Raises the room for new entries to at least one for each of these things that is not held, if
    /// there is less.
    ///
    /// # Errors
    /// `NoMemory` where memory was refused; all but the room is then as before.
    pub fn reserve_for(&mut self, things: &Amounts) -> Result<(), NoMemory>
        ensures room { OnOk result (count_unheld things.now self.old.entries ≤ self.new.spare) }
        ensures more { self.old.spare ≤ self.new.spare }
        ensures same { self.new ≡ record self.old { spare = self.new.spare } }
        ensures enough { count_unheld things.now self.old.entries ≤ self.old.spare → IsOk result }
    {
        let n = count_unheld(self.held.as_slice(), things);
        self.reserve(n)
    }

    /// Raises the room for values of rows to at least this, if there is less.
    ///
    /// # Errors
    /// `NoMemory` where memory was refused; all but the room is then as before.
    #[inline(always)]
    pub fn reserve_values(&mut self, n: usize) -> Result<(), NoMemory>
        ensures room { OnOk result (n ≤ self.new.spare_values) }
        ensures more { self.old.spare_values ≤ self.new.spare_values }
        ensures same { self.new ≡ record self.old { spare_values = self.new.spare_values } }
        ensures enough { n ≤ self.old.spare_values → IsOk result }
    {
        if n == 0 {
            return Ok(());
        }
        // Most actors know one row, so the first room is no more than asked.
        if self.values.capacity() == 0 {
            self.values.reserve_exact(n)?;
        } else {
            self.values.reserve(n)?;
        }
        Ok(())
    }

    /// The count on a thing rises, from 0 where nothing was held, and its row is the one that is told;
    /// in a block it is the one that is remembered there. It takes no memory.
    #[inline(always)]
    pub fn gain(&mut self, thing: Thing, told: &Told, from: &Remembered, by: u64)
        requires room { m.get self.old.entries thing ≡ None → 0 < self.old.spare }
        requires values { row_length (row_here told.now) ≤ self.old.spare_values }
        requires told { IsSome (told_block told.now)
            → IsSome (told_row (remembered from.now) thing told.now) }
        requires fits { count_on self.old thing + by < count_limit }
        ensures { let row = told_row (remembered from.now) thing told.now in
            self.new ≡ entered (λ count. count + by) thing row (told_block told.now) self.old }
    {
        remember(&mut self.memory, &thing, told, from);
        let row = told_values(told);
        let block = told.block();
        match place_of(self.held.as_slice(), thing) {
            Ok(i) => raise(&mut self.held, &mut self.values, i, by, row, block),
            Err(i) => put_entry(&mut self.held, &mut self.values, i, &thing, by, row, block),
        }
    }

    /// The count that is held on a thing, 0 where there is none.
    pub fn count(&self, thing: Thing) -> u64
        ensures count { result ≡ count_on self.now thing }
        ensures bound { result < count_limit }
    {
        match place_of(self.held.as_slice(), thing) {
            Ok(i) => self.held[i].count.get(),
            Err(_) => 0,
        }
    }

    /// The count on a thing falls by 1: a letter that loads it is sent.
    pub fn spend(&mut self, thing: Thing)
        requires there { IsSome (m.get self.old.entries thing) }
        requires enough { 0 < count_on self.old thing }
        ensures { self.new ≡ counted (λ count. count - 1) thing self.old }
    {
        let i = place_there(self.held.as_slice(), thing);
        self.held[i].count.spend();
    }

    /// The count on a thing rises, from 0 where nothing was held: more of it is made, of which an
    /// increment tells its owner. What row is known stays. It takes no memory.
    pub fn mint(&mut self, thing: Thing, by: u64)
        requires room { m.get self.old.entries thing ≡ None → 0 < self.old.spare }
        requires fits { count_on self.old thing + by < count_limit }
        ensures { let row = entry_row (m.get self.old.entries thing) in
            let block = block_at self.old.blocks thing in
            self.new ≡ entered (λ count. count + by) thing row block self.old }
    {
        match place_of(self.held.as_slice(), thing) {
            Ok(i) => self.held[i].count.mint(by),
            Err(i) => put_entry(&mut self.held, &mut self.values, i, &thing, by, &[], None),
        }
    }

    /// Takes an entry out, and tells its count.
    pub fn take_out(&mut self, thing: Thing) -> u64
        requires there { IsSome (m.get self.old.entries thing) }
        ensures count { result ≡ count_on self.old thing }
        ensures gone { self.new ≡ without thing self.old }
    {
        let i = place_there(self.held.as_slice(), thing);
        take_entry(&mut self.held, &mut self.values, i)
    }

    /// Takes these entries out, whose owners and things rise, in one pass.
    #[inline(always)]
    pub fn give_back(&mut self, back: &[(ActorName, Amounts)])
        requires { BackRises back.now }
        ensures { self.new ≡ given_up back.now self.old }
    {
        if back.is_empty() {
            return;
        }
        keep_others(&mut self.held, &mut self.values, back);
    }

    /// The row that is known of an object.
    #[inline(always)]
    pub fn row(&self, n: ObjName) -> Lent<'_>
        ensures { IsLent (known_row self.now n) (known_block self.now n) result }
    {
        match place_of(self.held.as_slice(), Thing::Obj(n)) {
            Ok(i) => lend(&self.held[i], self.values.as_slice()),
            Err(_) => Lent::Nothing,
        }
    }

    /// The rows that lie in blocks.
    #[inline(always)]
    pub fn memory(&self) -> &Remembered
        ensures { AreRemembered (known_row self.now) (known_block self.now) (remembered result.now) }
    {
        &self.memory
    }

    /// Where nothing tells of a row that it lies in a block, none does. It serves proofs, and does nothing.
    #[inline(always)]
    pub fn untold_are_here(&self)
        ensures { TellsNothing (λ n row block. (known_row self.now n ≡ Some row)
            × (known_block self.now n ≡ Some block)) → AllHere self.now }
    {
        // Proofs see what the table keeps where it is read.
        let _kept = &self.memory;
    }

    /// How many things are held.
    pub fn len(&self) -> usize
        ensures count { result ≡ m.len self.now.entries }
        ensures blocks { result ≡ m.len self.now.blocks }
        ensures bound { result < 2 ^ 63 }
    {
        self.held.len()
    }

    /// An entry by its place in the order of things: the thing, its count and its row.
    pub fn at(&self, i: usize) -> (Thing, u64, Lent<'_>)
        requires { i < m.len self.now.entries }
        ensures entry { (row : Option any_row)
            × (slice_get (m.entries self.now.entries) i ≡ Some (result.0, (result.1, row)))
            × IsLent row (block_at self.now.blocks result.0) result.2 }
        ensures bound { result.1 < count_limit }
    {
        let entry = &self.held[i];
        let row = lend(entry, self.values.as_slice());
        (entry.thing, entry.count.get(), row)
    }

    /// The thing at a place in the order of things.
    pub fn thing_at(&self, i: usize) -> Thing
        requires { i < m.len self.now.entries }
        ensures { slice_get (m.keys self.now.entries) i ≡ Some result }
    {
        self.held[i].thing
    }

    /// The place of a thing in the order of things; `None` exactly where it is not held.
    pub fn place(&self, thing: &Thing) -> Option<usize>
        ensures key { IfSome result (λ i. slice_get (m.keys self.now.entries) i ≡ Some thing.now) }
        ensures held { is_some result ≡ m.contains_key self.now.entries thing.now }
    {
        match place_of(self.held.as_slice(), *thing) {
            Ok(i) => Some(i),
            Err(_) => None,
        }
    }

    /// The places of an owner's things: the first, and the first behind them.
    pub fn span(&self, owner: ActorName) -> (usize, usize)
        ensures { IsSpan owner (m.keys self.now.entries) result.0 result.1 }
    {
        span(self.held.as_slice(), owner)
    }

    /// What is held on a thing: its count and its row; `None` exactly where it is not held.
    pub fn entry(&self, thing: Thing) -> Option<(u64, Lent<'_>)>
        ensures entry { MatchOption result (m.get self.now.entries thing ≡ None)
            (λ e. (row : Option any_row) × (m.get self.now.entries thing ≡ Some (e.0, row))
            × IsLent row (block_at self.now.blocks thing) e.1) }
        ensures bound { IfSome result (λ e. e.0 < count_limit) }
    {
        match place_of(self.held.as_slice(), thing) {
            Ok(i) => {
                let entry = &self.held[i];
                let row = lend(entry, self.values.as_slice());
                Some((entry.count.get(), row))
            }
            Err(_) => None,
        }
    }

    /// The counts that are held on actors, in their order.
    ///
    /// # Errors
    /// `NoMemory` where memory was refused.
    pub fn held_actors(&self, alloc: Global) -> Result<Vec<(ActorName, u64)>, NoMemory>
        ensures { IfOk result (λ found. found.items ≡ on_actors (m.entries self.now.entries)) }
    {
        actors_of(alloc, self.held.as_slice())
    }

    /// The same entries.
    ///
    /// # Errors
    /// `NoMemory` where memory was refused.
    pub fn copy(&self, alloc: Global) -> Result<ForeignTable, NoMemory>
        ensures { IfOk result (λ copied. copied
            ≡ record self.now { spare = copied.spare; spare_values = copied.spare_values }) }
    {
        let held = self.held.as_slice().to_vec(alloc)?;
        let values = self.values.as_slice().to_vec(alloc)?;
        Ok(ForeignTable {
            held,
            values,
            memory: self.memory.again(),
        })
    }

    /// Whether the entries are those of another table. No row lies in a block.
    pub fn same(&self, other: &ForeignTable) -> bool
        requires { AllHere self.now }
        ensures same { IsTrue result ↔ IsSame self.now other.now }
        ensures alike { AllHere other.now → self.now.entries ≡ other.now.entries
            → self.now.blocks ≡ other.now.blocks }
    {
        same_entries(self.held.as_slice(), other.held.as_slice())
            && same_values(self.values.as_slice(), other.values.as_slice())
    }
}
