// Entries and the values of their rows, which lie aside: one behind another, in the order of the
// entries.

ghost use Rattle.std.specs.Prelude.{◌≡◌, ◌+◌, ◌^◌, ◌<◌, ◌≤◌, ◌++◌, IsSome, None, Option, drop, length, map, slice_index_or, slice_set, take, vec_len, vec_capacity};
ghost use Rattle.std.specs.List.{insert, remove, sum_by};
ghost use Rattle.orca_names.specs.declared.names.ObjName.{ObjName as object_name};
ghost use Rattle.letter_kinds.specs.Holdings.{Row as any_row};
ghost use Rattle.foreign_table.specs.declared.search.Entry.{Entry as entry};
ghost use Rattle.foreign_table.specs.Entry.{FollowFrom, as_row, block_in, len_in, len_of, lies_in, lined_up, lying_of, pair_of};
ghost use Rattle.foreign_table.specs.Table.{row_seen};
ghost use Rattle.row_store.specs.Lent.{IsLent};
ghost use Rattle.row_store.specs.Told.{row_here, thing_row, told_block};
ghost use Rattle.ref_weights.specs.Limit.{count_limit};

use crate::search::{Entry, Place};
use orca_names::{Thing, Value};
use ref_weights::Held;
use row_store::{Lent, Told};

/// The values of the row that is told at hand; of none, no values.
#[inline(always)]
pub(crate) fn told_values(told: &Told) -> &[Value]
    ensures row { as_row result.now ≡ row_here told.now }
    ensures room { length result.now ≤ 8 }
    ensures block { IsSome (told_block told.now) → length result.now ≡ 0 }
{
    match told {
        Told::Here(row) => row.as_slice(),
        Told::Nothing => &[],
        Told::In(_) => &[],
    }
}

/// The row of an entry, where one in a block is that of its thing among these.
#[inline(always)]
pub(crate) fn lend<'a>(entry: &Entry, values: &'a [Value]) -> Lent<'a>
    requires within { entry.now.first + len_of entry.now ≤ length values.now }
    requires few { len_of entry.now ≤ 8 }
    ensures { (memory : object_name → Option any_row)
        → let l = lies_in values.now entry.now in
        (IsSome l.block → IsSome (thing_row memory entry.now.thing))
        → IsLent (row_seen memory entry.now.thing l) l.block result }
{
    match entry.place {
        Place::Here(len) => lend_values(entry.first, len, values),
        Place::In(block) => Lent::In(block),
    }
}

// So many of these values, from the first one on; of none, no row.
#[inline(always)]
fn lend_values(first: usize, len: u8, values: &[Value]) -> Lent<'_>
    requires within { first + len ≤ length values.now }
    requires few { len ≤ 8 }
    ensures { IsLent (as_row (take len (drop first values.now))) None result }
{
    if len == 0 {
        return Lent::Nothing;
    }
    let end = first + len as usize;
    Lent::Here(&values[first..end])
}

// Where a row lies: these values aside, or in this block.
#[inline(always)]
fn place_of_row(row: &[Value], block: Option<u32>) -> Place
    requires few { length row.now ≤ 8 }
    requires none { IsSome block → length row.now ≡ 0 }
    ensures len { len_in result ≡ length row.now }
    ensures block { block_in result ≡ block }
{
    match block {
        None => Place::Here(row.len() as u8),
        Some(block) => Place::In(block),
    }
}

// These values behind the others.
#[inline(always)]
fn append_values(values: &mut Vec<Value>, row: &[Value])
    requires room { vec_len values.old + length row.now ≤ vec_capacity values.old }
    ensures items { values.new.items ≡ values.old.items ++ row.now }
    ensures len { vec_len values.new ≡ vec_len values.old + length row.now }
    ensures capacity { vec_capacity values.new ≡ vec_capacity values.old }
{
    for value in row {
        values.push_reserved(*value);
    }
}

// These values between the others, from this place on.
fn put_values(values: &mut Vec<Value>, first: usize, row: &[Value])
    requires room { vec_len values.old + length row.now ≤ vec_capacity values.old }
    requires within { first ≤ vec_len values.old }
    ensures items { values.new.items
        ≡ take first values.old.items ++ (row.now ++ drop first values.old.items) }
    ensures len { vec_len values.new ≡ vec_len values.old + length row.now }
    ensures capacity { vec_capacity values.new ≡ vec_capacity values.old }
{
    let mut place = first;
    for value in row {
        let _done = values.insert(place, *value).is_ok();
        place += 1;
    }
}

// So many values go, from this place on.
fn take_values(values: &mut Vec<Value>, first: usize, count: usize)
    requires { first + count ≤ vec_len values.old }
    ensures items { values.new.items
        ≡ take first values.old.items ++ drop (first + count) values.old.items }
    ensures len { vec_len values.new + count ≡ vec_len values.old }
    ensures capacity { vec_capacity values.new ≡ vec_capacity values.old }
{
    for _ in 0..count {
        values.remove(first);
    }
}

// These values in place of as many, from this place on.
#[inline(always)]
fn write_values(values: &mut Vec<Value>, first: usize, row: &[Value])
    requires { first + length row.now ≤ vec_len values.old }
    ensures items { values.new.items ≡ take first values.old.items
        ++ (row.now ++ drop (first + length row.now) values.old.items) }
    ensures len { vec_len values.new ≡ vec_len values.old }
    ensures capacity { vec_capacity values.new ≡ vec_capacity values.old }
{
    for k in 0..row.len() {
        values[first + k] = row[k];
    }
}

// From an entry on, the rows stand one behind another, the first at this place.
fn line_up(held: &mut Vec<Entry>, from: usize, first: usize)
    requires within { from ≤ vec_len held.old }
    requires fits { first + sum_by len_of (drop from held.old.items) < 2 ^ 64 }
    ensures items { held.new.items
        ≡ take from held.old.items ++ lined_up first (drop from held.old.items) }
    ensures len { vec_len held.new ≡ vec_len held.old }
    ensures capacity { vec_capacity held.new ≡ vec_capacity held.old }
{
    let mut first = first;
    for i in from..held.len() {
        held[i].first = first;
        first += held[i].place.len();
    }
}

// An entry has this row from now on, in place of one of another length.
#[inline(never)]
fn change_row(
    held: &mut Vec<Entry>,
    values: &mut Vec<Value>,
    i: usize,
    row: &[Value],
    block: Option<u32>,
)
    requires follow { FollowFrom 0 held.old.items (length values.old.items) }
    requires within { i < vec_len held.old }
    requires few { length row.now ≤ 8 }
    requires none { IsSome block → length row.now ≡ 0 }
    requires room { vec_len values.old + length row.now ≤ vec_capacity values.old }
    ensures pairs { (d : entry) → let e = slice_index_or held.old.items i d in
        map (pair_of values.new.items) held.new.items
        ≡ slice_set (map (pair_of values.old.items) held.old.items) i
        (e.thing, (e.count, lying_of row.now block)) }
    ensures follow { FollowFrom 0 held.new.items (length values.new.items) }
    ensures len { vec_len held.new ≡ vec_len held.old }
    ensures values_len { (d : entry) → vec_len values.new + len_of (slice_index_or held.old.items i d)
        ≡ vec_len values.old + length row.now }
    ensures capacity { vec_capacity held.new ≡ vec_capacity held.old }
    ensures values_capacity { vec_capacity values.new ≡ vec_capacity values.old }
{
    let first = held[i].first;
    take_values(values, first, held[i].place.len());
    put_values(values, first, row);
    held[i].place = place_of_row(row, block);
    line_up(held, i + 1, first + row.len());
}

// An entry has this row from now on.
#[inline(always)]
fn set_row(
    held: &mut Vec<Entry>,
    values: &mut Vec<Value>,
    i: usize,
    row: &[Value],
    block: Option<u32>,
)
    requires follow { FollowFrom 0 held.old.items (length values.old.items) }
    requires within { i < vec_len held.old }
    requires few { length row.now ≤ 8 }
    requires none { IsSome block → length row.now ≡ 0 }
    requires room { vec_len values.old + length row.now ≤ vec_capacity values.old }
    ensures pairs { (d : entry) → let e = slice_index_or held.old.items i d in
        map (pair_of values.new.items) held.new.items
        ≡ slice_set (map (pair_of values.old.items) held.old.items) i
        (e.thing, (e.count, lying_of row.now block)) }
    ensures follow { FollowFrom 0 held.new.items (length values.new.items) }
    ensures len { vec_len held.new ≡ vec_len held.old }
    ensures values_len { (d : entry) → vec_len values.new + len_of (slice_index_or held.old.items i d)
        ≡ vec_len values.old + length row.now }
    ensures capacity { vec_capacity held.new ≡ vec_capacity held.old }
    ensures values_capacity { vec_capacity values.new ≡ vec_capacity values.old }
{
    let first = held[i].first;
    if held[i].place.len() == row.len() {
        write_values(values, first, row);
        held[i].place = place_of_row(row, block);
        return;
    }
    change_row(held, values, i, row, block);
}

/// The count of an entry rises, and its row is this one.
#[inline(always)]
pub(crate) fn raise(
    held: &mut Vec<Entry>,
    values: &mut Vec<Value>,
    i: usize,
    by: u64,
    row: &[Value],
    block: Option<u32>,
)
    requires follow { FollowFrom 0 held.old.items (length values.old.items) }
    requires within { i < vec_len held.old }
    requires fits { (d : entry) → (slice_index_or held.old.items i d).count + by < count_limit }
    requires few { length row.now ≤ 8 }
    requires none { IsSome block → length row.now ≡ 0 }
    requires room { vec_len values.old + length row.now ≤ vec_capacity values.old }
    ensures pairs { (d : entry) → let e = slice_index_or held.old.items i d in
        map (pair_of values.new.items) held.new.items
        ≡ slice_set (map (pair_of values.old.items) held.old.items) i
        (e.thing, (e.count + by, lying_of row.now block)) }
    ensures follow { FollowFrom 0 held.new.items (length values.new.items) }
    ensures len { vec_len held.new ≡ vec_len held.old }
    ensures values_len { (d : entry) → vec_len values.new + len_of (slice_index_or held.old.items i d)
        ≡ vec_len values.old + length row.now }
    ensures capacity { vec_capacity held.new ≡ vec_capacity held.old }
    ensures values_capacity { vec_capacity values.new ≡ vec_capacity values.old }
{
    held[i].count.gain(by);
    set_row(held, values, i, row, block);
}

// A new entry with this row, between others.
#[inline(never)]
fn put_between(
    held: &mut Vec<Entry>,
    values: &mut Vec<Value>,
    i: usize,
    thing: &Thing,
    by: u64,
    row: &[Value],
    block: Option<u32>,
)
    requires follow { FollowFrom 0 held.old.items (length values.old.items) }
    requires fits { by < count_limit }
    requires place { vec_len held.old < vec_capacity held.old }
    requires within { i < vec_len held.old }
    requires few { length row.now ≤ 8 }
    requires none { IsSome block → length row.now ≡ 0 }
    requires room { vec_len values.old + length row.now ≤ vec_capacity values.old }
    ensures pairs { map (pair_of values.new.items) held.new.items
        ≡ insert (map (pair_of values.old.items) held.old.items) i
        (thing.now, (by, lying_of row.now block)) }
    ensures follow { FollowFrom 0 held.new.items (length values.new.items) }
    ensures len { vec_len held.new ≡ vec_len held.old + 1 }
    ensures values_len { vec_len values.new ≡ vec_len values.old + length row.now }
    ensures capacity { vec_capacity held.new ≡ vec_capacity held.old }
    ensures values_capacity { vec_capacity values.new ≡ vec_capacity values.old }
{
    let first = held[i].first;
    put_values(values, first, row);
    let count = Held::new(by);
    let place = place_of_row(row, block);
    let thing = *thing;
    let entry = Entry {
        thing,
        count,
        first,
        place,
    };
    let _done = held.insert(i, entry).is_ok();
    line_up(held, i + 1, first + row.len());
}

/// A new entry with this row. There is room.
#[inline(always)]
pub(crate) fn put_entry(
    held: &mut Vec<Entry>,
    values: &mut Vec<Value>,
    i: usize,
    thing: &Thing,
    by: u64,
    row: &[Value],
    block: Option<u32>,
)
    requires follow { FollowFrom 0 held.old.items (length values.old.items) }
    requires fits { by < count_limit }
    requires place { vec_len held.old < vec_capacity held.old }
    requires within { i ≤ vec_len held.old }
    requires few { length row.now ≤ 8 }
    requires none { IsSome block → length row.now ≡ 0 }
    requires room { vec_len values.old + length row.now ≤ vec_capacity values.old }
    ensures pairs { map (pair_of values.new.items) held.new.items
        ≡ insert (map (pair_of values.old.items) held.old.items) i
        (thing.now, (by, lying_of row.now block)) }
    ensures follow { FollowFrom 0 held.new.items (length values.new.items) }
    ensures len { vec_len held.new ≡ vec_len held.old + 1 }
    ensures values_len { vec_len values.new ≡ vec_len values.old + length row.now }
    ensures capacity { vec_capacity held.new ≡ vec_capacity held.old }
    ensures values_capacity { vec_capacity values.new ≡ vec_capacity values.old }
{
    if i < held.len() {
        put_between(held, values, i, thing, by, row, block);
        return;
    }
    let first = values.len();
    append_values(values, row);
    let count = Held::new(by);
    let place = place_of_row(row, block);
    let thing = *thing;
    held.push_reserved(Entry {
        thing,
        count,
        first,
        place,
    });
}

/// Takes an entry and its row out, and tells its count.
#[inline(never)]
pub(crate) fn take_entry(held: &mut Vec<Entry>, values: &mut Vec<Value>, i: usize) -> u64
    requires follow { FollowFrom 0 held.old.items (length values.old.items) }
    requires within { i < vec_len held.old }
    ensures count { (d : entry) → result ≡ (slice_index_or held.old.items i d).count }
    ensures pairs { map (pair_of values.new.items) held.new.items
        ≡ remove (map (pair_of values.old.items) held.old.items) i }
    ensures follow { FollowFrom 0 held.new.items (length values.new.items) }
    ensures len { vec_len held.new + 1 ≡ vec_len held.old }
    ensures values_len { (d : entry) → vec_len values.new + len_of (slice_index_or held.old.items i d)
        ≡ vec_len values.old }
    ensures capacity { vec_capacity held.new ≡ vec_capacity held.old }
    ensures values_capacity { vec_capacity values.new ≡ vec_capacity values.old }
{
    let entry = held[i];
    take_values(values, entry.first, entry.place.len());
    held.remove(i);
    line_up(held, i, entry.first);
    entry.count.give_back()
}
