// The entries that stay, and the values of their rows, kept in one pass.

ghost use Rattle.std.specs.Prelude.{◌≡◌, ◌+◌, ◌<◌, ◌≤◌, filter, length, map, slice_index_or, slice_set, vec_len, vec_capacity};
ghost use Rattle.std.specs.List.{copy_within};
ghost use Rattle.foreign_table.specs.Back.{BackRises, is_kept};
ghost use Rattle.foreign_table.specs.Entry.{FollowFrom, pair_of};
ghost use Rattle.foreign_table.specs.declared.search.Entry.{Entry as entry};

use crate::back::{Near, goes};
use crate::search::Entry;
use letter_kinds::Amounts;
use orca_names::{ActorName, Value};

// So many values go to stand from a place on that is not behind their own.
fn move_row(values: &mut Vec<Value>, first: usize, count: usize, to: usize)
    requires before { to ≤ first }
    requires within { first + count ≤ vec_len values.old }
    ensures items { values.new.items ≡ copy_within values.old.items first (first + count) to }
    ensures capacity { vec_capacity values.new ≡ vec_capacity values.old }
{
    if to == first {
        return;
    }
    values.copy_within(first..first + count, to);
}

// An entry goes to stand at a place that is not behind its own, and its row begins here.
fn move_entry(held: &mut Vec<Entry>, i: usize, to: usize, first: usize)
    requires before { to ≤ i }
    requires within { i < vec_len held.old }
    ensures items { (d : entry) → held.new.items ≡ slice_set held.old.items to
        (record (slice_index_or held.old.items i d) { first = first }) }
    ensures capacity { vec_capacity held.new ≡ vec_capacity held.old }
{
    if to == i {
        held[to].first = first;
        return;
    }
    let entry = held[i];
    held[to] = Entry { first, ..entry };
}

/// Only the entries that do not go back, and of the values those of their rows.
pub(crate) fn keep_others(
    held: &mut Vec<Entry>,
    values: &mut Vec<Value>,
    back: &[(ActorName, Amounts)],
)
    requires rising { BackRises back.now }
    requires follow { FollowFrom 0 held.old.items (length values.old.items) }
    ensures pairs { map (pair_of values.new.items) held.new.items
        ≡ filter (is_kept back.now) (map (pair_of values.old.items) held.old.items) }
    ensures follow { FollowFrom 0 held.new.items (length values.new.items) }
    ensures capacity { vec_capacity held.new ≡ vec_capacity held.old }
    ensures values_capacity { vec_capacity values.new ≡ vec_capacity values.old }
{
    let mut near = Near::start();
    let mut kept = 0;
    let mut kept_values = 0;
    let count = held.len();
    for i in 0..count {
        let entry = &held[i];
        near.turn_to(back, entry.thing.owner());
        if goes(back, &near, entry.thing) {
            near.step();
            continue;
        }
        let len = entry.place.len();
        move_row(values, entry.first, len, kept_values);
        move_entry(held, i, kept, kept_values);
        kept += 1;
        kept_values += len;
    }
    held.truncate(kept);
    values.truncate(kept_values);
}
