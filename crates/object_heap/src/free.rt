// Many objects freed in one pass.

ghost use Rattle.std.specs.Prelude.{◌≡◌, ◌==◌, true, false, ◌+◌, ◌-◌, ◌<◌, ◌≤◌, ℕ, List, length, slice_index_or, vec_len, vec_capacity, IsTrue};
ghost use Rattle.std.specs.List.{filter, list_any};
ghost use Rattle.orca_names.specs.declared.names.ObjName.{ObjName as object_name};
ghost use Rattle.object_heap.specs.Entry.{AreKept, Own};
ghost use Rattle.object_heap.specs.Free.{FiltersKept, SerialsRise, is_kept, stays};

use crate::search::Key;
use orca_names::{ObjName, Thing};
use row_store::Told;

// Whether the one at this place has the serial.
fn is_at(gone: &[ObjName], place: usize, serial: u64) -> bool
    ensures { IsTrue result → false ≡ stays gone.now serial }
{
    if place >= gone.len() {
        return false;
    }
    let name = &gone[place];
    name.serial.get() == serial
}

// Whether the one before this place has a lower serial.
fn is_past(gone: &[ObjName], place: usize, serial: u64) -> bool
    requires { place ≤ length gone.now }
    ensures { IsTrue result → 0 < place
        → (d : object_name) → (slice_index_or gone.now (place - 1) d).serial < serial }
{
    if place == 0 {
        return true;
    }
    gone[place - 1].serial.get() < serial
}

// Whether the one at this place has a higher serial.
fn is_ahead(gone: &[ObjName], place: usize, serial: u64) -> bool
    ensures { IsTrue result → place < length gone.now
        → (d : object_name) → serial < (slice_index_or gone.now place d).serial }
{
    if place >= gone.len() {
        return true;
    }
    serial < gone[place].serial.get()
}

// Whether the serial stands between two neighbours, so that it is none of them.
fn is_between(gone: &[ObjName], place: usize, serial: u64) -> bool
    requires { SerialsRise gone.now }
    ensures { IsTrue result → true ≡ stays gone.now serial }
{
    if place > gone.len() {
        return false;
    }
    if !is_past(gone, place, serial) {
        return false;
    }
    is_ahead(gone, place, serial)
}

fn is_any_of(gone: &[ObjName], serial: u64) -> bool
    ensures { result ≡ list_any (λ n. n.serial == serial) gone.now }
{
    gone.iter().any(|n| n.serial.get() == serial)
}

// Whether the serial is not among those that go. The place is a guess: how many of these are below
// it. Where it is off, all are looked at.
fn is_kept(gone: &[ObjName], near: usize, serial: u64) -> bool
    requires { SerialsRise gone.now }
    ensures { result ≡ stays gone.now serial }
{
    if is_at(gone, near, serial) {
        return false;
    }
    if is_between(gone, near, serial) {
        return true;
    }
    !is_any_of(gone, serial)
}

// The object at place i goes to place kept, if it stays. Before it went i - kept others.
fn keep_one(
    keys: &mut Vec<Key>,
    objects: &mut Vec<(Thing, Told)>,
    gone: &[ObjName],
    kept: usize,
    i: usize,
) -> usize
    requires rising { SerialsRise gone.now }
    requires within { (i < vec_len keys.old) × (i < vec_len objects.old) }
    requires behind { kept ≤ i }
    ensures filters { (owner : ℕ) (all : List Own)
        → FiltersKept owner gone.now all keys.old.items objects.old.items kept i
        → FiltersKept owner gone.now all keys.new.items objects.new.items result (i + 1) }
    ensures behind { result ≤ i + 1 }
    ensures len { (vec_len keys.new ≡ vec_len keys.old) × (vec_len objects.new ≡ vec_len objects.old) }
    ensures capacity { (vec_capacity keys.new ≡ vec_capacity keys.old)
        × (vec_capacity objects.new ≡ vec_capacity objects.old) }
{
    if !is_kept(gone, i - kept, keys[i].serial) {
        return kept;
    }
    if kept == i {
        return kept + 1;
    }
    let key = keys[i];
    keys[kept] = key;
    let object = objects[i];
    objects[kept] = object;
    kept + 1
}

/// Only the objects whose serials stay.
pub(crate) fn keep_others(keys: &mut Vec<Key>, objects: &mut Vec<(Thing, Told)>, gone: &[ObjName])
    requires rising { SerialsRise gone.now }
    requires alike { vec_len keys.old ≡ vec_len objects.old }
    ensures kept { (owner : ℕ) (own : List Own) → AreKept owner keys.old.items objects.old.items own
        → AreKept owner keys.new.items objects.new.items (filter (is_kept gone.now) own) }
    ensures shorter { (vec_len keys.new ≤ vec_len keys.old)
        × (vec_len keys.new ≡ vec_len objects.new) }
    ensures capacity { (vec_capacity keys.new ≡ vec_capacity keys.old)
        × (vec_capacity objects.new ≡ vec_capacity objects.old) }
{
    let mut kept = 0;
    let count = keys.len();
    for i in 0..count {
        kept = keep_one(keys, objects, gone, kept, i);
    }
    keys.truncate(kept);
    objects.truncate(kept);
}
