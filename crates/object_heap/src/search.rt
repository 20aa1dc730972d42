// Where an object stands among those in rising serial.

ghost use Rattle.std.specs.Prelude.{◌≡◌, ◌↔◌, ◌<◌, length, map, slice_index_or, IfSome, IsTrue, T};
ghost use Rattle.std.specs.Result.{MatchResult};
ghost use Rattle.std.specs.Ordering.{nat_cmp};
ghost use Rattle.std.specs.FinMap.Entries.{is_sorted};
ghost use Rattle.plain_list.specs.Rising.{IsAt, IsGap};
ghost use Rattle.object_heap.specs.declared.search.Key.{Key as key};
ghost use Rattle.object_heap.specs.Entry.{FollowOn, HasKey, first_of, key_pair, serial_in};

use orca_names::Serial;
use ref_weights::OwnCount;

/// The serial of an own object, and its count.
#[derive(Clone, Copy, Debug, PartialEq, Eq)]
pub(crate) struct Key {
    pub(crate) serial: u64,
    pub(crate) count: OwnCount,
}

// Where it stands if no serial between is gone.
#[inline(always)]
fn guess(keys: &[Key], serial: u64) -> Option<usize>
    ensures { IfSome result (λ i. (i < length keys.now)
        × ((d : key) → (slice_index_or keys.now i d).serial ≡ serial)) }
{
    let first = keys.first()?.serial;
    if serial < first {
        return None;
    }
    let distance = serial - first;
    if distance < keys.len() as u64 {
        let i = distance as usize;
        if keys[i].serial == serial {
            return Some(i);
        }
    }
    None
}

#[inline(never)]
fn search(keys: &[Key], serial: u64) -> Result<usize, usize>
    requires { T (is_sorted nat_cmp (map key_pair keys.now)) }
    ensures { MatchResult result (IsAt nat_cmp (map key_pair keys.now) serial)
        (IsGap nat_cmp (map key_pair keys.now) serial) }
{
    keys.binary_search_by_key(&serial, |k| k.serial)
}

// The place of the serial of this number, or the place where it would stand.
#[inline(always)]
fn place_of_number(keys: &[Key], serial: u64) -> Result<usize, usize>
    requires { T (is_sorted nat_cmp (map key_pair keys.now)) }
    ensures { MatchResult result (IsAt nat_cmp (map key_pair keys.now) serial)
        (IsGap nat_cmp (map key_pair keys.now) serial) }
{
    match guess(keys, serial) {
        Some(i) => Ok(i),
        None => search(keys, serial),
    }
}

/// The place of the serial, or the place where it would stand.
#[inline(always)]
pub(crate) fn place_of(keys: &[Key], serial: Serial) -> Result<usize, usize>
    requires { T (is_sorted nat_cmp (map key_pair keys.now)) }
    ensures { MatchResult result (IsAt nat_cmp (map key_pair keys.now) serial)
        (IsGap nat_cmp (map key_pair keys.now) serial) }
{
    place_of_number(keys, serial.get())
}

// Where it stands if none of the objects made since is gone.
#[inline(always)]
fn guess_late(next: u64, keys: &[Key], serial: u64) -> Option<usize>
    ensures { IfSome result (λ i. (i < length keys.now)
        × ((d : key) → (slice_index_or keys.now i d).serial ≡ serial)) }
{
    let since = next.wrapping_sub(serial) as usize;
    let i = keys.len().wrapping_sub(since);
    if i < keys.len() {
        if keys[i].serial == serial {
            return Some(i);
        }
    }
    None
}

#[inline(never)]
fn search_there(keys: &[Key], serial: u64) -> usize
    requires { HasKey keys.now serial }
    ensures { IsAt nat_cmp (map key_pair keys.now) serial result }
{
    match place_of_number(keys, serial) {
        Ok(i) => i,
        Err(_) => unreachable!(),
    }
}

// The place of the serial of this number, which is there.
#[inline(always)]
fn number_there(next: u64, keys: &[Key], serial: u64) -> usize
    requires { HasKey keys.now serial }
    ensures { IsAt nat_cmp (map key_pair keys.now) serial result }
{
    match guess_late(next, keys, serial) {
        Some(i) => i,
        None => search_there(keys, serial),
    }
}

/// The place of a serial that is there. The next serial of all is but a guess.
#[inline(always)]
pub(crate) fn place_there(next: u64, keys: &[Key], serial: Serial) -> usize
    requires { HasKey keys.now serial }
    ensures { IsAt nat_cmp (map key_pair keys.now) serial result }
{
    number_there(next, keys, serial.get())
}

/// The first serial; 0 where there is none.
pub(crate) fn first_serial(keys: &[Key]) -> u64
    ensures { result ≡ first_of (map serial_in keys.now) }
{
    match keys.first() {
        Some(key) => key.serial,
        None => 0,
    }
}

/// Whether no serial between is gone.
pub(crate) fn follow_on(keys: &[Key]) -> bool
    requires { T (is_sorted nat_cmp (map key_pair keys.now)) }
    ensures { IsTrue result ↔ FollowOn (map serial_in keys.now) }
{
    let count = keys.len();
    if count == 0 {
        return true;
    }
    keys[count - 1].serial - keys[0].serial == (count - 1) as u64
}
