// One level of words: the places alone.

ghost use Rattle.std.specs.Prelude.{◌≡◌, ℕ, ◌+◌, ◌%◌, ◌<◌, ◌≤◌, ◌∷◌, [], true, false, not, Some, length, slice_get, slice_index_or, slice_set, IfOk};
ghost use Rattle.ready_set.specs.Levels.{places};
ghost use Rattle.ready_set.specs.Next.{AreOff, AreOn, IsNext};

use crate::bits::{has_bit, lowest_bit, put_bit};
use orca_names::NoMemory;
use std::alloc::Global;
use std::marker::Model;

// More places than memory has bytes for.
const TOO_MANY: usize = 1 << 63;

/// A set of numbers below a bound, seen by contracts as a list with a place for each of these
/// numbers: the place is on where its number is in the set.
#[derive(Drop)]
pub struct PlaceSet {
    // The first places, so that a set of few takes no memory.
    first: u64,
    rest: Vec<u64>,
}

impl Model for PlaceSet {
    ghost use Rattle.std.specs.Prelude.{Bool, List, length, ◌∷◌, ◌*◌, ◌<◌, ◌^◌};
    ghost use Rattle.ready_set.specs.Levels.{places};

    ghost Value = { List Bool };

    ghost view = { λ s. places (s.first ∷ s.rest.items) };

    ghost invariant = { λ s. 64 * length s.rest.items < 2 ^ 63 };
}

// One of the words.
fn word_at(first: u64, rest: &[u64], i: usize) -> u64
    requires { i < length (first ∷ rest.now) }
    ensures { (d : ℕ) → slice_index_or (first ∷ rest.now) i d ≡ result }
{
    if i == 0 { first } else { rest[i - 1] }
}

/// The first bit of a word that is set, from a bit on.
pub(crate) fn next_bit(word: u64, from: u32) -> Option<u32>
    requires { from < 64 }
    ensures { IsNext (places (word ∷ [])) from result }
{
    let rest = word >> from;
    if rest == 0 {
        None
    } else {
        Some(from + lowest_bit(rest))
    }
}

// How many bits of a word are set from this one on, up to the first that is not.
fn on_in_word(word: u64, from: u32) -> u32
    requires { from < 64 }
    ensures within { from + result ≤ 64 }
    ensures on { AreOn (places (word ∷ [])) from (from + result) }
    ensures off { from + result < 64
        → slice_index_or (places (word ∷ [])) (from + result) false ≡ false }
{
    match next_bit(!word, from) {
        Some(k) => k - from,
        None => 64 - from,
    }
}

// One of the words is written.
fn write_word(first: &mut u64, rest: &mut Vec<u64>, i: usize, word: u64)
    requires { i < length (first.old ∷ rest.old.items) }
    ensures words { first.new ∷ rest.new.items ≡ slice_set (first.old ∷ rest.old.items) i word }
    ensures len { length rest.new.items ≡ length rest.old.items }
{
    if i == 0 {
        *first = word;
    } else {
        rest[i - 1] = word;
    }
}

impl PlaceSet {
    /// The empty set, with at least so many places. It takes no memory where these are at most 64.
    ///
    /// # Errors
    /// `NoMemory` where memory was refused.
    pub fn with_places(alloc: Global, count: usize) -> Result<PlaceSet, NoMemory>
        ensures off { IfOk result (λ set. AreOff set 0 (length set)) }
        ensures room { IfOk result (λ set. count ≤ length set) }
    {
        if count >= TOO_MANY {
            return Err(NoMemory);
        }
        let rest = vec![in alloc; 0; count.div_ceil(64).saturating_sub(1)]?;
        Ok(PlaceSet { first: 0, rest })
    }

    /// The number of places: the bound of the numbers in the set.
    pub fn len(&self) -> usize
        ensures { result ≡ length self.now }
    {
        64 * (self.rest.len() + 1)
    }

    /// Whether the number is in the set.
    pub fn contains(&self, at: usize) -> bool
        requires { at < length self.now }
        ensures { slice_get self.now at ≡ Some result }
    {
        let word = word_at(self.first, self.rest.as_slice(), at / 64);
        has_bit(word, (at % 64) as u32)
    }

    /// Puts the number into the set; whether it was not there. It takes no memory.
    pub fn insert(&mut self, at: usize) -> bool
        requires { at < length self.old }
        ensures set { self.new ≡ slice_set self.old at true }
        ensures was { slice_get self.old at ≡ Some (not result) }
    {
        let word = word_at(self.first, self.rest.as_slice(), at / 64);
        let bit = (at % 64) as u32;
        if has_bit(word, bit) {
            return false;
        }
        let word = put_bit(word, bit, true);
        write_word(&mut self.first, &mut self.rest, at / 64, word);
        true
    }

    /// The least number of the set from this one on; `None` exactly where there is none.
    pub fn next(&self, from: usize) -> Option<usize>
        ensures { IsNext self.now from result }
    {
        let mut at = from;
        while at < self.len() {
            let word = at / 64;
            let bits = word_at(self.first, self.rest.as_slice(), word);
            if let Some(k) = next_bit(bits, (at % 64) as u32) {
                return Some(64 * word + k as usize);
            }
            at = 64 * (word + 1);
        }
        None
    }

    /// How many numbers from this one on are in the set, up to the first that is not. More may be
    /// in it where these go on to a multiple of 64; the answer is 0 exactly where this one is not.
    pub fn on_from(&self, at: usize) -> usize
        ensures on { AreOn self.now at (at + result) }
        ensures some { slice_index_or self.now at false ≡ true → 0 < result }
        ensures off { 0 < (at + result) % 64
            → slice_index_or self.now (at + result) false ≡ false }
    {
        if at >= self.len() {
            return 0;
        }
        let word = word_at(self.first, self.rest.as_slice(), at / 64);
        on_in_word(word, (at % 64) as u32) as usize
    }
}
