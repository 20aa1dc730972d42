// Three levels of words: the places; their summary, which tells the words of places that are not 0;
// and one word on top, which tells the words of the summary that are not 0.

ghost use Rattle.std.specs.Prelude.{◌≡◌, ℕ, ◌+◌, ◌*◌, ◌<◌, ◌≤◌, vec_len, ◌++◌, [], false, List, Some, length, position, replicate, slice_get, slice_set, OnOk, OnErr};
ghost use Rattle.ready_set.specs.Levels.{AreLevels};
ghost use Rattle.ready_set.specs.Next.{IsNext};

use crate::bits::{has_bit, lowest_bit, put_bit};
use crate::levels::{first_in_word, next_in_word, next_word};
use orca_names::NoMemory;
use std::alloc::Global;
use std::marker::Model;

/// The most places that a set may have.
pub const PLACES_LIMIT: usize = 262_144;

/// A set of numbers below a bound that can grow, seen by contracts as a list with a place for each
/// of these numbers: the place is on where its number is in the set.
#[derive(Debug, Drop)]
pub struct ReadySet {
    words: Vec<u64>,
    summary: Vec<u64>,
    top: u64,
}

impl Model for ReadySet {
    ghost use Rattle.std.specs.Prelude.{Bool, List};
    ghost use Rattle.ready_set.specs.Levels.{places, AreLevels};

    ghost Value = { List Bool };

    ghost view = { λ s. places s.words.items };

    ghost invariant = { λ s. AreLevels s.words.items s.summary.items s.top };
}

/// Makes sure that the summary has a bit for one word more.
#[tactic(auto, using(crate::proofs::Summaries::levels_wider))]
fn reserve_bit(summary: &mut Vec<u64>, words: usize) -> Result<(), NoMemory>
    requires few { words < 4096 }
    requires room { words ≤ vec_len summary.old * 64 }
    requires level { vec_len summary.old ≤ 64 }
    ensures levels { (words : List ℕ) (top : ℕ) → AreLevels words summary.old.items top
        → AreLevels words summary.new.items top }
    ensures ok { OnOk result (words + 1 ≤ length summary.new.items * 64) }
{
    if words == 64 * summary.len() {
        summary.push(0)?;
    }
    Ok(())
}

impl ReadySet {
    /// The set with no places. It takes no memory.
    pub fn new(alloc: Global) -> ReadySet
        ensures { result ≡ [] }
    {
        ReadySet {
            words: Vec::new(alloc),
            summary: Vec::new(alloc),
            top: 0,
        }
    }

    /// The number of places: the bound of the numbers in the set.
    pub fn len(&self) -> usize
        ensures { result ≡ length self.now }
    {
        64 * self.words.len()
    }

    /// 64 places more, all of them off.
    ///
    /// # Errors
    /// `NoMemory` where memory was refused; the set stays as it was.
    pub fn grow(&mut self) -> Result<(), NoMemory>
        requires { length self.old < PLACES_LIMIT }
        ensures ok { OnOk result (self.new ≡ self.old ++ replicate 64 false) }
        ensures err { OnErr result (self.new ≡ self.old) }
    {
        let words = self.words.len();
        reserve_bit(&mut self.summary, words)?;
        self.words.push(0)?;
        Ok(())
    }

    /// Whether the number is in the set.
    pub fn contains(&self, a: u32) -> bool
        requires { a < length self.now }
        ensures { slice_get self.now a ≡ Some result }
    {
        has_bit(self.words[(a / 64) as usize], a % 64)
    }

    /// Puts the number into the set where it is `on`, else takes it out. It takes no memory.
    pub fn put(&mut self, a: u32, on: bool)
        requires { a < length self.old }
        ensures { self.new ≡ slice_set self.old a on }
    {
        if self.contains(a) != on {
            self.change(a, on);
        }
    }

    /// Puts the number into the set, or takes it out, on all levels.
    fn change(&mut self, a: u32, on: bool)
        requires { a < length self.old }
        ensures { self.new ≡ slice_set self.old a on }
    {
        let b = a / 64;
        let c = b / 64;
        let word = put_bit(self.words[b as usize], a % 64, on);
        let summary = put_bit(self.summary[c as usize], b % 64, word != 0);
        self.words[b as usize] = word;
        self.summary[c as usize] = summary;
        self.top = put_bit(self.top, c % 64, summary != 0);
    }

    /// The least number in the set; `None` exactly where there is none.
    pub fn first(&self) -> Option<u32>
        ensures { result ≡ position (λ on. on) self.now }
    {
        if self.top == 0 {
            return None;
        }
        let c = lowest_bit(self.top);
        let b = 64 * c + lowest_bit(self.summary[c as usize]);
        Some(64 * b + lowest_bit(self.words[b as usize]))
    }
    /// The least number of the set from this one on; `None` exactly where there is none. At most five
    /// words are looked at.
    pub fn next(&self, from: u32) -> Option<u32>
        ensures { IsNext self.now from result }
    {
        if from as usize >= self.len() {
            return None;
        }
        if let Some(at) = next_in_word(&self.words, from) {
            return Some(at);
        }
        match next_word(&self.summary, self.top, from / 64 + 1) {
            Some(word) => Some(first_in_word(&self.words, word)),
            None => None,
        }
    }
}
