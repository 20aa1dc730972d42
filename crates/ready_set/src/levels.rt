// From a place on, the first that is on: in the word of the place, or in the next word that the level
// above tells to be not 0.

ghost use Rattle.std.specs.Prelude.{◌≡◌, ◌+◌, ◌*◌, ◌/◌, ◌<◌, ◌≤◌, ◌∷◌, [], Some, IfNone, IfSome, length, slice_index};
ghost use Rattle.ready_set.specs.Levels.{places, Summarizes};
ghost use Rattle.ready_set.specs.Next.{AreOff, IsNext};

use crate::bits::lowest_bit;
use crate::flat::next_bit;

/// The first place that is on in the word of this place, from the place on.
pub(crate) fn next_in_word(words: &[u64], from: u32) -> Option<u32>
    requires { from < 64 * length words.now }
    ensures some { IfSome result (λ at. IsNext (places words.now) from (Some at)) }
    ensures none { IfNone result (AreOff (places words.now) from (64 * (from / 64 + 1))) }
{
    let word = from / 64;
    match next_bit(words[word as usize], from % 64) {
        Some(k) => Some(64 * word + k),
        None => None,
    }
}

/// The first place that is on in this word, which is not 0.
pub(crate) fn first_in_word(words: &[u64], word: u32) -> u32
    requires small { word < 4096 }
    requires within { word < length words.now }
    requires some { 0 < slice_index words.now word }
    ensures { IsNext (places words.now) (64 * word) (Some result) }
{
    64 * word + lowest_bit(words[word as usize])
}

/// The first bit of the summary that is set, from this one on.
pub(crate) fn next_word(summary: &[u64], top: u64, from: u32) -> Option<u32>
    requires told { Summarizes (top ∷ []) summary.now }
    requires few { length summary.now ≤ 64 }
    ensures { IsNext (places summary.now) from result }
{
    if from / 64 >= summary.len() as u32 {
        return None;
    }
    if let Some(at) = next_in_word(summary, from) {
        return Some(at);
    }
    if from / 64 == 63 {
        return None;
    }
    match next_bit(top, from / 64 + 1) {
        Some(word) => Some(first_in_word(summary, word)),
        None => None,
    }
}
