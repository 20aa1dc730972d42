// The words of a log that ended.

ghost use Rattle.std.specs.Prelude.{◌≡◌, ◌<◌, ◌≤◌, Some, length, slice_get, slice_set};
ghost use Rattle.std.specs.Slots.{IsFull, slots_filled, slots_items, slots_len};
ghost use Rattle.turn_log.specs.Last.{AreEmptied};
ghost use Rattle.turn_log.specs.Queue.{user_words};

use crate::table::FIRST;
use atomic_table::Closed;
use std::alloc::{Allocator, Global};
use std::marker::Model;

/// The words of a log that ended, where they lie, seen by contracts as their list.
pub struct LastWords<T, A: Allocator = Global> {
    closed: Closed<Option<T>, A>,
}

impl<T, A: Allocator> Model for LastWords<T, A> {
    ghost use Rattle.std.specs.Prelude.{ℕ, ◌≤◌, List};
    ghost use Rattle.std.specs.Slots.{IsFull, slots_filled, slots_items, slots_len};
    ghost use Rattle.turn_log.specs.Last.{AreEmptied};
    ghost use Rattle.turn_log.specs.Queue.{user_words};

    ghost Value = { List ℕ };

    ghost view = { λ s. user_words (slots_items s.closed.words) };

    ghost invariant = { λ s. IsFull s.closed.words × (3 ≤ slots_len s.closed.words)
        × AreEmptied (slots_len s.closed.slots) (slots_filled s.closed.slots) };
}

impl<T, A: Allocator> LastWords<T, A> {
    pub(crate) fn of(closed: Closed<Option<T>, A>) -> LastWords<T, A>
        requires full { IsFull closed.words }
        requires wide { 3 ≤ slots_len closed.words }
        requires emptied { AreEmptied (slots_len closed.slots) (slots_filled closed.slots) }
        ensures { result ≡ user_words (slots_items closed.words) }
    {
        LastWords { closed }
    }

    /// The word at a place.
    pub fn get(&self, at: usize) -> u64
        requires { at < length self.now }
        ensures { slice_get self.now at ≡ Some result }
    {
        self.closed.word(FIRST + at)
    }

    /// The word at a place is this one from now on.
    pub fn set(&mut self, at: usize, w: u64)
        requires { at < length self.old }
        ensures { self.new ≡ slice_set self.old at w }
    {
        self.closed.words.put(FIRST + at, w);
    }
}

impl<T, A: Allocator> Drop for LastWords<T, A> {
    fn drop(self) {
        let Self { closed } = self;
        closed.free();
    }
}
