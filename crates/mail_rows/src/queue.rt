// Letters in memory of their own.

ghost use Rattle.std.specs.Prelude.{◌≡◌, ◌≤◌, ◌<◌, ◌+◌, ◌^◌, ◌++◌, ◌∷◌, [], drop, length, option_map, slice_get, IfOk, IsOk, OnOk, Some};
ghost use Rattle.letter_kinds.specs.Letters.{as_letter};
ghost use Rattle.letter_kinds.specs.Telling.{brought_in};

use letter_kinds::Letter;
use orca_names::NoMemory;
use std::alloc::Global;
use std::collections::VecDeque;
use std::marker::Model;

/// Letters, first in first out, and the room for further ones.
#[derive(Debug, Drop)]
pub(crate) struct LetterQueue {
    letters: VecDeque<Letter>,
}

impl Model for LetterQueue {
    ghost use Rattle.std.specs.Prelude.{◌-◌, map};
    ghost use Rattle.std.specs.VecDeque.{deque_len, deque_capacity};
    ghost use Rattle.letter_kinds.specs.Letters.{as_letter};
    ghost use Rattle.letter_kinds.specs.Telling.{brought_in};
    ghost use Rattle.mail_rows.specs.Mail.{Mail};

    ghost Value = { Mail };

    ghost view = { λ queue. record {
      letters = map as_letter queue.letters.items;
      brought = map brought_in queue.letters.items;
      spare = deque_capacity queue.letters - deque_len queue.letters;
    } };
}

impl LetterQueue {
    /// No letter, and room for just so many.
    ///
    /// # Errors
    /// `NoMemory` where memory was refused.
    pub(crate) fn with_room(alloc: Global, n: usize) -> Result<LetterQueue, NoMemory>
        ensures { IfOk result (λ queue. queue ≡ record { letters = []; brought = []; spare = n }) }
    {
        let letters = VecDeque::with_capacity(alloc, n)?;
        Ok(LetterQueue { letters })
    }

    /// Takes memory for at least `n` further letters, if there is less.
    ///
    /// # Errors
    /// `NoMemory` where memory was refused; the letters are then as before.
    pub(crate) fn reserve(&mut self, n: usize) -> Result<(), NoMemory>
        ensures letters { self.new.letters ≡ self.old.letters }
        ensures brought { self.new.brought ≡ self.old.brought }
        ensures kept { self.old.spare ≤ self.new.spare }
        ensures ok { OnOk result (n ≤ self.new.spare) }
        ensures enough { n ≤ self.old.spare → IsOk result }
    {
        self.letters.reserve(n)?;
        Ok(())
    }

    /// One letter more, behind the others. It takes no memory.
    pub(crate) fn push(&mut self, letter: Letter)
        requires { 1 ≤ self.old.spare }
        ensures letters { self.new.letters ≡ self.old.letters ++ as_letter letter ∷ [] }
        ensures brought { self.new.brought ≡ self.old.brought ++ brought_in letter ∷ [] }
        ensures spare { self.new.spare + 1 ≡ self.old.spare }
    {
        self.letters.push_back_reserved(letter);
    }

    /// Takes the first letter out; `None` exactly where there is none. Its room is free again.
    pub(crate) fn take(&mut self) -> Option<Letter>
        ensures first { option_map as_letter result ≡ slice_get self.old.letters 0 }
        ensures brought { option_map brought_in result ≡ slice_get self.old.brought 0 }
        ensures others { (self.new.letters ≡ drop 1 self.old.letters)
            × (self.new.brought ≡ drop 1 self.old.brought) }
        ensures spare { self.new.spare + length self.new.letters
            ≡ self.old.spare + length self.old.letters }
    {
        self.letters.pop_front()
    }

    /// The number of letters.
    pub(crate) fn len(&self) -> u64
        ensures count { result ≡ length self.now.letters }
        ensures few { result < 2 ^ 63 }
    {
        self.letters.len() as u64
    }

    /// The letter at a place, counted from 0.
    pub(crate) fn at(&self, i: u64) -> &Letter
        requires { i < length self.now.letters }
        ensures letter { slice_get self.now.letters i ≡ Some (as_letter result.now) }
        ensures brought { slice_get self.now.brought i ≡ Some (brought_in result.now) }
    {
        &self.letters[i as usize]
    }
}
