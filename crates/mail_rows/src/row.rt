// The letters of one actor.

ghost use Rattle.std.specs.Prelude.{◌≡◌, ◌↔◌, ◌≤◌, ◌<◌, ◌+◌, ◌++◌, ◌∷◌, [], drop, length, option_map, slice_get, IsOk, IsTrue, OnOk, Some};
ghost use Rattle.std.specs.Option.{option_copied};
ghost use Rattle.letter_kinds.specs.Letters.{as_letter};
ghost use Rattle.letter_kinds.specs.Telling.{brought_in};
ghost use Rattle.mail_rows.specs.Mail.{behind};

use crate::queue::LetterQueue;
use letter_kinds::Letter;
use orca_names::NoMemory;
use std::alloc::Global;
use std::marker::Model;
use std::mem;

/// The letters that wait for an actor, first in first out, and the room for further ones. Letters
/// move: none is ever copied. The first one stands in the row itself, since mostly one letter waits;
/// those behind it stand in memory of their own, which is taken when it is first needed.
#[derive(Debug, Drop)]
pub struct MailRow {
    first: Option<Letter>,
    rest: Option<Box<LetterQueue>>,
    alloc: Global,
}

impl Model for MailRow {
    ghost use Rattle.mail_rows.specs.Mail.{Mail, behind, with_first, HasFirst};

    ghost Value = { Mail };

    ghost view = { λ row. with_first row.first (behind row.rest) };

    ghost invariant = { λ row. HasFirst row.first (behind row.rest) };
}

// Takes memory for at least `n` further letters behind the first, if there is less; the first time
// for just so many.
#[inline(never)]
fn reserve_behind(
    rest: &mut Option<Box<LetterQueue>>,
    alloc: Global,
    n: usize,
) -> Result<(), NoMemory>
    ensures letters { ((behind rest.new).letters ≡ (behind rest.old).letters)
        × ((behind rest.new).brought ≡ (behind rest.old).brought) }
    ensures kept { (behind rest.old).spare ≤ (behind rest.new).spare }
    ensures ok { OnOk result (n ≤ (behind rest.new).spare) }
    ensures enough { 1 ≤ n → n ≤ (behind rest.old).spare → IsOk result }
{
    match rest {
        Some(queue) => queue.reserve(n),
        None => {
            let queue = LetterQueue::with_room(alloc, n)?;
            *rest = Some(Box::new(alloc, queue)?);
            Ok(())
        }
    }
}

// One letter more, behind the others.
#[inline(never)]
fn push_behind(rest: &mut Option<Box<LetterQueue>>, letter: Letter)
    requires { 1 ≤ (behind rest.old).spare }
    ensures letters { (behind rest.new).letters ≡ (behind rest.old).letters ++ as_letter letter ∷ [] }
    ensures brought { (behind rest.new).brought ≡ (behind rest.old).brought ++ brought_in letter ∷ [] }
    ensures spare { (behind rest.new).spare + 1 ≡ (behind rest.old).spare }
{
    match rest {
        Some(queue) => queue.push(letter),
        None => unreachable!(),
    }
}

// Puts the first of the letters behind in front, if there is one.
#[inline(never)]
fn draw_up(first: &mut Option<Letter>, rest: &mut Option<Box<LetterQueue>>)
    ensures first { option_map as_letter first.new ≡ slice_get (behind rest.old).letters 0 }
    ensures brought { option_map brought_in first.new ≡ slice_get (behind rest.old).brought 0 }
    ensures others { ((behind rest.new).letters ≡ drop 1 (behind rest.old).letters)
        × ((behind rest.new).brought ≡ drop 1 (behind rest.old).brought) }
    ensures spare { (behind rest.new).spare + length (behind rest.new).letters
        ≡ (behind rest.old).spare + length (behind rest.old).letters }
{
    *first = match rest {
        Some(queue) => queue.take(),
        None => None,
    };
}

impl MailRow {
    /// No letter waits. It takes no memory.
    pub fn new(alloc: Global) -> MailRow
        ensures { (result.letters ≡ []) × (result.brought ≡ []) }
    {
        MailRow {
            first: None,
            rest: None,
            alloc,
        }
    }

    /// Takes memory for at least `n` further letters, if there is less. The first of all needs none.
    ///
    /// # Errors
    /// `NoMemory` where memory was refused; the letters are then as before.
    #[inline(always)]
    pub fn reserve(&mut self, n: usize) -> Result<(), NoMemory>
        ensures letters { self.new.letters ≡ self.old.letters }
        ensures brought { self.new.brought ≡ self.old.brought }
        ensures kept { self.old.spare ≤ self.new.spare }
        ensures ok { OnOk result (n ≤ self.new.spare) }
        ensures enough { n ≤ self.old.spare → IsOk result }
    {
        let others = if self.first.is_none() {
            n.saturating_sub(1)
        } else {
            n
        };
        if others == 0 {
            return Ok(());
        }
        reserve_behind(&mut self.rest, self.alloc, others)
    }

    /// One letter more, behind the others. It takes no memory.
    #[inline(always)]
    pub fn push(&mut self, letter: Letter)
        requires { 1 ≤ self.old.spare }
        ensures letters { self.new.letters ≡ self.old.letters ++ as_letter letter ∷ [] }
        ensures brought { self.new.brought ≡ self.old.brought ++ brought_in letter ∷ [] }
        ensures spare { self.new.spare + 1 ≡ self.old.spare }
    {
        if self.first.is_none() {
            self.first = Some(letter);
        } else {
            push_behind(&mut self.rest, letter);
        }
    }

    /// Takes the first letter out; `None` exactly where no letter waits. Its room is free again.
    #[inline(always)]
    pub fn take(&mut self) -> Option<Letter>
        ensures first { option_map as_letter result ≡ slice_get self.old.letters 0 }
        ensures brought { option_map brought_in result ≡ slice_get self.old.brought 0 }
        ensures others { (self.new.letters ≡ drop 1 self.old.letters)
            × (self.new.brought ≡ drop 1 self.old.brought) }
        ensures spare { self.new.spare + length self.new.letters
            ≡ self.old.spare + length self.old.letters }
    {
        let letter = mem::replace(&mut self.first, None);
        if self.rest.is_some() {
            draw_up(&mut self.first, &mut self.rest);
        }
        letter
    }

    /// The first letter; `None` exactly where no letter waits.
    #[inline(always)]
    pub fn front(&self) -> Option<&Letter>
        ensures first { option_map as_letter (option_copied result) ≡ slice_get self.now.letters 0 }
        ensures brought { option_map brought_in (option_copied result) ≡ slice_get self.now.brought 0 }
    {
        self.first.as_ref()
    }

    /// Whether no letter waits.
    #[inline(always)]
    pub fn is_empty(&self) -> bool
        ensures { IsTrue result ↔ (self.now.letters ≡ []) }
    {
        self.first.is_none()
    }

    /// The number of letters.
    pub fn len(&self) -> u64
        ensures { result ≡ length self.now.letters }
    {
        if self.first.is_none() {
            return 0;
        }
        match &self.rest {
            Some(queue) => queue.len() + 1,
            None => 1,
        }
    }

    /// The letter at a place, counted from 0.
    pub fn at(&self, i: u64) -> &Letter
        requires { i < length self.now.letters }
        ensures letter { slice_get self.now.letters i ≡ Some (as_letter result.now) }
        ensures brought { slice_get self.now.brought i ≡ Some (brought_in result.now) }
    {
        if i == 0 {
            match &self.first {
                Some(letter) => letter,
                None => unreachable!(),
            }
        } else {
            match &self.rest {
                Some(queue) => queue.at(i - 1),
                None => unreachable!(),
            }
        }
    }
}
