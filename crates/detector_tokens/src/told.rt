// Which token each actor is told to be a member of.

ghost use Rattle.std.specs.Prelude.{◌≡◌, ℕ, ◌<◌, [], false, true, Some, OnOk, length, slice_get};
ghost use Rattle.letter_kinds.specs.Detector.{has};
ghost use Rattle.std.specs.List.Sorted.{IsStrictlySortedBy};
ghost use Rattle.std.specs.Ordering.{nat_cmp};

use orca_names::{ActorName, NoMemory};
use std::alloc::Global;
use std::marker::Model;

/// Each actor below a bound is told a number, seen by contracts as the list of these numbers.
#[derive(Debug, Drop)]
pub(crate) struct Told {
    numbers: Vec<u64>,
}

impl Model for Told {
    ghost use Rattle.std.specs.Prelude.{ℕ, List};

    ghost Value = { List ℕ };

    ghost view = { λ t. t.numbers.items };
}

impl Told {
    /// No actor is told a number. It takes no memory.
    pub(crate) fn new(alloc: Global) -> Told
        ensures { result ≡ [] }
    {
        Told {
            numbers: Vec::new(alloc),
        }
    }

    /// The number that the actor is told.
    pub(crate) fn get(&self, actor: ActorName) -> Option<u64>
        ensures { result ≡ slice_get self.now actor }
    {
        self.numbers.get(actor.0 as usize).copied()
    }

    /// Makes room to tell each of these actors a number.
    ///
    /// # Errors
    /// `NoMemory` where memory was refused.
    pub(crate) fn reserve(&mut self, actors: &[ActorName]) -> Result<(), NoMemory>
        requires rising { IsStrictlySortedBy nat_cmp actors.now }
        ensures kept { (a n : ℕ) → slice_get self.old a ≡ Some n → slice_get self.new a ≡ Some n }
        ensures ok { OnOk result ((a : ℕ) → has actors.now a ≡ true → a < length self.new) }
    {
        if let Some(last) = actors.last() {
            let wanted = last.0 as usize + 1;
            if self.numbers.len() < wanted {
                self.numbers.resize(wanted, 0)?;
            }
        }
        Ok(())
    }

    /// Tells each of these actors the number. It takes no memory.
    pub(crate) fn tell(&mut self, actors: &[ActorName], number: u64)
        requires room { (a : ℕ) → has actors.now a ≡ true → a < length self.old }
        ensures told { (a : ℕ) → has actors.now a ≡ true → slice_get self.new a ≡ Some number }
        ensures others { (a : ℕ) → has actors.now a ≡ false
            → slice_get self.new a ≡ slice_get self.old a }
    {
        for actor in actors {
            self.numbers[actor.0 as usize] = number;
        }
    }
}
