// Leave and reap: who goes gives back what it held on things of those who stay.

ghost use Rattle.std.specs.Prelude.{◌≡◌, IfOk};
ghost use Rattle.std.specs.List.Sorted.{IsStrictlySortedBy};
ghost use Rattle.std.specs.Ordering.{nat_cmp};
ghost use Rattle.actor_cell.specs.Cells.{as_cell};
ghost use Rattle.actor_cell.specs.Outs.{left_outside};

use crate::cell::Cell;
use letter_kinds::Amounts;
use local_sweep::gather_held;
use orca_names::{ActorName, NoMemory};
use std::alloc::Global;

impl Cell {
    /// What it gives back where it goes with all of these, by rising names: to each owner that stays,
    /// what it held of this owner's things.
    ///
    /// # Errors
    /// `NoMemory` where memory was refused.
    pub fn give_back(
        &self,
        alloc: Global,
        gone: &[ActorName],
    ) -> Result<Vec<(ActorName, Amounts)>, NoMemory>
        requires { IsStrictlySortedBy nat_cmp gone.now }
        ensures { let its = left_outside gone.now (as_cell self.now) in
            IfOk result (λ back. back.items ≡ its) }
    {
        gather_held(alloc, gone, &self.foreign)
    }
}
