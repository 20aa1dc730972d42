// What a claim gives.

ghost use Rattle.std.specs.Prelude.{◌≡◌, ◌+◌, ◌<◌, ◌^◌, OnOk, Some};
ghost use Rattle.event_rule.specs.Events.{actor_of};
ghost use Rattle.letter_kinds.specs.Telling.{TellsNothing};
ghost use Rattle.actor_cell.specs.Tells.{Tells};
ghost use Rattle.orca_parts.specs.Founds.{IsFoundUntold};
ghost use Rattle.actor_cell.specs.Sweeps.{KnowsOthersOnly};
ghost use Rattle.work_board.specs.Answered.{is_evaluated};

use crate::rooms::CellRoom;
use actor_cell::Found;
use behaviour_check::Checked;
use event_rule::Event;
use orca_names::{NoMemory, Options};
use row_store::NoBlocks;
use std::alloc::Global;

/// An actor's cell, which is out of the hall now, with the event that the claim is for.
#[derive(Drop)]
pub struct Taken<'a> {
    pub code: &'a Checked,
    /// Those of the run.
    pub options: Options,
    /// The first event that the actor had.
    pub event: Event,
    pub cell: CellRoom,
    /// The length of the book at the claim.
    pub at: u64,
    ghost its: { actor_of event ≡ Some cell.heap.owner },
    ghost serials: { cell.heap.next + 1024 < 2 ^ 64 },
    ghost others: { KnowsOthersOnly cell },
    ghost untold: { TellsNothing (Tells cell) },
}

impl<'a> Taken<'a> {
    /// Evaluates the actor's turn or collection into a place.
    ///
    /// # Errors
    /// `NoMemory` where memory was refused.
    pub(crate) fn find_in(&self, alloc: Global, found: &mut Found) -> Result<(), NoMemory>
        ensures { let taken = self.now in
            OnOk result (IsFoundUntold taken.options taken.code.now taken.cell found.new) }
    {
        self.cell.inside().find_in(
            alloc,
            self.code,
            self.options,
            found,
            &mut NoBlocks::default(),
        )
    }

    /// The event is evaluated: it is a turn or a collection.
    pub(crate) fn is_evaluated(&self) -> bool
        ensures { result ≡ is_evaluated self.now.event }
    {
        matches!(self.event, Event::Go(_) | Event::Collect(_))
    }
}
