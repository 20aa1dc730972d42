// A copy of a cell, and what was found of it.

ghost use Rattle.std.specs.Prelude.{◌≡◌, ◌+◌, ◌<◌, ◌^◌, true, IfErr, IfOk, IsSome, IsTrue, None, OnOk, Some};
ghost use Rattle.std.specs.Option.{ForSome};
ghost use Rattle.event_rule.specs.Events.{actor_of};
ghost use Rattle.orca_parts.specs.Founds.{IsFoundUntold};
ghost use Rattle.letter_kinds.specs.Telling.{TellsNothing};
ghost use Rattle.actor_cell.specs.Tells.{Tells};
ghost use Rattle.actor_cell.specs.Sweeps.{KnowsOthersOnly};
ghost use Rattle.work_board.specs.Answered.{is_evaluated};
ghost use Rattle.hall_rules.specs.Facts.{is_found_prop};

use crate::programs::is_same_program;
use actor_cell::{Cell, Found};
use behaviour_check::Checked;
use event_rule::Event;
use orca_names::{NoMemory, Options};
use row_store::NoBlocks;
use std::alloc::Global;
use std::fmt;
use thiserror::Error;

/// A copy of an actor's cell, as it was at a claim, with the event that the claim is for.
#[derive(Drop)]
pub struct CellCopy<'a> {
    pub code: &'a Checked,
    /// Those of the run.
    pub options: Options,
    /// The first event that the actor had.
    pub event: Event,
    /// The length of the book at the claim.
    pub at: u64,
    pub cell: Cell,
    ghost its: { actor_of event ≡ Some cell.heap.owner },
    ghost serials: { cell.heap.next + 1024 < 2 ^ 64 },
    ghost others: { KnowsOthersOnly cell },
    ghost untold: { TellsNothing (Tells cell) },
}

/// What was found of a copy: where its event is a turn or a collection, what this does.
#[derive(Drop)]
pub struct Proposal<'a> {
    pub copy: CellCopy<'a>,
    pub found: Option<Found>,
    ghost own: { ForSome found (IsFoundUntold copy.options copy.code.now copy.cell) } by { Prim.hlevel is_found_prop },
}

/// Memory was refused; the copy comes back.
#[derive(Drop, Error)]
#[error("out of memory")]
pub struct ProposeErr<'a> {
    pub copy: CellCopy<'a>,
    pub cause: NoMemory,
}

impl fmt::Debug for ProposeErr<'_> {
    fn fmt<W: fmt::Write>(&self, f: &mut fmt::Formatter<W>) -> fmt::Result {
        write!(f, "ProposeErr {{ cause: {:?} }}", self.cause)
    }
}

impl<'a> Proposal<'a> {
    /// The copy, of which nothing was found yet.
    pub(crate) fn of(copy: CellCopy<'a>) -> Proposal<'a>
        ensures { (result.copy ≡ copy.entry) × (result.found ≡ None) }
    {
        Proposal { copy, found: None }
    }

    /// Evaluates the actor's turn or collection, where the event is one.
    ///
    /// # Errors
    /// `NoMemory` where memory was refused; nothing has changed then.
    pub(crate) fn evaluate(&mut self, alloc: Global) -> Result<(), NoMemory>
        ensures copy { self.new.copy ≡ self.old.copy }
        ensures found { OnOk result
            (is_evaluated self.old.copy.event ≡ true → IsSome self.new.found) }
    {
        self.found = self.copy.find(alloc)?;
        Ok(())
    }

    /// The event that it is for.
    pub fn event(&self) -> Event
        ensures { result ≡ self.now.copy.event }
    {
        self.copy.event
    }

    /// Whether it is of a run of this program with these options.
    pub(crate) fn is_of(&self, code: &Checked, options: Options) -> bool
        ensures { IsTrue result → (self.now.copy.code.now ≡ code.now)
            × (self.now.copy.options ≡ options) }
    {
        self.copy.options == options && is_same_program(self.copy.code, code)
    }
}

impl<'a> CellCopy<'a> {
    /// Evaluates the actor's turn or collection, where the event is one. It needs no hall.
    ///
    /// # Errors
    /// `NoMemory` where memory was refused. The copy comes back.
    pub fn propose(self, alloc: Global) -> Result<Proposal<'a>, ProposeErr<'a>>
        ensures copy { IfOk result (λ proposal. proposal.copy ≡ self.entry) }
        ensures found { IfOk result
            (λ proposal. is_evaluated self.entry.event ≡ true → IsSome proposal.found) }
        ensures err { IfErr result (λ fault. fault.copy ≡ self.entry) }
    {
        let mut proposal = Proposal::of(self);
        match proposal.evaluate(alloc) {
            Ok(()) => Ok(proposal),
            Err(cause) => Err(ProposeErr {
                copy: proposal.copy,
                cause,
            }),
        }
    }

    /// What the event does, where it is a turn or a collection.
    fn find(&self, alloc: Global) -> Result<Option<Found>, NoMemory>
        ensures own { IfOk result
            (λ found. ForSome found (IsFoundUntold self.now.options self.now.code.now self.now.cell)) }
        ensures found { IfOk result (λ found. is_evaluated self.now.event ≡ true → IsSome found) }
    {
        match self.event {
            Event::Go(_) | Event::Collect(_) => {
                let Options { weight, trace } = self.options;
                let found = self
                    .cell
                    .found(alloc, self.code, weight, trace, &mut NoBlocks::default())?;
                Ok(Some(found))
            }
            _ => Ok(None),
        }
    }
}
