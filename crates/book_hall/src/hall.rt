// The hall.

ghost use Rattle.std.specs.Prelude.{◌≡◌, ◌≤◌, ◌++◌, ◌∷◌, [], false, true, IfErr, IfOk, None, OnErr, OnOk, Some};
ghost use Rattle.std.specs.Option.{ForSome};
ghost use Rattle.orca_names.specs.declared.limits.TheConstants.{BOOK_LIMIT};
ghost use Rattle.orca_names.specs.declared.trace.Trace.TheVariants.{Deep};
ghost use Rattle.run_book.specs.Books.{IsWeight};
ghost use Rattle.orca_parts.specs.Parts.{options_of};
ghost use Rattle.hall_rules.specs.Causes.{IsRefusal, absent_cause, claim_cause, event_at};
ghost use Rattle.hall_rules.specs.Claims.{without_for};
ghost use Rattle.hall_rules.specs.Answers.{TellsWork};
ghost use Rattle.hall_rules.specs.Halls.{hall_state};
ghost use Rattle.hall_rules.specs.Kept.{AreParts};
ghost use Rattle.book_hall.specs.Answers.{AnswersCommit, AnswersEntry};
ghost use Rattle.book_hall.specs.Kept.{HasRun};
ghost use Rattle.book_hall.specs.Proposals.{IsCopy, IsOf};

use crate::claims::Claims;
use crate::copy::{CellCopy, Proposal};
use crate::found::fitting;
use behaviour_check::Checked;
use event_rule::Event;
use hall_rules::{Claim, actor_of, book_options, claimable, early_refusal, enter, look};
use orca_core::Orca;
use orca_names::{ActorName, NoMemory, Trace};
use run_book::Book;
use std::alloc::Global;
use std::marker::Model;
use work_board::{Committed, Look, Refuse};

/// A run that several workers change, seen by contracts as its program, its options, its budget, its
/// book, the claims that are out, and whether a stop was asked. Its state is the one that the book
/// leads to, the book is a run of at most as many entries as the budget, no cell is away, and the
/// machine has no blocks.
#[derive(Drop)]
pub struct Hall<'a> {
    code: &'a Checked,
    budget: u64,
    orca: Orca<'a>,
    book: Book,
    claims: Claims,
    stopped: bool,
}

impl<'a> Model for Hall<'a> {
    ghost use Rattle.std.specs.Prelude.{◌≡◌, []};
    ghost use Rattle.hall_rules.specs.Halls.{HallValue};
    ghost use Rattle.hall_rules.specs.Kept.{IsRunWithin};
    ghost use Rattle.orca_core.specs.Machine.{NoneIsAway};
    ghost use Rattle.run_book.specs.Books.{options_of_book};

    ghost Value = { HallValue };

    ghost view = { λ h. record {
      program = h.code.now;
      options = options_of_book h.book;
      budget = h.budget;
      book = h.book.entries;
      claims = h.claims;
      stopped = h.stopped;
    } };

    ghost invariant = { λ h. let options = options_of_book h.book in
        IsRunWithin h.code.now options h.budget h.orca.state h.orca.steps h.book.entries
        × NoneIsAway h.orca × (h.orca.blocks ≡ []) };
}

impl<'a> Hall<'a> {
    /// A run before its first event, of at most `budget` entries. An increment is by `weight`, and letters
    /// are traced deep.
    ///
    /// # Errors
    /// `NoMemory` where memory was refused.
    pub fn start(
        alloc: Global,
        code: &'a Checked,
        budget: u64,
        weight: u32,
    ) -> Result<Hall<'a>, NoMemory>
        requires most { budget ≤ BOOK_LIMIT }
        requires weight { IsWeight weight }
        ensures { IfOk result (λ hall. hall ≡ record {
          program = code.now;
          options = options_of weight Deep;
          budget = budget;
          book = [];
          claims = [];
          stopped = false;
        }) }
    {
        let orca = Orca::start(alloc, code, weight, None, Trace::Deep)?;
        Ok(Hall {
            code,
            budget,
            orca,
            book: Book::new(alloc, weight, Trace::Deep),
            claims: Claims::new(alloc),
            stopped: false,
        })
    }

    /// The program that runs.
    pub fn program(&self) -> &'a Checked
        ensures { result.now ≡ self.now.program }
    {
        self.code
    }

    /// The most entries that the book may have.
    pub fn budget(&self) -> u64
        ensures { result ≡ self.now.budget }
    {
        self.budget
    }

    /// What holds of the hall at every moment, whatever was done with it.
    pub fn has_run(&self)
        ensures { HasRun self.now }
    {
        let _ = &self.orca;
    }

    /// Claims the actor's first enabled event, in the order of going, taking a letter, collecting,
    /// leaving and blocking: a copy of the actor's cell, which can be evaluated without the hall.
    ///
    /// # Errors
    /// `Unknown` exactly where the actor was not made; else `Gone` exactly where it is not present any
    /// more; else `Busy` exactly where a claim on it is out, the pass's own included; else `NotReady`
    /// exactly where it has no enabled event. `NoMemory` where memory was refused.
    pub fn claim(&mut self, alloc: Global, pass: u32, a: ActorName) -> Result<CellCopy<'a>, Refuse>
        ensures may { OnOk result (claim_cause self.old a ≡ None) }
        ensures ok { IfOk result (IsCopy self.old a) }
        ensures claimed { OnOk result (self.new ≡ record self.old {
          claims = self.old.claims ++ record { pass = pass; actor = a } ∷ [];
        }) }
        ensures refused { IfErr result (IsRefusal (claim_cause self.old a)) }
        ensures same { OnErr result (self.new ≡ self.old) }
    {
        let event = match claimable(&self.orca, self.claims.holder(None, a), a) {
            Ok(event) => event,
            Err(refuse) => return Err(refuse),
        };
        let Ok(copy) = self.copy_of(alloc, a, event) else {
            return Err(Refuse::NoMemory);
        };
        match self.claims.push(Claim { pass, actor: a }) {
            Ok(()) => Ok(copy),
            Err(_) => Err(Refuse::NoMemory),
        }
    }

    /// Makes the proposal's event an entry. What was found is done, if it was found of the actor's cell
    /// as it is now, in a run of this program with these options; else the hall evaluates the event
    /// itself. Whatever it answers, the pass has no claim on the actor any more.
    ///
    /// # Errors
    /// As `direct`, but for `Busy`, which comes exactly where another pass has a claim on the actor.
    pub fn commit(
        &mut self,
        alloc: Global,
        pass: u32,
        proposal: Proposal<'a>,
    ) -> Result<Committed, Refuse>
        ensures { AnswersCommit self.old pass proposal.entry.copy.event result self.new }
    {
        let e = proposal.event();
        if proposal.is_of(self.code, book_options(&self.book)) {
            self.commit_as(alloc, pass, e, Some(proposal))
        } else {
            self.commit_as(alloc, pass, e, None)
        }
    }

    /// As `commit`, without a proposal: the hall evaluates the event itself.
    ///
    /// # Errors
    /// As `commit`.
    pub fn commit_plain(&mut self, alloc: Global, pass: u32, e: Event) -> Result<Committed, Refuse>
        ensures { AnswersCommit self.old pass e result self.new }
    {
        self.commit_as(alloc, pass, e, None)
    }

    /// Makes an event an entry at once, without a claim.
    ///
    /// # Errors
    /// Of an actor's event `Unknown` exactly where the actor was not made; else `Gone` exactly where it
    /// is not present any more; else `Busy` exactly where a claim on it is out. Then `NotReady` exactly
    /// where the event is not enabled; else `Budget` exactly where the book is as long as the budget;
    /// else `Full` exactly where the event's actor would make one actor too many. `NoMemory` where
    /// memory was refused. All stays as it was then.
    pub fn direct(&mut self, alloc: Global, e: Event) -> Result<Committed, Refuse>
        ensures { AnswersEntry self.old None e self.old.claims result self.new }
    {
        self.enter_as(alloc, None, e, None)
    }

    /// What there is to do: the first actor, in the one-worker order, that has an event and on which no
    /// claim is out; else the detector's first event; else others are at work, if a claim is out, or
    /// nothing is left to do. A stop where one was asked, or where the book is as long as the budget.
    pub fn look(&self) -> Look
        ensures { TellsWork self.now result }
    {
        if self.stopped || self.book.len() == self.budget {
            return Look::Stop;
        }
        look(&self.orca, &self.claims, self.claims.is_empty())
    }

    /// Asks all workers to stop.
    pub fn ask_stop(&mut self)
        ensures { self.new ≡ record self.old { stopped = true } }
    {
        self.stopped = true;
    }

    /// The machine, whose state is that of the book and which has no blocks, and the book.
    pub fn into_parts(self) -> (Orca<'a>, Book)
        ensures whole { AreParts self.entry result.0 result.1 }
        ensures blockless { result.0.blocks ≡ [] }
    {
        (self.orca, self.book)
    }

    // A copy of the cell of an actor that is present.
    fn copy_of(&self, alloc: Global, a: ActorName, event: Event) -> Result<CellCopy<'a>, NoMemory>
        requires present { absent_cause (hall_state self.now) a ≡ None }
        requires event { event_at (hall_state self.now) a ≡ Some event }
        ensures { IfOk result (IsCopy self.now a) }
    {
        // The program was checked.
        let _program = self.code.program();
        let Some(cell) = self.orca.cell(a) else {
            unreachable!()
        };
        Ok(CellCopy {
            code: self.code,
            options: book_options(&self.book),
            event,
            at: self.book.len(),
            cell: cell.copy(alloc)?,
        })
    }

    // Makes the event an entry, unless it is refused to the one who asks: a pass, or nobody.
    fn enter_as(
        &mut self,
        alloc: Global,
        asker: Option<u32>,
        e: Event,
        proposal: Option<Proposal<'a>>,
    ) -> Result<Committed, Refuse>
        requires { ForSome proposal (IsOf self.old.program self.old.options e) }
        ensures { AnswersEntry self.old asker e self.old.claims result self.new }
    {
        let holder = self.claims.holder_for(asker, &e);
        if let Some(refuse) = early_refusal(&self.orca, &self.book, self.budget, holder, &e) {
            return Err(refuse);
        }
        let mut found = fitting(alloc, &self.orca, &e, proposal);
        enter(alloc, &mut self.orca, &mut self.book, &e, &mut found)
    }

    // As `enter_as`, by a commit of the pass.
    fn commit_as(
        &mut self,
        alloc: Global,
        pass: u32,
        e: Event,
        proposal: Option<Proposal<'a>>,
    ) -> Result<Committed, Refuse>
        requires { ForSome proposal (IsOf self.old.program self.old.options e) }
        ensures { AnswersCommit self.old pass e result self.new }
    {
        let answer = self.enter_as(alloc, Some(pass), e, proposal);
        self.end_claim(pass, &e);
        answer
    }

    // The pass has no claim on the event's actor any more.
    fn end_claim(&mut self, pass: u32, e: &Event)
        ensures { self.new ≡ record self.old { claims = without_for pass e.now self.old.claims } }
    {
        if let Some(a) = actor_of(e) {
            self.claims.end(pass, a);
        }
    }
}
