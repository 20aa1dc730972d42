// The board.

ghost use Rattle.std.specs.Prelude.{◌≡◌, ℕ, ◌+◌, ◌-◌, ◌≤◌, ◌||◌, Bool, true, false, IfNone, IfOk, IfSome, IsSomeAnd, None, OnOk, OnErr, Some};
ghost use Rattle.event_rule.specs.Events.{actor_of};
ghost use Rattle.event_rule.specs.declared.event.Event.{Event};
ghost use Rattle.work_board.specs.Answered.{is_end, is_evaluated, is_spoiling, segment};

use crate::answers::{Committed, Look, Refuse};
use event_rule::Event;
use orca_names::{ActorName, NoMemory};
use std::alloc::Global;
use std::sync::Wait;

/// One worker's side of a run that several workers may change.
///
/// A worker looks what there is to do, claims an actor, evaluates the actor's event by itself, and
/// commits it as an entry of the run book. Which refusal comes when, and what an entry does to the
/// run, says whoever keeps the run; here is what every worker may rely on, and what it owes.
pub trait Board {
    /// A claim: an actor's event, and what was found of it so far.
    type Task;

    /// What tells one hall, the place where a run is kept, from another.
    ghost Hall: { Type 0 };

    /// The hall that the board is of.
    ghost hall: { Self → Hall };

    /// Whether its last look answered that there is nothing to do or that a stop was asked.
    ghost ended: { Self → Bool };

    /// Whether a claim or an entry was ever refused for want of room for an actor, or of memory.
    ghost spoilt: { Self → Bool };

    /// How many of its claims are out: not committed yet. A board that keeps no count of them, as that of
    /// the hall that copies cells, tells none; of such a board this says nothing.
    ghost out: { Self → ℕ };

    /// That the board may commit the task.
    ghost owns: { Self → Self.Task → Type 0 };

    /// The event that the task is of.
    ghost event: { Self.Task → Event };

    /// The length of the run book at the claim.
    ghost at: { Self.Task → ℕ };

    /// Whether its evaluation was asked for, whatever that answered.
    ghost tried: { Self.Task → Bool };

    /// That what was found of the task is what its own start gives.
    ghost found: { Self.Task → Type 0 };

    /// What there is to do.
    fn look<R: Wait>(&mut self, rt: &R) -> Look
        ensures ended { ended self.new ≡ is_end result }
        ensures spoilt { spoilt self.new ≡ spoilt self.old }
        ensures hall { hall self.new ≡ hall self.old }
        ensures out { out self.new ≡ out self.old };

    /// Claims an actor, for its first enabled event.
    ///
    /// # Errors
    /// Why there is no such claim.
    fn claim<R: Wait>(&mut self, rt: &R, alloc: Global, a: ActorName) -> Result<Self::Task, Refuse>
        ensures actor { IfOk result (λ task. actor_of (event task) ≡ Some a) }
        ensures fresh { IfOk result (λ task. tried task ≡ false) }
        ensures owns { IfOk result (λ task. owns self.new task) }
        ensures one { OnOk result (out self.new ≤ out self.old + 1) }
        ensures none { OnErr result (out self.new ≡ out self.old) }
        ensures ended { ended self.new ≡ ended self.old }
        ensures spoilt { spoilt self.new ≡ (spoilt self.old || is_spoiling result) }
        ensures hall { hall self.new ≡ hall self.old };

    /// The actor whose segment the task evaluates, and the length of the run book at its claim; `None`
    /// exactly where the task's event is no `Go`.
    fn segment_of(&self, task: &Self::Task) -> Option<(ActorName, u64)>
        ensures { result ≡ segment (event task.now) (at task.now) };

    /// Evaluates the task's event. It waits for nobody, and touches nothing that is shared.
    ///
    /// # Errors
    /// `NoMemory` where memory was refused. The task may be committed all the same.
    fn propose(&mut self, alloc: Global, task: &mut Self::Task) -> Result<(), NoMemory>
        ensures tried { tried task.new ≡ true }
        ensures found { OnOk result (is_evaluated (event task.new) ≡ true → found task.new) }
        ensures event { event task.new ≡ event task.old }
        ensures at { at task.new ≡ at task.old }
        ensures owns { owns self.old task.old → owns self.new task.new }
        ensures same { self.new ≡ self.old };

    /// Makes the task's event an entry, and ends the claim, whatever the answer is.
    ///
    /// # Errors
    /// Why there is no entry.
    fn commit<R: Wait>(
        &mut self,
        rt: &R,
        alloc: Global,
        task: Self::Task,
    ) -> Result<Committed, Refuse>
        requires tried { tried task ≡ true }
        requires owns { owns self.old task }
        ensures out { out self.new ≡ out self.old - 1 }
        ensures ended { ended self.new ≡ ended self.old }
        ensures spoilt { spoilt self.new ≡ (spoilt self.old || is_spoiling result) }
        ensures hall { hall self.new ≡ hall self.old };

    /// Commits the actor's task, and may go on with the actor: then this is claimed again, for its next
    /// event, and the task is that claim; else there is none any more. How far it goes on says the board. Here
    /// it goes on unless a segment woke nobody, since the turn may be over then.
    ///
    /// # Errors
    /// Why the task's event is no entry. The actor isn't claimed again then.
    fn advance<R: Wait>(
        &mut self,
        rt: &R,
        alloc: Global,
        a: ActorName,
        task: &mut Option<Self::Task>,
    ) -> Result<Committed, Refuse>
        requires actor { IsSomeAnd task.old (λ was. actor_of (event was) ≡ Some a) }
        requires tried { IfSome task.old (λ was. tried was ≡ true) }
        requires owns { IfSome task.old (λ was. owns self.old was) }
        ensures actor { IfSome task.new (λ claim. actor_of (event claim) ≡ Some a) }
        ensures fresh { IfSome task.new (λ claim. tried claim ≡ false) }
        ensures owns { IfSome task.new (λ claim. owns self.new claim) }
        ensures one { IfSome task.new (λ _. out self.new ≤ out self.old - 1 + 1) }
        ensures none { IfNone task.new (out self.new ≡ out self.old - 1) }
        ensures free { OnErr result (task.new ≡ None) }
        ensures ended { ended self.new ≡ ended self.old }
        ensures spoilt { (spoilt self.old || is_spoiling result) ≡ true → spoilt self.new ≡ true }
        ensures hall { hall self.new ≡ hall self.old }
    {
        let Some(claim) = task.take() else {
            unreachable!()
        };
        let segment = self.segment_of(&claim);
        let done = self.commit(rt, alloc, claim)?;
        if segment.is_some() && done.woke.is_none() {
            return Ok(done);
        }
        match self.claim(rt, alloc, a) {
            Ok(claim) => {
                let before = task.replace(claim);
                let None = before else { unreachable!() };
                Ok(done)
            }
            Err(_) => Ok(done),
        }
    }

    /// Takes up an actor that was woken: where it has a letter to take this may become an entry at once, and
    /// the actor may be claimed: then the task is that claim. Tells whether there is an entry. How far it goes
    /// says the board. Here it claims the actor.
    ///
    /// # Errors
    /// Why there is neither, where the board knows a reason.
    fn take_up<R: Wait>(
        &mut self,
        rt: &R,
        alloc: Global,
        a: ActorName,
        task: &mut Option<Self::Task>,
    ) -> Result<bool, Refuse>
        requires free { task.old ≡ None }
        ensures actor { IfSome task.new (λ claim. actor_of (event claim) ≡ Some a) }
        ensures fresh { IfSome task.new (λ claim. tried claim ≡ false) }
        ensures owns { IfSome task.new (λ claim. owns self.new claim) }
        ensures one { IfSome task.new (λ _. out self.new ≤ out self.old + 1) }
        ensures none { IfNone task.new (out self.new ≡ out self.old) }
        ensures free { OnErr result (task.new ≡ None) }
        ensures ended { ended self.new ≡ ended self.old }
        ensures spoilt { (spoilt self.old || is_spoiling result) ≡ true → spoilt self.new ≡ true }
        ensures hall { hall self.new ≡ hall self.old }
    {
        let claim = self.claim(rt, alloc, a)?;
        let before = task.replace(claim);
        let None = before else { unreachable!() };
        Ok(false)
    }

    /// Makes the actor's first event an entry at once, without a claim, where the board knows that this is short;
    /// never a segment of a turn. Here it knows of none.
    ///
    /// # Errors
    /// Why there is no entry.
    fn enter_first<R: Wait>(
        &mut self,
        _rt: &R,
        _alloc: Global,
        _a: ActorName,
    ) -> Result<Committed, Refuse>
        ensures ended { ended self.new ≡ ended self.old }
        ensures spoilt { spoilt self.new ≡ (spoilt self.old || is_spoiling result) }
        ensures hall { hall self.new ≡ hall self.old }
        ensures out { out self.new ≡ out self.old }
    {
        Err(Refuse::NotReady)
    }

    /// Makes an event an entry at once, without a claim.
    ///
    /// # Errors
    /// Why there is no entry.
    fn direct<R: Wait>(&mut self, rt: &R, alloc: Global, e: Event) -> Result<Committed, Refuse>
        ensures ended { ended self.new ≡ ended self.old }
        ensures spoilt { spoilt self.new ≡ (spoilt self.old || is_spoiling result) }
        ensures hall { hall self.new ≡ hall self.old }
        ensures out { out self.new ≡ out self.old };

    /// Asks all workers to stop.
    fn ask_stop<R: Wait>(&mut self, rt: &R)
        requires { spoilt self.old ≡ true }
        ensures ended { ended self.new ≡ ended self.old }
        ensures spoilt { spoilt self.new ≡ spoilt self.old }
        ensures hall { hall self.new ≡ hall self.old }
        ensures out { out self.new ≡ out self.old };
}
