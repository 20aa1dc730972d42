// A hall whose cells move out, and one worker's pass to it.

ghost use Rattle.std.specs.Prelude.{◌≡◌, ℕ, ◌+◌, ◌-◌, ◌≤◌, ◌||◌, ◌∷◌, ◌++◌, [], false, true, IfErr, IfNone, IfOk, IfSome, IsOk, IsSomeAnd, None, OnErr, OnOk, Some, ⊤};
ghost use Rattle.orca_names.specs.declared.limits.TheConstants.{BOOK_LIMIT};
ghost use Rattle.run_book.specs.Books.{IsWeight};
ghost use Rattle.event_rule.specs.Events.{actor_of};
ghost use Rattle.orca_parts.specs.Parts.{options_of};
ghost use Rattle.work_board.specs.Answered.{is_end, is_spoiling};
ghost use Rattle.turn_log.specs.Knowing.{newcomer};
ghost use Rattle.turn_log.specs.Seats.{knows};
ghost use Rattle.seat_hall.specs.declared.item.Item.TheVariants.{Claimed, Ended, Stopped};
ghost use Rattle.seat_hall.specs.Advances.{Advances, TakesUp, claiming, taking};
ghost use Rattle.seat_hall.specs.Answers.{AllAreGiven, Grants, RefusesClaim, RefusesEntry, RefusesFirst, Tells};
ghost use Rattle.seat_hall.specs.Boards.{CallsAs, GivesUp, StaysPass, out_of};
ghost use Rattle.seat_hall.specs.Closes.{Closes};
ghost use Rattle.seat_hall.specs.Fair.{first_view};
ghost use Rattle.seat_hall.specs.Found.{IsFoundOn};
ghost use Rattle.seat_hall.specs.Passes.{EntersFirst, IsIdlePass, MakesEntry, MayCommit, SplitsOff, TakesIn};

use crate::advancing::{advance, take_up};
use crate::closing::Closing;
use crate::pass::{ask_stop, claim, commit, direct, enter_first, look};
use crate::rule::{HallLog, PassSeat, begin};
use crate::seats::{HallSeat, Passes, close, join, split};
use crate::task::SeatTask;
use actor_cell::Found;
use behaviour_check::Checked;
use event_rule::Event;
use orca_names::{ActorName, NoMemory, Options, Trace};
use std::alloc::Global;
use std::marker::Model;
use std::sync::Wait;
use work_board::{Board, Committed, Look, Refuse};

/// A run that several workers change in turns, and whose cells move out to them. Contracts see it as
/// the table on which its log stands.
#[derive(Drop)]
pub struct SeatHall<'a> {
    log: HallLog<'a>,
}

impl<'a> Model for SeatHall<'a> {
    ghost use Rattle.atomic_table.specs.Seated.{TableId};

    ghost Value = { TableId };

    ghost view = { λ h. h.log };
}

impl<'a> SeatHall<'a> {
    /// A run before its first event, of at most `budget` entries, with the seat of pass 0. An increment
    /// is by `weight`, and `trace` says how far letters are traced.
    ///
    /// # Errors
    /// `NoMemory` where memory was refused.
    pub fn start(
        alloc: Global,
        code: &'a Checked,
        budget: u64,
        weight: u32,
        trace: Trace,
    ) -> Result<(SeatHall<'a>, HallSeat<'a>), NoMemory>
        requires most { budget ≤ BOOK_LIMIT }
        requires weight { IsWeight weight }
        ensures seat { IfOk result (λ made. (made.1.number ≡ 0) × IsIdlePass made.0 0 made.1.token) }
        ensures knows { let first = first_view code.now (options_of weight trace) budget in
            IfOk result (λ made. knows made.1.token ≡ newcomer first) }
    {
        let (log, token) = begin(alloc, code, budget, Options { weight, trace })?;
        Ok((SeatHall { log }, HallSeat { token, number: 0 }))
    }

    /// The pass that holds this seat. It takes no memory.
    pub fn first_pass(&self, seat: HallSeat<'a>) -> SeatPass<'_, 'a>
        requires own { seat.token.table_id ≡ self.now }
        ensures { result ≡ record {
          token = seat.entry.token;
          number = seat.entry.number;
          ended = false;
          spoilt = false;
        } }
    {
        SeatPass {
            log: &self.log,
            token: seat.token,
            number: seat.number,
            ended: false,
            spoilt: false,
            room: None,
        }
    }

    /// Ends the hall: where no turn and no claim is out, it gives the machine and the book. It takes no
    /// memory.
    pub fn close(self, seat: HallSeat<'a>) -> Closing<'a>
        requires own { seat.token.table_id ≡ self }
        ensures { Closes seat.entry.token result }
    {
        let SeatHall { log } = self;
        let HallSeat { token, number } = seat;
        close(log, token, number)
    }
}

/// One worker's side of a hall whose cells move out. Contracts see its token, its number, and whether
/// its last look was an end and the run was spoilt.
#[derive(Drop)]
pub struct SeatPass<'h, 'a> {
    log: &'h HallLog<'a>,
    token: PassSeat<'a>,
    number: u32,
    ended: bool,
    spoilt: bool,
    /// Room of an earlier evaluation, which serves again.
    room: Option<Box<Found>>,
}

impl<'h, 'a> Model for SeatPass<'h, 'a> {
    ghost use Rattle.seat_hall.specs.Boards.{PassValue};
    ghost use Rattle.seat_hall.specs.Passes.{IsSeated};

    ghost Value = { PassValue };

    ghost view = { λ p. record {
      token = p.token;
      number = p.number;
      ended = p.ended;
      spoilt = p.spoilt;
    } };

    ghost invariant = { λ p. IsSeated p.log.now p.number p.token };
}

// Notes whether the run can't be finished after this answer.
fn noted(spoilt: bool, answer: &Result<Committed, Refuse>) -> bool
    ensures { result ≡ (spoilt || is_spoiling answer.now) }
{
    match answer {
        Ok(_) => spoilt,
        Err(refuse) => spoilt || refuse.spoils(),
    }
}

impl<'h, 'a> SeatPass<'h, 'a> {
    /// Its seat. It takes no memory.
    pub fn into_seat(self) -> HallSeat<'a>
        ensures { (result.token ≡ self.entry.token) × (result.number ≡ self.entry.number) }
    {
        HallSeat {
            token: self.token,
            number: self.number,
        }
    }

    /// Splits off a pass of the same hall, with a number of its own. It takes no memory.
    ///
    /// # Errors
    /// `Passes` exactly where 65,535 passes were split off. Nothing is written then.
    pub fn split<R: Wait>(&mut self, rt: &R) -> Result<SeatPass<'h, 'a>, Passes>
        ensures flags { (self.new.ended ≡ self.old.ended) × (self.new.spoilt ≡ self.old.spoilt) }
        ensures stays { StaysPass 1 self.old self.new }
        ensures out { out_of self.new ≡ out_of self.old }
        ensures ok { IfOk result
            (λ p. SplitsOff self.old.number p.number self.old.token self.new.token p.token) }
        ensures fresh { IfOk result (λ p. (p.ended ≡ false) × (p.spoilt ≡ false)) }
        ensures passes { OnErr result (CallsAs self.old self.new [] AllAreGiven) }
    {
        let seat = split(rt, self.log, &mut self.token, self.number)?;
        Ok(SeatPass {
            log: self.log,
            token: seat.token,
            number: seat.number,
            ended: false,
            spoilt: false,
            room: None,
        })
    }

    /// Takes in a pass of the same hall that ends, and has no claim out. What this one saw and its
    /// cells stay; it has then heard of the longer log of both. It takes no memory.
    pub fn join(&mut self, other: SeatPass<'_, 'a>)
        requires hall { other.token.table_id ≡ self.old.token.table_id }
        requires none { out_of other ≡ 0 }
        ensures flags { (self.new.ended ≡ self.old.ended) × (self.new.spoilt ≡ self.old.spoilt) }
        ensures stays { StaysPass 0 self.old self.new }
        ensures out { out_of self.new ≡ out_of self.old }
        ensures takes { TakesIn self.old.token other.entry.token self.new.token }
    {
        let HallSeat { token, number } = other.into_seat();
        join(self.log, &mut self.token, self.number, token, number);
    }
}

impl<'h, 'a> Board for SeatPass<'h, 'a> {
    type Task = SeatTask<'a>;

    ghost use Rattle.atomic_table.specs.Seated.{TableId};

    ghost Hall = { TableId };

    ghost hall = { λ p. p.token.table_id };

    ghost ended = { λ p. p.ended };

    ghost spoilt = { λ p. p.spoilt };

    ghost out = { out_of };

    ghost owns = { λ p task. MayCommit p.number p.token task };

    ghost event = { λ task. task.taken.event };

    ghost at = { λ task. task.taken.at };

    ghost tried = { λ task. task.tried };

    ghost found = { λ task. let taken = task.taken in
        IsSomeAnd task.found (λ known. IsFoundOn taken known.value) };

    /// What there is to do.
    fn look<R: Wait>(&mut self, rt: &R) -> Look
        ensures ended { self.new.ended ≡ is_end result }
        ensures spoilt { self.new.spoilt ≡ self.old.spoilt }
        ensures hall { self.new.token.table_id ≡ self.old.token.table_id }
        ensures out { out_of self.new ≡ out_of self.old }
        ensures stays { StaysPass 1 self.old self.new }
        ensures call { CallsAs self.old self.new [] (Tells result) }
    {
        let answer = look(rt, self.log, &mut self.token, self.number);
        self.ended = answer.is_end();
        answer
    }

    /// Claims the actor's first enabled event, and takes its cell out of the hall. It takes no memory.
    ///
    /// # Errors
    /// `Unknown` exactly where the actor was not made; else `Gone` exactly where it is not present any
    /// more; else `Busy` exactly where a claim on it is out, the pass's own included; else `NotReady`
    /// exactly where it has no enabled event.
    fn claim<R: Wait>(
        &mut self,
        rt: &R,
        _alloc: Global,
        a: ActorName,
    ) -> Result<SeatTask<'a>, Refuse>
        ensures actor { IfOk result (λ task. actor_of task.taken.event ≡ Some a) }
        ensures fresh { IfOk result (λ task. task.tried ≡ false) }
        ensures owns { IfOk result (λ task. MayCommit self.new.number self.new.token task) }
        ensures one { OnOk result (out_of self.new ≤ out_of self.old + 1) }
        ensures none { OnErr result (out_of self.new ≡ out_of self.old) }
        ensures ended { self.new.ended ≡ self.old.ended }
        ensures spoilt { self.new.spoilt ≡ (self.old.spoilt || is_spoiling result) }
        ensures hall { self.new.token.table_id ≡ self.old.token.table_id }
        ensures stays { StaysPass 1 self.old self.new }
        ensures more { OnOk result (out_of self.new ≡ out_of self.old + 1) }
        ensures ok { IfOk result (λ task.
            CallsAs self.old self.new (Claimed self.old.number a ∷ []) (Grants a task.taken)) }
        ensures refused { IfErr result (λ refuse. CallsAs self.old self.new [] (RefusesClaim a refuse)) }
    {
        match claim(rt, self.log, &mut self.token, self.number, a) {
            Ok(task) => Ok(task),
            Err(refuse) => {
                self.spoilt = self.spoilt || refuse.spoils();
                Err(refuse)
            }
        }
    }

    fn segment_of(&self, task: &SeatTask<'a>) -> Option<(ActorName, u64)> {
        match task.taken.event {
            Event::Go(a) => Some((a, task.taken.at)),
            _ => None,
        }
    }

    fn propose(&mut self, alloc: Global, task: &mut SeatTask<'a>) -> Result<(), NoMemory> {
        task.evaluate(alloc, &mut self.room)
    }

    /// Puts the task's cell back, and makes its event an entry. What was found is not evaluated again.
    /// Whatever it answers, the claim has ended; after a refusal the cell is as it was.
    ///
    /// # Errors
    /// As `direct`, but for `Busy`, which comes exactly where another pass has a claim on the actor.
    fn commit<R: Wait>(
        &mut self,
        rt: &R,
        alloc: Global,
        task: SeatTask<'a>,
    ) -> Result<Committed, Refuse>
        requires tried { task.tried ≡ true }
        requires owns { MayCommit self.old.number self.old.token task }
        ensures out { out_of self.new ≡ out_of self.old - 1 }
        ensures ended { self.new.ended ≡ self.old.ended }
        ensures spoilt { self.new.spoilt ≡ (self.old.spoilt || is_spoiling result) }
        ensures hall { self.new.token.table_id ≡ self.old.token.table_id }
        ensures stays { GivesUp task.entry.taken.cell.heap.owner self.old self.new }
        ensures less { out_of self.old ≡ out_of self.new + 1 }
        ensures ok { let e = task.entry.taken.event in let n = self.old.number in
            IfOk result (λ done. MakesEntry (Some n) n e done self.old.token self.new.token) }
        ensures refused { let taken = task.entry.taken in let n = self.old.number in
            IfErr result (λ refuse. CallsAs self.old self.new (Ended n taken.cell.heap.owner ∷ [])
            (RefusesEntry (Some n) taken.event refuse)) }
    {
        let room = &mut self.room;
        let answer = commit(
            rt,
            alloc,
            self.log,
            &mut self.token,
            self.number,
            task,
            room,
        );
        self.spoilt = noted(self.spoilt, &answer);
        answer
    }

    /// Commits the task, as `commit` does, and goes on with its actor: where it has a letter to take this
    /// becomes an entry at once, unless that is refused, and where its next event is an act it is claimed.
    /// All is done under one turn.
    ///
    /// # Errors
    /// As `commit`. The actor isn't claimed then.
    fn advance<R: Wait>(
        &mut self,
        rt: &R,
        alloc: Global,
        a: ActorName,
        task: &mut Option<SeatTask<'a>>,
    ) -> Result<Committed, Refuse>
        requires actor { IsSomeAnd task.old (λ was. actor_of was.taken.event ≡ Some a) }
        requires tried { IfSome task.old (λ was. was.tried ≡ true) }
        requires owns { IfSome task.old (MayCommit self.old.number self.old.token) }
        ensures actor { IfSome task.new (λ claim. actor_of claim.taken.event ≡ Some a) }
        ensures fresh { IfSome task.new (λ claim. claim.tried ≡ false) }
        ensures owns { IfSome task.new (MayCommit self.new.number self.new.token) }
        ensures one { IfSome task.new (λ _. out_of self.new ≤ out_of self.old - 1 + 1) }
        ensures none { IfNone task.new (out_of self.new ≡ out_of self.old - 1) }
        ensures free { OnErr result (task.new ≡ None) }
        ensures ended { self.new.ended ≡ self.old.ended }
        ensures spoilt { (self.old.spoilt || is_spoiling result) ≡ true → self.new.spoilt ≡ true }
        ensures hall { self.new.token.table_id ≡ self.old.token.table_id }
        ensures stays { GivesUp a self.old self.new }
        ensures spoils { self.new.spoilt ≡ (self.old.spoilt || is_spoiling result) }
        ensures went { IfSome task.new (λ _. out_of self.new ≡ out_of self.old) }
        ensures left { IfNone task.new (out_of self.old ≡ out_of self.new + 1) }
        ensures ok { let n = self.old.number in IfSome task.old (λ was. IfOk result (λ done.
            Advances n a was.taken.event done task.new self.old.token self.new.token)) }
        ensures refused { let n = self.old.number in IfSome task.old (λ was. IfErr result (λ refuse.
            CallsAs self.old self.new (Ended n a ∷ []) (RefusesEntry (Some n) was.taken.event refuse))) }
    {
        let Some(was) = task.take() else {
            unreachable!()
        };
        let answer = advance(
            rt,
            alloc,
            self.log,
            &mut self.token,
            self.number,
            was,
            task,
            &mut self.room,
        );
        self.spoilt = noted(self.spoilt, &answer);
        answer
    }

    /// Takes up an actor: where it has a letter to take this becomes an entry at once, unless that is refused,
    /// and where its next event is an act it is claimed. All is done under one turn.
    ///
    /// # Errors
    /// None.
    fn take_up<R: Wait>(
        &mut self,
        rt: &R,
        alloc: Global,
        a: ActorName,
        task: &mut Option<SeatTask<'a>>,
    ) -> Result<bool, Refuse>
        requires free { task.old ≡ None }
        ensures actor { IfSome task.new (λ claim. actor_of claim.taken.event ≡ Some a) }
        ensures fresh { IfSome task.new (λ claim. claim.tried ≡ false) }
        ensures owns { IfSome task.new (MayCommit self.new.number self.new.token) }
        ensures one { IfSome task.new (λ _. out_of self.new ≤ out_of self.old + 1) }
        ensures none { IfNone task.new (out_of self.new ≡ out_of self.old) }
        ensures free { OnErr result (task.new ≡ None) }
        ensures ended { self.new.ended ≡ self.old.ended }
        ensures spoilt { (self.old.spoilt || is_spoiling result) ≡ true → self.new.spoilt ≡ true }
        ensures hall { self.new.token.table_id ≡ self.old.token.table_id }
        ensures stays { StaysPass 1 self.old self.new }
        ensures same { self.new.spoilt ≡ self.old.spoilt }
        ensures more { IfSome task.new (λ _. out_of self.new ≡ out_of self.old + 1) }
        ensures ok { let n = self.old.number in IfOk result (λ took. CallsAs self.old self.new
            (taking n a took ++ claiming n a task.new) (TakesUp n a took task.new)) }
        ensures never { IsOk result }
    {
        let took = take_up(rt, alloc, self.log, &mut self.token, self.number, a, task);
        Ok(took)
    }

    /// Makes the actor's first event an entry at once, without a claim, where it is short to do: it is no segment
    /// of a turn, and no collection of many things.
    ///
    /// # Errors
    /// `NotReady` where it isn't short, and else as `claim` and `direct`. Nothing is written then.
    fn enter_first<R: Wait>(
        &mut self,
        rt: &R,
        alloc: Global,
        a: ActorName,
    ) -> Result<Committed, Refuse>
        ensures ended { self.new.ended ≡ self.old.ended }
        ensures spoilt { self.new.spoilt ≡ (self.old.spoilt || is_spoiling result) }
        ensures hall { self.new.token.table_id ≡ self.old.token.table_id }
        ensures out { out_of self.new ≡ out_of self.old }
        ensures stays { StaysPass 1 self.old self.new }
        ensures ok { let n = self.old.number in
            IfOk result (λ done. EntersFirst n a done self.old.token self.new.token) }
        ensures refused { IfErr result (λ refuse. CallsAs self.old self.new [] (RefusesFirst a refuse)) }
    {
        let answer = enter_first(rt, alloc, self.log, &mut self.token, self.number, a);
        self.spoilt = noted(self.spoilt, &answer);
        answer
    }

    /// Makes an event an entry at once, without a claim.
    ///
    /// # Errors
    /// Of an actor's event `Unknown` exactly where the actor was not made; else `Gone` exactly where it
    /// is not present any more; else `Busy` exactly where a claim on it is out. Then `NotReady` exactly
    /// where the event is not enabled; else `Budget` exactly where the book is as long as the budget;
    /// else `Full` exactly where the event's actor would make one actor too many. `NoMemory` where
    /// memory was refused. Nothing is written then.
    fn direct<R: Wait>(&mut self, rt: &R, alloc: Global, e: Event) -> Result<Committed, Refuse>
        ensures ended { self.new.ended ≡ self.old.ended }
        ensures spoilt { self.new.spoilt ≡ (self.old.spoilt || is_spoiling result) }
        ensures hall { self.new.token.table_id ≡ self.old.token.table_id }
        ensures out { out_of self.new ≡ out_of self.old }
        ensures stays { StaysPass 1 self.old self.new }
        ensures ok { let n = self.old.number in
            IfOk result (λ done. MakesEntry None n e done self.old.token self.new.token) }
        ensures refused { IfErr result
            (λ refuse. CallsAs self.old self.new [] (RefusesEntry None e refuse)) }
    {
        let answer = direct(rt, alloc, self.log, &mut self.token, self.number, e);
        self.spoilt = noted(self.spoilt, &answer);
        answer
    }

    /// Asks all workers to stop.
    fn ask_stop<R: Wait>(&mut self, rt: &R)
        requires { self.old.spoilt ≡ true }
        ensures ended { self.new.ended ≡ self.old.ended }
        ensures spoilt { self.new.spoilt ≡ self.old.spoilt }
        ensures hall { self.new.token.table_id ≡ self.old.token.table_id }
        ensures out { out_of self.new ≡ out_of self.old }
        ensures stays { StaysPass 1 self.old self.new }
        ensures call { CallsAs self.old self.new (Stopped self.old.number ∷ []) (λ _. ⊤) }
    {
        ask_stop(rt, self.log, &mut self.token, self.number);
    }
}
