// A board with wrong hints.

ghost use Rattle.std.specs.Prelude.{◌≡◌, ◌||◌, ◌+◌, ◌-◌, ◌≤◌, ◌^◌, min, true, false, IfOk, MatchOption, OnErr, OnOk, Some};
ghost use Rattle.work_board.specs.Answered.{is_end, is_evaluated, is_spoiling, segment};
ghost use Rattle.work_board.specs.Troubled.{Troubled, after_wrong, name_at, one_more};
ghost use Rattle.work_board.specs.declared.answers.Look.TheVariants.{Actor};

use crate::answers::{Committed, Look, Refuse};
use crate::board::Board;
use event_rule::Event;
use orca_names::{ActorName, NoMemory};
use std::alloc::Global;
use std::marker::Model;
use std::sync::Wait;

/// A board round a board: some of its looks answer an actor that the board inside did not name. All
/// else is passed on.
#[derive(Drop)]
pub struct TroubleBoard<B> {
    inner: B,
    wrong: Vec<(u64, ActorName)>,
    looks: u64,
    ended: bool,
}

impl<B> Model for TroubleBoard<B> {
    ghost use Rattle.work_board.specs.Troubled.{Troubled};

    ghost Value = { Troubled B };

    ghost view = { λ t. record {
      inner = t.inner;
      wrong = t.wrong.items;
      looks = t.looks;
      ended = t.ended;
    } };
}

impl<B> TroubleBoard<B> {
    /// A board whose looks with these numbers, counted from 1, answer the actors beside them.
    pub fn new(inner: B, wrong: Vec<(u64, ActorName)>) -> TroubleBoard<B>
        ensures { result ≡ record {
          inner = inner;
          wrong = wrong.items;
          looks = 0;
          ended = false;
        } }
    {
        TroubleBoard {
            inner,
            wrong,
            looks: 0,
            ended: false,
        }
    }
}

// The name beside this number.
fn name_at(wrong: &[(u64, ActorName)], look: u64) -> Option<ActorName>
    ensures { result ≡ name_at wrong.now look }
{
    match wrong.iter().find(|pair| pair.0 == look) {
        Some(pair) => Some(pair.1),
        None => None,
    }
}

impl<B: Board> Board for TroubleBoard<B> {
    type Task = B::Task;

    ghost Hall = { B.Hall };

    ghost hall = { λ t. B.hall t.inner };

    ghost ended = { λ t. t.ended };

    ghost spoilt = { λ t. B.spoilt t.inner };

    ghost out = { λ t. B.out t.inner };

    ghost owns = { λ t task. B.owns t.inner task };

    ghost event = { B.event };

    ghost at = { B.at };

    ghost tried = { B.tried };

    ghost found = { B.found };

    /// The name beside the number of this look, where there is one, and else what there is to do.
    fn look<R: Wait>(&mut self, rt: &R) -> Look
        ensures ended { self.new.ended ≡ is_end result }
        ensures spoilt { B.spoilt self.new.inner ≡ B.spoilt self.old.inner }
        ensures hall { B.hall self.new.inner ≡ B.hall self.old.inner }
        ensures out { B.out self.new.inner ≡ B.out self.old.inner }
        ensures answer { MatchOption (name_at self.old.wrong (one_more self.old.looks))
            (B.ended self.new.inner ≡ is_end result)
            (λ name. (result ≡ Actor name) × (self.new ≡ after_wrong self.old)) }
        ensures count { self.new.looks ≡ one_more self.old.looks }
        ensures wrong { self.new.wrong ≡ self.old.wrong }
    {
        self.looks = self.looks.saturating_add(1);
        if let Some(name) = name_at(&self.wrong, self.looks) {
            self.ended = false;
            return Look::Actor(name);
        }
        let answer = self.inner.look(rt);
        self.ended = answer.is_end();
        answer
    }

    fn claim<R: Wait>(&mut self, rt: &R, alloc: Global, a: ActorName) -> Result<B::Task, Refuse> {
        self.inner.claim(rt, alloc, a)
    }

    fn segment_of(&self, task: &B::Task) -> Option<(ActorName, u64)> {
        self.inner.segment_of(task)
    }

    fn propose(&mut self, alloc: Global, task: &mut B::Task) -> Result<(), NoMemory> {
        self.inner.propose(alloc, task)
    }

    fn commit<R: Wait>(
        &mut self,
        rt: &R,
        alloc: Global,
        task: B::Task,
    ) -> Result<Committed, Refuse> {
        self.inner.commit(rt, alloc, task)
    }

    fn advance<R: Wait>(
        &mut self,
        rt: &R,
        alloc: Global,
        a: ActorName,
        task: &mut Option<B::Task>,
    ) -> Result<Committed, Refuse> {
        self.inner.advance(rt, alloc, a, task)
    }

    fn take_up<R: Wait>(
        &mut self,
        rt: &R,
        alloc: Global,
        a: ActorName,
        task: &mut Option<B::Task>,
    ) -> Result<bool, Refuse> {
        self.inner.take_up(rt, alloc, a, task)
    }

    fn enter_first<R: Wait>(
        &mut self,
        rt: &R,
        alloc: Global,
        a: ActorName,
    ) -> Result<Committed, Refuse> {
        self.inner.enter_first(rt, alloc, a)
    }

    fn direct<R: Wait>(&mut self, rt: &R, alloc: Global, e: Event) -> Result<Committed, Refuse> {
        self.inner.direct(rt, alloc, e)
    }

    fn ask_stop<R: Wait>(&mut self, rt: &R) {
        self.inner.ask_stop(rt);
    }
}
