// A hall that threads share, and one worker's pass to it.

ghost use Rattle.std.specs.Prelude.{◌≡◌, ◌||◌, false, true, IfOk, IsSome, IsSomeAnd, OnOk, Some, ⊤};
ghost use Rattle.event_rule.specs.Events.{actor_of};
ghost use Rattle.orca_parts.specs.Founds.{IsFoundUntold};
ghost use Rattle.work_board.specs.Answered.{is_evaluated, is_spoiling};

use crate::copy::Proposal;
use crate::hall::Hall;
use event_rule::Event;
use orca_names::{ActorName, NoMemory};
use std::alloc::Global;
use std::marker::{Brand, PhantomData};
use std::sync::{Mutex, Wait};
use work_board::{Board, Committed, Look, Refuse};

/// The program, the options and the budget of a run, told by a type, so that what comes out of a lock is
/// known to be of that run. A caller picks them.
pub trait Naming {
    ghost use Rattle.std.specs.Prelude.{ℕ};
    ghost use Rattle.orca_names.specs.declared.options.Options.{Options};
    ghost use Rattle.behaviour_code.specs.declared.code.Program.{Program};

    ghost program: { Program };

    ghost options: { Options };

    ghost budget: { ℕ };
}

impl Naming for Brand {
    ghost use Rattle.std.specs.Prelude.{[]};
    ghost use Rattle.orca_names.specs.declared.trace.Trace.TheVariants.{Deep};

    ghost program = { record { kinds = []; names = [] } };

    ghost options = { record { weight = 0; trace = Deep } };

    ghost budget = { 0 };
}

/// The hall of the run that is named so.
#[derive(Drop)]
struct Named<'a, J: Naming> {
    hall: Hall<'a>,
    of: PhantomData<J>,
    ghost program_is: { hall.program ≡ J.program },
    ghost options_is: { hall.options ≡ J.options },
    ghost budget_is: { hall.budget ≡ J.budget },
}

/// A claim, with what was found of its copy.
#[derive(Drop)]
pub struct HallTask<'a> {
    proposal: Proposal<'a>,
    tried: bool,
}

impl<'a> HallTask<'a> {
    fn evaluate(&mut self, alloc: Global) -> Result<(), NoMemory>
        ensures tried { self.new.tried ≡ true }
        ensures copy { self.new.proposal.copy ≡ self.old.proposal.copy }
        ensures found { OnOk result
            (is_evaluated self.old.proposal.copy.event ≡ true → IsSome self.new.proposal.found) }
    {
        self.tried = true;
        self.proposal.evaluate(alloc)
    }
}

impl<'a, J: Naming> Named<'a, J> {
    fn claim(&mut self, alloc: Global, pass: u32, a: ActorName) -> Result<HallTask<'a>, Refuse>
        ensures actor { IfOk result (λ task. actor_of task.proposal.copy.event ≡ Some a) }
        ensures fresh { IfOk result (λ task. task.tried ≡ false) }
    {
        match self.hall.claim(alloc, pass, a) {
            Ok(copy) => Ok(HallTask {
                proposal: Proposal::of(copy),
                tried: false,
            }),
            Err(refuse) => Err(refuse),
        }
    }

    fn commit(
        &mut self,
        alloc: Global,
        pass: u32,
        task: HallTask<'a>,
    ) -> Result<Committed, Refuse> {
        self.hall.commit(alloc, pass, task.proposal)
    }

    fn direct(&mut self, alloc: Global, e: Event) -> Result<Committed, Refuse> {
        self.hall.direct(alloc, e)
    }

    fn ask_stop(&mut self) {
        self.hall.ask_stop();
    }
}

/// A lock round the hall of the run that is named so.
#[derive(Drop)]
pub struct SharedHall<'a, J: Naming> {
    hall: Mutex<Named<'a, J>>,
}

impl<'a, J: Naming> SharedHall<'a, J> {
    /// The hall behind a lock.
    pub fn new(hall: Hall<'a>) -> SharedHall<'a, J>
        requires program { hall.program ≡ J.program }
        requires options { hall.options ≡ J.options }
        requires budget { hall.budget ≡ J.budget }
    {
        SharedHall {
            hall: Mutex::new(Named {
                hall,
                of: PhantomData,
            }),
        }
    }

    /// The pass of this number. Each worker has one of its own.
    pub fn pass(&self, pass: u32) -> HallPass<'_, 'a, J>
        ensures { (result.ended ≡ false) × (result.spoilt ≡ false) }
    {
        HallPass {
            hall: self,
            pass,
            ended: false,
            spoilt: false,
        }
    }

    /// The hall, once no pass is left. It is of the same run, whatever the passes did.
    pub fn into_hall(self) -> Hall<'a>
        ensures program { result.program ≡ J.program }
        ensures options { result.options ≡ J.options }
        ensures budget { result.budget ≡ J.budget }
    {
        self.hall.into_inner().hall
    }
}

/// One worker's side of a shared hall. It keeps the lock for a call, and lets it go before it answers.
#[derive(Drop)]
pub struct HallPass<'h, 'a, J: Naming> {
    hall: &'h SharedHall<'a, J>,
    pass: u32,
    ended: bool,
    spoilt: bool,
}

/// Notes whether the run can't be finished after this answer.
fn noted(spoilt: bool, answer: &Result<Committed, Refuse>) -> bool
    ensures { result ≡ (spoilt || is_spoiling answer.now) }
{
    match answer {
        Ok(_) => spoilt,
        Err(refuse) => spoilt || refuse.spoils(),
    }
}

impl<'h, 'a, J: Naming> Board for HallPass<'h, 'a, J> {
    type Task = HallTask<'a>;

    ghost Hall = { ⊤ };

    ghost hall = { λ b. tt };

    ghost ended = { λ b. b.ended };

    ghost spoilt = { λ b. b.spoilt };

    ghost out = { λ b. 0 };

    ghost owns = { λ b task. ⊤ };

    ghost event = { λ task. task.proposal.copy.event };

    ghost at = { λ task. task.proposal.copy.at };

    ghost tried = { λ task. task.tried };

    ghost found = { λ task. let copy = task.proposal.copy in
        IsSomeAnd task.proposal.found
        (IsFoundUntold copy.options copy.code.now copy.cell) };

    fn look<R: Wait>(&mut self, rt: &R) -> Look {
        let answer = self.hall.hall.lock(rt).hall.look();
        self.ended = answer.is_end();
        answer
    }

    fn claim<R: Wait>(
        &mut self,
        rt: &R,
        alloc: Global,
        a: ActorName,
    ) -> Result<HallTask<'a>, Refuse> {
        let answer = self.hall.hall.lock(rt).claim(alloc, self.pass, a);
        match answer {
            Ok(task) => Ok(task),
            Err(refuse) => {
                self.spoilt = self.spoilt || refuse.spoils();
                Err(refuse)
            }
        }
    }

    fn segment_of(&self, task: &HallTask<'a>) -> Option<(ActorName, u64)> {
        match task.proposal.copy.event {
            Event::Go(a) => Some((a, task.proposal.copy.at)),
            _ => None,
        }
    }

    fn propose(&mut self, alloc: Global, task: &mut HallTask<'a>) -> Result<(), NoMemory> {
        task.evaluate(alloc)
    }

    fn commit<R: Wait>(
        &mut self,
        rt: &R,
        alloc: Global,
        task: HallTask<'a>,
    ) -> Result<Committed, Refuse> {
        let answer = self.hall.hall.lock(rt).commit(alloc, self.pass, task);
        self.spoilt = noted(self.spoilt, &answer);
        answer
    }

    fn direct<R: Wait>(&mut self, rt: &R, alloc: Global, e: Event) -> Result<Committed, Refuse> {
        let answer = self.hall.hall.lock(rt).direct(alloc, e);
        self.spoilt = noted(self.spoilt, &answer);
        answer
    }

    fn ask_stop<R: Wait>(&mut self, rt: &R) {
        self.hall.hall.lock(rt).ask_stop();
    }
}
