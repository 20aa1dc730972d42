// A run for tests, behind a lock: actors that each have a number of events left.

ghost use Rattle.std.specs.Prelude.{◌≡◌, ◌||◌, ◌+◌, ◌-◌, ◌≤◌, All, false, IfOk, Some};
ghost use Rattle.event_rule.specs.Events.{actor_of};
ghost use Rattle.work_board.specs.Answered.{is_spoiling};

use event_rule::Event;
use orca_names::{ActorName, NoMemory};
use std::alloc::Global;
use std::process::Abort;
use std::sync::{Mutex, Wait};
use work_board::{Board, Committed, Look, Refuse};

/// An actor: how many events it has left, and which pass has a claim on it.
#[derive(Drop)]
struct Actor {
    name: ActorName,
    left: u32,
    holder: Option<u32>,
}

/// A run. Each entry wakes the next actor, which there may not be.
#[derive(Drop)]
pub(crate) struct Toy {
    actors: Vec<Actor>,
    /// How many actors are awake: the first ones. The others have no event yet.
    pub(crate) awake: u32,
    /// Whether the detector has its one event left.
    news: bool,
    /// The actor whose events find no room.
    pub(crate) full: Option<ActorName>,
    pub(crate) budget: u64,
    pub(crate) looks: u64,
    /// The passes that have looked, a bit for each.
    pub(crate) looked: u64,
    pub(crate) entries: u64,
    pub(crate) stops: u64,
}

/// A claim.
#[derive(Drop)]
pub(crate) struct Claim {
    actor: ActorName,
    event: Event,
    at: u64,
    tried: bool,
}

// The actor's next event: it goes where the number of those left is even, and else takes a letter.
fn event_of(a: ActorName, left: u32) -> Event
    ensures { actor_of result ≡ Some a }
{
    if left % 2 == 0 {
        Event::Go(a)
    } else {
        Event::Take(a)
    }
}

/// Actors that have so many events left.
fn actors_of(alloc: Global, left: &[u32]) -> Result<Vec<Actor>, NoMemory> {
    let mut actors = Vec::new(alloc);
    let mut number = 0u32;
    for &left in left {
        actors.push(Actor {
            name: ActorName(number),
            left,
            holder: None,
        })?;
        number = number.saturating_add(1);
    }
    Ok(actors)
}

/// A run whose actors are awake, and have so many events left.
pub(crate) fn run_of<R: Abort + AllocGlobal>(rt: &R, left: &[u32]) -> Mutex<Toy> {
    Mutex::new(Toy {
        actors: actors_of(rt.alloc(), left).expect(rt, "memory"),
        awake: u32::MAX,
        news: true,
        full: None,
        budget: 1000,
        looks: 0,
        looked: 0,
        entries: 0,
        stops: 0,
    })
}

impl Toy {
    fn look(&mut self, pass: u32) -> Look {
        self.looks = self.looks.saturating_add(1);
        self.looked |= 1 << (pass % 64);
        if self.stops > 0 || self.entries >= self.budget {
            return Look::Stop;
        }
        let mut held = false;
        for actor in &self.actors {
            if actor.holder.is_some() {
                held = true;
            } else if actor.left > 0 && actor.name.0 < self.awake {
                return Look::Actor(actor.name);
            }
        }
        if self.news {
            Look::Detector(Event::Scan)
        } else if held {
            Look::Others
        } else {
            Look::Rest
        }
    }

    fn claim(&mut self, pass: u32, a: ActorName) -> Result<Claim, Refuse>
        ensures actor { IfOk result (λ claim. actor_of claim.event ≡ Some a) }
        ensures fresh { IfOk result (λ claim. claim.tried ≡ false) }
    {
        let made = self.actors.len() as u64;
        let Some(actor) = self.actors.get_mut(a.0 as usize) else {
            return Err(Refuse::Unknown { made });
        };
        if let Some(holder) = actor.holder {
            return Err(Refuse::Busy { holder });
        }
        if actor.left == 0 || a.0 >= self.awake {
            return Err(Refuse::NotReady);
        }
        actor.holder = Some(pass);
        Ok(Claim {
            actor: a,
            event: event_of(a, actor.left),
            at: self.entries,
            tried: false,
        })
    }

    // One more entry, at the end of the book.
    fn enter(&mut self, woke: Option<ActorName>) -> Committed {
        let place = self.entries;
        self.entries = place.saturating_add(1);
        Committed { place, woke }
    }

    fn commit(&mut self, a: ActorName) -> Result<Committed, Refuse> {
        let Some(actor) = self.actors.get_mut(a.0 as usize) else {
            return Err(Refuse::Gone);
        };
        actor.holder = None;
        if self.entries >= self.budget {
            return Err(Refuse::Budget {
                length: self.entries,
            });
        }
        if self.full == Some(a) {
            return Err(Refuse::Full { actor: a });
        }
        actor.left = actor.left.saturating_sub(1);
        let next = a.0.saturating_add(1);
        self.awake = self.awake.max(next.saturating_add(1));
        Ok(self.enter(Some(ActorName(next))))
    }

    fn direct(&mut self, e: Event) -> Result<Committed, Refuse> {
        if e != Event::Scan || !self.news {
            return Err(Refuse::NotReady);
        }
        self.news = false;
        Ok(self.enter(None))
    }
}

/// One worker's side of a toy run.
#[derive(Drop)]
pub(crate) struct ToyPass<'t> {
    toy: &'t Mutex<Toy>,
    number: u32,
    /// Whether it finds memory for evaluations.
    rich: bool,
    out: u64,
    pub(crate) ended: bool,
    spoilt: bool,
}

impl<'t> ToyPass<'t> {
    pub(crate) fn new(toy: &'t Mutex<Toy>, number: u32, rich: bool) -> ToyPass<'t>
        ensures { result.out ≡ 0 }
    {
        ToyPass {
            toy,
            number,
            rich,
            out: 0,
            ended: false,
            spoilt: false,
        }
    }
}

// A pass for each worker.
pub(crate) fn passes(
    alloc: Global,
    toy: &Mutex<Toy>,
    count: u32,
    rich: bool,
) -> Result<Vec<ToyPass<'_>>, NoMemory>
    ensures { IfOk result (λ boards. All (λ b. b.out ≡ 0) boards.items) }
{
    let mut boards = Vec::new(alloc);
    for number in 0..count {
        boards.push(ToyPass::new(toy, number, rich))?;
    }
    Ok(boards)
}

// Notes whether an answer spoils the run.
fn noted(spoilt: &mut bool, answer: Result<Committed, Refuse>) -> Result<Committed, Refuse>
    ensures same { result ≡ answer }
    ensures spoilt { spoilt.new ≡ (spoilt.old || is_spoiling answer) }
{
    match answer {
        Ok(done) => Ok(done),
        Err(refuse) => {
            *spoilt = *spoilt || refuse.spoils();
            Err(refuse)
        }
    }
}

impl<'t> Board for ToyPass<'t> {
    type Task = Claim;

    ghost Hall = { Unit {0} };

    ghost hall = { λ _. tt };

    ghost ended = { λ b. b.ended };

    ghost spoilt = { λ b. b.spoilt };

    ghost out = { λ b. b.out };

    ghost owns = { λ _ _. Unit {0} };

    ghost event = { λ t. t.event };

    ghost at = { λ t. t.at };

    ghost tried = { λ t. t.tried };

    ghost found = { λ _. Unit {0} };

    fn look<R: Wait>(&mut self, rt: &R) -> Look {
        let answer = self.toy.lock(rt).look(self.number);
        self.ended = answer.is_end();
        answer
    }

    fn claim<R: Wait>(&mut self, rt: &R, _alloc: Global, a: ActorName) -> Result<Claim, Refuse> {
        let answer = self.toy.lock(rt).claim(self.number, a);
        match answer {
            Ok(claim) => {
                self.out = self.out.saturating_add(1);
                Ok(claim)
            }
            Err(refuse) => {
                self.spoilt = self.spoilt || refuse.spoils();
                Err(refuse)
            }
        }
    }

    fn segment_of(&self, task: &Claim) -> Option<(ActorName, u64)> {
        match task.event {
            Event::Go(a) => Some((a, task.at)),
            _ => None,
        }
    }

    fn propose(&mut self, _alloc: Global, task: &mut Claim) -> Result<(), NoMemory> {
        task.tried = true;
        if self.rich { Ok(()) } else { Err(NoMemory) }
    }

    fn commit<R: Wait>(
        &mut self,
        rt: &R,
        _alloc: Global,
        task: Claim,
    ) -> Result<Committed, Refuse> {
        self.out = self.out.saturating_sub(1);
        let answer = self.toy.lock(rt).commit(task.actor);
        noted(&mut self.spoilt, answer)
    }

    fn direct<R: Wait>(&mut self, rt: &R, _alloc: Global, e: Event) -> Result<Committed, Refuse> {
        let answer = self.toy.lock(rt).direct(e);
        noted(&mut self.spoilt, answer)
    }

    fn ask_stop<R: Wait>(&mut self, rt: &R) {
        let mut toy = self.toy.lock(rt);
        toy.stops = toy.stops.saturating_add(1);
    }
}
