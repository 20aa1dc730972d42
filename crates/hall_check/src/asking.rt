// What is asked of a hall, and what it is to answer, as rows of tables.

ghost use Rattle.std.specs.Prelude.{◌≡◌};

use event_rule::Event;
use orca_names::{ActorName, Serial};
use std::process::Abort;
use std::sync::Wait;
use work_board::{Committed, Look, Refuse};

pub(crate) const TAKE: u8 = 0;

pub(crate) const GO: u8 = 1;

pub(crate) const COLLECT: u8 = 2;

pub(crate) const BLOCK: u8 = 4;

pub(crate) const HEAR: u8 = 5;

pub(crate) const SCAN: u8 = 6;

pub(crate) const REAP: u8 = 7;

/// The event of this kind, of this actor or token.
pub(crate) fn event(kind: u8, number: u32) -> Event {
    let actor = ActorName(number);
    match kind {
        TAKE => Event::Take(actor),
        GO => Event::Go(actor),
        COLLECT => Event::Collect(actor),
        BLOCK => Event::Block(actor),
        HEAR => Event::Hear,
        SCAN => Event::Scan,
        _ => Event::Reap(Serial::of(u64::from(number))),
    }
}

/// A call of the hall. Passes and actors are told by their numbers, events by their kind and number.
#[derive(Clone, Copy)]
pub(crate) enum Call {
    Look,
    Stop,
    /// A claim, which is kept.
    Claim(u32, u32),
    /// A commit of the claim that is kept.
    Commit(u32),
    /// A claim, and its commit at once.
    Enter(u32, u32),
    /// A commit without a proposal.
    Plain(u32, u8, u32),
    Direct(u8, u32),
}

/// What is wanted of it.
#[derive(Clone, Copy)]
pub(crate) enum Want {
    Nothing,
    /// This actor has something to do.
    Tells(u32),
    Others,
    Rest,
    Stop,
    /// A claim, for this event.
    Grants(u8, u32),
    /// A claim for a segment of this actor, at this length of the book.
    Lends(u32, u64),
    /// A claim for another event.
    LendsNone,
    /// An entry at this place, which wakes no actor.
    At(u64),
    /// An entry at this place, which wakes this actor.
    Wakes(u64, u32),
    /// This many actors are made.
    Unknown(u64),
    Gone,
    /// A claim of this pass is out.
    Busy(u32),
    NotReady,
    /// The book is this long.
    Budget(u64),
}

use Want::{At, Budget, Busy, Gone, Grants, NotReady, Tells, Unknown, Wakes};

/// What the hall answers.
#[derive(Clone, Copy, Debug, PartialEq, Eq)]
pub(crate) enum Answer {
    Nothing,
    Told(Look),
    Granted(Event),
    Lent(Option<(ActorName, u64)>),
    Entered(Committed),
    Refused(Refuse),
}

fn entered(place: u64, woke: Option<ActorName>) -> Answer {
    Answer::Entered(Committed { place, woke })
}

/// The answer that is wanted.
pub(crate) fn answer_of(want: Want) -> Answer {
    match want {
        Want::Nothing => Answer::Nothing,
        Want::Tells(actor) => Answer::Told(Look::Actor(ActorName(actor))),
        Want::Others => Answer::Told(Look::Others),
        Want::Rest => Answer::Told(Look::Rest),
        Want::Stop => Answer::Told(Look::Stop),
        Want::Grants(kind, number) => Answer::Granted(event(kind, number)),
        Want::Lends(actor, at) => Answer::Lent(Some((ActorName(actor), at))),
        Want::LendsNone => Answer::Lent(None),
        Want::At(place) => entered(place, None),
        Want::Wakes(place, actor) => entered(place, Some(ActorName(actor))),
        Want::Unknown(made) => Answer::Refused(Refuse::Unknown { made }),
        Want::Gone => Answer::Refused(Refuse::Gone),
        Want::Busy(holder) => Answer::Refused(Refuse::Busy { holder }),
        Want::NotReady => Answer::Refused(Refuse::NotReady),
        Want::Budget(length) => Answer::Refused(Refuse::Budget { length }),
    }
}

/// What a commit or a direct entry answers.
pub(crate) fn entry(answer: Result<Committed, Refuse>) -> Answer {
    match answer {
        Ok(done) => Answer::Entered(done),
        Err(refuse) => Answer::Refused(refuse),
    }
}

/// A pass, with the claim that it keeps.
pub(crate) trait Keeper {
    /// What tells one hall from another.
    ghost Hall: { Type 0 };

    /// The hall that the pass is of.
    ghost hall: { Self → Hall };

    fn look<R: Wait>(&mut self, rt: &R) -> Answer
        ensures { hall self.new ≡ hall self.old };

    /// Claims the actor, and keeps the claim.
    fn claim<R: Abort + AllocGlobal + Wait>(&mut self, rt: &R, actor: u32) -> Answer
        ensures { hall self.new ≡ hall self.old };

    /// Evaluates the claim that is kept, and commits it.
    fn commit<R: AllocGlobal + Wait>(&mut self, rt: &R) -> Answer
        ensures { hall self.new ≡ hall self.old };

    fn direct<R: AllocGlobal + Wait>(&mut self, rt: &R, e: Event) -> Answer
        ensures { hall self.new ≡ hall self.old };
}

/// A claim, and its commit at once.
fn enter<R: Abort + AllocGlobal + Wait, K: Keeper>(rt: &R, pass: &mut K, actor: u32) -> Answer
    ensures { K.hall pass.new ≡ K.hall pass.old }
{
    match pass.claim(rt, actor) {
        Answer::Refused(refuse) => Answer::Refused(refuse),
        _ => pass.commit(rt),
    }
}

/// A call of a pass.
fn make<R: Abort + AllocGlobal + Wait, K: Keeper>(rt: &R, pass: &mut K, call: Call) -> Answer
    ensures { K.hall pass.new ≡ K.hall pass.old }
{
    match call {
        Call::Look => pass.look(rt),
        Call::Claim(_, actor) => pass.claim(rt, actor),
        Call::Commit(_) => pass.commit(rt),
        Call::Enter(_, actor) => enter(rt, pass, actor),
        Call::Direct(kind, number) => pass.direct(rt, event(kind, number)),
        Call::Stop | Call::Plain(..) => Answer::Nothing,
    }
}

/// Whether the call is one of pass 1. Pass 0 looks, and enters without a claim.
fn is_of_second(call: Call) -> bool {
    match call {
        Call::Claim(pass, _) | Call::Commit(pass) | Call::Enter(pass, _) => pass == 1,
        _ => false,
    }
}

/// Whether each call of two passes, 0 and 1, answers as it is wanted.
pub(crate) fn answers<R: Abort + AllocGlobal + Wait, K: Keeper>(
    rt: &R,
    first: &mut K,
    second: &mut K,
    rows: &[(Call, Want)],
) -> bool
    ensures first { K.hall first.new ≡ K.hall first.old }
    ensures second { K.hall second.new ≡ K.hall second.old }
{
    for (call, wanted) in rows {
        let answer = if is_of_second(*call) {
            make(rt, second, *call)
        } else {
            make(rt, first, *call)
        };
        if answer != answer_of(*wanted) {
            return false;
        }
    }
    true
}

/// Two passes: the second one goes on while the first has a claim, which is then refused, since the
/// actor has got a letter.
pub(crate) const TWO_PASSES: &[(Call, Want)] = &[
    (Call::Enter(1, 0), At(0)),
    (Call::Enter(1, 0), Wakes(1, 1)),
    (Call::Claim(0, 1), Grants(BLOCK, 1)),
    (Call::Enter(1, 1), Busy(0)),
    (Call::Enter(0, 1), Busy(0)),
    (Call::Direct(BLOCK, 1), Busy(0)),
    (Call::Look, Tells(0)),
    (Call::Enter(1, 0), Wakes(2, 2)),
    (Call::Enter(1, 0), Wakes(3, 1)),
    (Call::Commit(0), NotReady),
];

/// Within a budget of one entry.
pub(crate) const ONE_ENTRY: &[(Call, Want)] = &[
    (Call::Claim(0, 5), Unknown(1)),
    (Call::Claim(0, 0), Grants(TAKE, 0)),
    (Call::Claim(1, 0), Busy(0)),
    (Call::Look, Want::Others),
    (Call::Commit(0), At(0)),
    (Call::Claim(1, 0), Grants(GO, 0)),
    (Call::Commit(1), Budget(1)),
    (Call::Look, Want::Stop),
    (Call::Direct(GO, 0), Budget(1)),
    (Call::Direct(SCAN, 0), NotReady),
];

/// A run event by event, to its end by a token.
pub(crate) const BY_EVENTS: &[(Call, Want)] = &[
    (Call::Claim(0, 5), Unknown(1)),
    (Call::Direct(TAKE, 0), At(0)),
    (Call::Direct(GO, 0), At(1)),
    (Call::Direct(GO, 0), At(2)),
    (Call::Direct(COLLECT, 0), At(3)),
    (Call::Direct(BLOCK, 0), At(4)),
    (Call::Direct(HEAR, 0), At(5)),
    (Call::Direct(SCAN, 0), Wakes(6, 0)),
    (Call::Direct(TAKE, 0), At(7)),
    (Call::Direct(HEAR, 0), At(8)),
    (Call::Direct(REAP, 1), At(9)),
    (Call::Claim(0, 0), Gone),
    (Call::Look, Want::Rest),
];
