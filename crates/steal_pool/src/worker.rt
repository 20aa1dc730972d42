// One worker.

ghost use Rattle.std.specs.Prelude.{◌≡◌, ◌≤◌, true, IfNone, IsSomeAnd, Some};
ghost use Rattle.event_rule.specs.Events.{actor_of};
ghost use Rattle.work_board.specs.Answered.{is_spoiling};

use crate::crew::{Crew, FIRST_PAUSE};
use crate::hints::Hints;
use event_rule::Event;
use orca_names::ActorName;
use outside_world::Gate;
use std::alloc::Global;
use std::sync::Wait;
use work_board::{Board, Committed, Look, Refuse};

/// How often in a row a worker commits a task of one actor, and enters an event of the detector.
const STREAK: u32 = 64;

// The entry that was made. After a refusal that spoils the run it asks a stop; the other refusals are
// forgotten.
fn settle<R: Wait, B: Board>(
    rt: &R,
    board: &mut B,
    answer: Result<Committed, Refuse>,
) -> Option<Committed>
    requires { is_spoiling answer ≡ true → B.spoilt board.old ≡ true }
    ensures hall { B.hall board.new ≡ B.hall board.old }
    ensures out { B.out board.new ≡ B.out board.old }
{
    match answer {
        Ok(done) => Some(done),
        Err(refuse) => {
            if refuse.spoils() {
                board.ask_stop(rt);
            }
            None
        }
    }
}

// Evaluates the task, past the gate where it is a segment of a turn. Where the evaluation finds no memory the
// board evaluates at the commit.
fn evaluate<R: Wait, B: Board, G: Gate>(
    rt: &R,
    alloc: Global,
    board: &mut B,
    hints: &Hints,
    gate: Option<&G>,
    task: &mut B::Task,
)
    ensures tried { B.tried task.new ≡ true }
    ensures event { B.event task.new ≡ B.event task.old }
    ensures owns { B.owns board.old task.old → B.owns board.new task.new }
    ensures same { board.new ≡ board.old }
{
    let segment = board.segment_of(task);
    hints.step();
    if let (Some(gate), Some((who, at))) = (gate, segment) {
        gate.enter(rt, who, at);
    }
    let _ = board.propose(alloc, task);
    hints.step();
}

// Keeps the name of the actor that an entry woke, or settles why there is none. Tells whether there is one.
fn keep_woken<R: Wait, B: Board>(
    rt: &R,
    board: &mut B,
    hints: &mut Hints,
    answer: Result<Committed, Refuse>,
) -> bool
    requires { is_spoiling answer ≡ true → B.spoilt board.old ≡ true }
    ensures hall { B.hall board.new ≡ B.hall board.old }
    ensures out { B.out board.new ≡ B.out board.old }
{
    let Some(done) = settle(rt, board, answer) else {
        return false;
    };
    if let Some(name) = done.woke {
        hints.keep(name);
    }
    true
}

// Keeps the name of the actor that was woken, if it is another than the one that the worker stays with.
fn keep_other(hints: &mut Hints, a: ActorName, woke: Option<ActorName>) {
    match woke {
        Some(name) if name != a => hints.keep(name),
        _ => {}
    }
}

// Enters the last event for now of an actor that seems to go on, and keeps the actor's name.
fn enter_last<R: Wait, B: Board, G: Gate>(
    rt: &R,
    alloc: Global,
    board: &mut B,
    hints: &mut Hints,
    gate: Option<&G>,
    a: ActorName,
    mut task: B::Task,
)
    requires owns { B.owns board.old task }
    requires one { B.out board.old ≤ 1 }
    ensures hall { B.hall board.new ≡ B.hall board.old }
    ensures out { B.out board.new ≡ 0 }
{
    evaluate(rt, alloc, board, hints, gate, &mut task);
    let answer = board.commit(rt, alloc, task);
    if let Some(done) = settle(rt, board, answer) {
        keep_other(hints, a, done.woke);
    }
    hints.keep(a);
}

// Enters events of the actor, one after the other, from this claim on, while the board goes on with it. Keeps
// the names that are woken. Tells whether it entered any.
fn stay_with<R: Wait, B: Board, G: Gate>(
    rt: &R,
    alloc: Global,
    board: &mut B,
    hints: &mut Hints,
    gate: Option<&G>,
    a: ActorName,
    mut task: Option<B::Task>,
) -> bool
    requires one { B.out board.old ≤ 1 }
    requires owns { IsSomeAnd task (B.owns board.old) }
    requires actor { IsSomeAnd task (λ claim. actor_of (B.event claim) ≡ Some a) }
    ensures hall { B.hall board.new ≡ B.hall board.old }
    ensures out { B.out board.new ≡ 0 }
{
    for entries in 1..STREAK {
        let Some(claim) = &mut task else {
            unreachable!()
        };
        evaluate(rt, alloc, board, hints, gate, claim);
        let answer = board.advance(rt, alloc, a, &mut task);
        if task.is_none() {
            let None = task else { unreachable!() };
            return keep_woken(rt, board, hints, answer) || entries > 1;
        }
        if let Ok(done) = answer {
            keep_other(hints, a, done.woke);
        }
    }
    let Some(claim) = task else { unreachable!() };
    enter_last(rt, alloc, board, hints, gate, a, claim);
    true
}

// Enters what the actor has to do beside letters and its turn: at once where that is short, else by a claim, and
// then it stays with the actor. Tells whether it entered any event.
fn enter_rest<R: Wait, B: Board, G: Gate>(
    rt: &R,
    alloc: Global,
    board: &mut B,
    hints: &mut Hints,
    gate: Option<&G>,
    a: ActorName,
) -> bool
    requires { B.out board.old ≡ 0 }
    ensures hall { B.hall board.new ≡ B.hall board.old }
    ensures out { B.out board.new ≡ 0 }
{
    let answer = board.enter_first(rt, alloc, a);
    if keep_woken(rt, board, hints, answer) {
        return true;
    }
    match board.claim(rt, alloc, a) {
        Ok(claim) => stay_with(rt, alloc, board, hints, gate, a, Some(claim)),
        Err(refuse) => {
            settle(rt, board, Err(refuse));
            false
        }
    }
}

// Takes the actor up, and stays with it where it is claimed then. Where it had no letter to take it does what else
// the actor has to do. Tells whether it entered any event.
fn try_actor<R: Wait, B: Board, G: Gate>(
    rt: &R,
    alloc: Global,
    board: &mut B,
    hints: &mut Hints,
    gate: Option<&G>,
    a: ActorName,
) -> bool
    requires { B.out board.old ≡ 0 }
    ensures hall { B.hall board.new ≡ B.hall board.old }
    ensures out { B.out board.new ≡ 0 }
{
    let mut task = None;
    let answer = board.take_up(rt, alloc, a, &mut task);
    if task.is_some() {
        return stay_with(rt, alloc, board, hints, gate, a, task) || matches!(answer, Ok(true));
    }
    let None = task else { unreachable!() };
    match answer {
        Ok(true) => true,
        Ok(false) => enter_rest(rt, alloc, board, hints, gate, a),
        Err(refuse) => {
            settle(rt, board, Err(refuse));
            false
        }
    }
}

// Makes the detector's event an entry, and goes on while it hears what wakes nobody. Tells whether it
// entered any.
fn serve_detector<R: Wait, B: Board>(
    rt: &R,
    alloc: Global,
    board: &mut B,
    hints: &mut Hints,
    e: Event,
) -> bool
    ensures hall { B.hall board.new ≡ B.hall board.old }
    ensures out { B.out board.new ≡ B.out board.old }
{
    for entries in 0..STREAK {
        let answer = board.direct(rt, alloc, e);
        let Some(done) = settle(rt, board, answer) else {
            return entries > 0;
        };
        if let Some(name) = done.woke {
            hints.keep(name);
            return true;
        }
        if e != Event::Hear {
            return true;
        }
    }
    true
}

// What a worker does that keeps no name: it follows another's hint, or else does what the board knows of, the
// detector's events only where it alone is awake. Tells whether it entered any event; `None` where it ends.
fn serve_others<R: Wait, B: Board, G: Gate>(
    rt: &R,
    alloc: Global,
    board: &mut B,
    hints: &mut Hints,
    gate: Option<&G>,
    alone: bool,
) -> Option<bool>
    requires { B.out board.old ≡ 0 }
    ensures ended { IfNone result (B.ended board.new ≡ true) }
    ensures hall { B.hall board.new ≡ B.hall board.old }
    ensures out { B.out board.new ≡ 0 }
{
    if let Some(a) = hints.steal() {
        return Some(try_actor(rt, alloc, board, hints, gate, a));
    }
    match board.look(rt) {
        Look::Actor(a) => Some(try_actor(rt, alloc, board, hints, gate, a)),
        Look::Detector(e) if alone => Some(serve_detector(rt, alloc, board, hints, e)),
        Look::Detector(_) | Look::Others => Some(false),
        Look::Rest | Look::Stop => None,
    }
}

/// Works until there is nothing to do, or a stop was asked. It passes the gate, if there is one, before
/// each segment that it evaluates. Where it keeps no name and isn't to ask others, it tries nothing, unless
/// another worker is at an evaluation for a while.
pub(crate) fn run<R: Wait, B: Board, G: Gate>(
    rt: &R,
    alloc: Global,
    board: &mut B,
    mut hints: Hints,
    crew: &Crew,
    gate: Option<&G>,
)
    requires { B.out board.old ≡ 0 }
    ensures ended { B.ended board.new ≡ true }
    ensures hall { B.hall board.new ≡ B.hall board.old }
    ensures out { B.out board.new ≡ 0 }
{
    let mut pause = FIRST_PAUSE;
    let mut rested = false;
    crew.rise();
    for _ in rt.forever() {
        if let Some(a) = hints.next() {
            try_actor(rt, alloc, board, &mut hints, gate, a);
            continue;
        }
        let alone = crew.is_alone();
        let mut busy = false;
        if alone || rested || hints.may_join() {
            let Some(did) = serve_others(rt, alloc, board, &mut hints, gate, alone) else {
                crew.leave();
                return;
            };
            busy = did;
        }
        rested = !busy && !alone;
        pause = if rested {
            crew.rest(rt, &hints, pause)
        } else {
            FIRST_PAUSE
        };
    }
    unreachable!()
}
