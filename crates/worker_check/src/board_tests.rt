// A board with wrong hints, over one of a toy run that tells what reached it.

ghost use Rattle.std.specs.Prelude.{◌≡◌, IsTrue, true};

use crate::toy::{Toy, ToyPass, run_of};
use event_rule::Event;
use orca_names::ActorName;
use std::sync::{Mutex, Wait};
use work_board::{Board, Committed, Look, Refuse, TroubleBoard};

/// What the next look answers, and how many looks have then reached the run.
fn look<R: Wait, B: Board>(rt: &R, toy: &Mutex<Toy>, board: &mut B) -> (Look, u64) {
    (board.look(rt), toy.lock(rt).looks)
}

/// Whether the second and the fourth of four looks reach a run that has no actor, and the others answer
/// names.
fn looks_twice<R: Wait, B: Board>(rt: &R, toy: &Mutex<Toy>, board: &mut B) -> bool {
    look(rt, toy, board) == (Look::Actor(ActorName(70000)), 0)
        && look(rt, toy, board) == (Look::Detector(Event::Scan), 1)
        && look(rt, toy, board) == (Look::Actor(ActorName(1)), 1)
        && look(rt, toy, board) == (Look::Detector(Event::Scan), 2)
}

#[test]
fn chosen_looks_answer_wrong_names(rt: HostRuntime) {
    let wrong = [(1, ActorName(70000)), (3, ActorName(1)), (3, ActorName(2))];
    let wrong = wrong.to_vec(rt.alloc()).expect(&rt, "memory");
    let toy = run_of(&rt, &[]);
    let mut board = TroubleBoard::new(ToyPass::new(&toy, 0, true), wrong);
    assert!(rt; looks_twice(&rt, &toy, &mut board));
}

#[test]
fn a_worker_ends_at_rest_or_at_a_stop(rt: HostRuntime) {
    assert!(rt; Look::Rest.is_end() && Look::Stop.is_end() && !Look::Others.is_end());
}

/// Whether a pass of the board finds no memory for the second of two actors, and then no room.
fn finds_no_room<R: AllocGlobal + Wait, B: Board>(rt: &R, board: &mut B) -> bool
    ensures { IsTrue result → B.spoilt board.new ≡ true }
{
    let Ok(mut task) = board.claim(rt, rt.alloc(), ActorName(1)) else {
        return false;
    };
    let segment = board.segment_of(&task);
    let starved = board.propose(rt.alloc(), &mut task).is_err();
    match board.commit(rt, rt.alloc(), task) {
        Err(Refuse::Full { .. }) => starved && segment == Some((ActorName(1), 0)),
        _ => false,
    }
}

/// Whether the scan is then the first entry, whatever stop is asked.
fn scans_first<R: AllocGlobal + Wait, B: Board>(rt: &R, board: &mut B) -> bool
    requires { B.spoilt board.old ≡ true }
{
    board.ask_stop(rt);
    let first = Committed {
        place: 0,
        woke: None,
    };
    board.direct(rt, rt.alloc(), Event::Scan) == Ok(first)
}

/// Whether what a board is told of a claim, a stop and an event is passed on.
fn passes_on<R: AllocGlobal + Wait, B: Board>(rt: &R, board: &mut B) -> bool {
    if !finds_no_room(rt, board) {
        return false;
    }
    scans_first(rt, board)
}

#[test]
fn all_else_is_passed_on(rt: HostRuntime) {
    let toy = run_of(&rt, &[2, 2]);
    toy.lock(&rt).full = Some(ActorName(1));
    let pass = ToyPass::new(&toy, 0, false);
    let passed = passes_on(&rt, &mut TroubleBoard::new(pass, Vec::new(rt.alloc())));
    let toy = toy.lock(&rt);
    assert!(rt; passed && toy.looks == 0 && toy.entries == 1 && toy.stops == 1);
}

/// What an entry answers that wakes the second actor.
fn entered(place: u64) -> Result<Committed, Refuse> {
    Ok(Committed {
        place,
        woke: Some(ActorName(1)),
    })
}

/// Whether a board goes on with an actor behind a letter and behind a segment, and then no further.
fn goes_on<R: AllocGlobal + Wait, B: Board>(rt: &R, board: &mut B) -> bool
where
    B::Task: Drop,
{
    let mut task = board.claim(rt, rt.alloc(), ActorName(0)).ok();
    for place in 0..3 {
        let Some(claim) = &mut task else {
            return false;
        };
        let _ = board.propose(rt.alloc(), claim);
        let answer = board.advance(rt, rt.alloc(), ActorName(0), &mut task);
        if answer != entered(place) {
            return false;
        }
    }
    task.is_none()
}

#[test]
fn a_board_goes_on_with_an_actor(rt: HostRuntime) {
    let toy = run_of(&rt, &[3]);
    let pass = ToyPass::new(&toy, 0, true);
    let well = goes_on(&rt, &mut TroubleBoard::new(pass, Vec::new(rt.alloc())));
    let toy = toy.lock(&rt);
    assert!(rt; well && toy.entries == 3 && toy.looks == 0);
}

/// Whether a board that takes an actor up claims it, as the toy run knows no entry without a claim.
fn takes_up<R: AllocGlobal + Wait, B: Board>(rt: &R, board: &mut B) -> bool
where
    B::Task: Drop,
{
    let mut none = None;
    let unknown = board.take_up(rt, rt.alloc(), ActorName(1), &mut none);
    let mut task = None;
    let answer = board.take_up(rt, rt.alloc(), ActorName(0), &mut task);
    unknown == Err(Refuse::Unknown { made: 1 }) && answer == Ok(false) && task.is_some()
}

#[test]
fn a_board_takes_an_actor_up(rt: HostRuntime) {
    let toy = run_of(&rt, &[3]);
    let pass = ToyPass::new(&toy, 0, true);
    assert!(rt; takes_up(&rt, &mut TroubleBoard::new(pass, Vec::new(rt.alloc()))));
}
