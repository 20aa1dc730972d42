// The workers of a pool.

ghost use Rattle.std.specs.Prelude.{◌≡◌, All, map, true};

use crate::crew::Crew;
use crate::hints::{Hints, Place};
use crate::worker::run;
use orca_names::NoMemory;
use outside_world::Gate;
use std::alloc::Global;
use std::sync::Wait;
use std::thread;
use std::thread::Threads;
use work_board::Board;

// A place for each worker.
fn places_of(alloc: Global, count: usize) -> Result<Vec<Place>, NoMemory> {
    let mut places = Vec::with_capacity(alloc, count)?;
    for _ in 0..count {
        places.push(Place::new())?;
    }
    Ok(places)
}

// One worker for each board. Where there are no places, each goes by its board alone.
fn work_in<R: Threads + Wait + Sync, B: Board + Send, G: Gate + Sync>(
    rt: &R,
    alloc: Global,
    boards: &mut [B],
    places: &[Place],
    gate: &G,
)
    requires idle { All (λ b. B.out b ≡ 0) boards.old }
    ensures ended { All (λ b. B.ended b ≡ true) boards.new }
    ensures idle { All (λ b. B.out b ≡ 0) boards.new }
    ensures halls { map B.hall boards.new ≡ map B.hall boards.old }
{
    let count = boards.len();
    if count == 0 {
        return;
    }
    let gate = if count == 1 { None } else { Some(gate) };
    let crew = Crew::new();
    thread::for_each_mut(
        rt,
        boards,
        count,
        &|number, board|
            requires { B.out board.now ≡ 0 }
            ensures ended { B.ended board.exit.now ≡ true }
            ensures hall { B.hall board.exit.now ≡ B.hall board.entry.now }
            ensures out { B.out board.exit.now ≡ 0 }
        {
            run(
                rt,
                alloc,
                board,
                Hints::open(alloc, places, number),
                &crew,
                gate,
            )
        },
    );
}

/// Works on each board until it has ended, one worker for each: in threads, and one after the other
/// where none can be made.
///
/// A worker takes the name of an actor from its own deque, or else steals one from another's, or else
/// asks its board. Names are hints: one that is refused is forgotten. Where there is memory for no
/// deque it goes by its board alone. It takes the actor up, and stays with it while its board goes on with
/// it; what else the actor has to do it enters at once where its board finds that short.
///
/// Who keeps no name asks others, and its board, only where it alone is awake or another is at an
/// evaluation for a while: turns at the board cost more than short evaluations bring. Else, or where it
/// finds nothing, it rests, and looks up again after some milliseconds at most, or when a worker ends.
/// The last one that is awake never rests, and it alone makes the detector's events entries.
///
/// Several workers pass the gate before each segment that they evaluate.
pub fn work<R: Threads + Wait + Sync, B: Board + Send, G: Gate + Sync>(
    rt: &R,
    alloc: Global,
    boards: &mut [B],
    gate: &G,
)
    requires idle { All (λ b. B.out b ≡ 0) boards.old }
    ensures ended { All (λ b. B.ended b ≡ true) boards.new }
    ensures idle { All (λ b. B.out b ≡ 0) boards.new }
    ensures halls { map B.hall boards.new ≡ map B.hall boards.old }
{
    match places_of(alloc, boards.len()) {
        Ok(places) => work_in(rt, alloc, boards, &places, gate),
        Err(NoMemory) => work_in(rt, alloc, boards, &[], gate),
    }
}
