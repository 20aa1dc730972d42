// Workers over a toy run.

use crate::ending::{end_by, work_in_time};
use crate::toy::{Toy, ToyPass, run_of};
use orca_names::ActorName;
use outside_world::{Gate, HoldGate, OpenGate};
use std::process::Abort;
use std::sync::atomic::{AtomicU64, Ordering};
use std::sync::{Mutex, Wait};
use std::thread;
use std::thread::Threads;
use steal_pool::work;
use work_board::TroubleBoard;

/// How often one of two actors looks for the other.
const TRIES: u64 = 1_000_000;

/// How many workers there are where work comes late.
const CREW: u32 = 16;

/// Their passes, a bit for each.
const ALL: u64 = 0xffff;

/// A gate that counts who passes.
#[derive(Drop)]
struct Counter {
    passed: AtomicU64,
}

impl Gate for Counter {
    fn enter<R: Wait>(&self, _rt: &R, _who: ActorName, _at: u64) {
        self.passed.fetch_add(1, Ordering::SeqCst);
    }
}

// Whether so many workers leave nothing to do, and pass the gate so often.
fn leave_nothing<R>(rt: &R, workers: u32, rich: bool, turns: u64) -> bool
where
    R: Abort + AllocGlobal + Threads + Wait + Sync,
{
    let toy = run_of(rt, &[30, 0, 7, 100, 1]);
    let passed = AtomicU64::new(0);
    let gate = Counter { passed };
    let end = end_by(rt, &toy, workers, rich, &gate);
    end.is_whole(139) && gate.passed.load(Ordering::SeqCst) == turns
}

#[test]
fn workers_leave_nothing_to_do(rt: HostRuntime) {
    // Half of the events are turns. With one worker there is no gate, and without memory for
    // evaluations every event is committed all the same.
    for (workers, rich, turns) in [(1, true, 0), (2, true, 68), (4, true, 68), (3, false, 68)] {
        assert!(rt; leave_nothing(&rt, workers, rich, turns));
    }
}

#[test]
fn no_worker_needs_no_board(rt: HostRuntime) {
    let none: &mut [ToyPass<'static>] = &mut [];
    work(&rt, rt.alloc(), none, &OpenGate);
}

// Whether two workers stand before segments of two actors at once.
fn two_meet<R: Abort + AllocGlobal + Threads + Wait + Sync>(rt: &R) -> bool {
    let toy = run_of(rt, &[2, 2]);
    let gate = HoldGate::new(ActorName(0), ActorName(1), TRIES);
    let end = end_by(rt, &toy, 2, true, &gate);
    end.is_whole(5) && gate.met()
}

#[test]
fn two_workers_stand_at_a_gate_at_once(rt: HostRuntime) {
    for _ in 0..200 {
        assert!(rt; two_meet(&rt));
    }
}

/// A gate that holds the segment before the first entry until every worker has looked for work. Later
/// ones meet.
#[derive(Drop)]
struct LateGate<'t> {
    toy: &'t Mutex<Toy>,
    meeting: HoldGate,
}

impl Gate for LateGate<'_> {
    fn enter<R: Wait>(&self, rt: &R, who: ActorName, at: u64) {
        if at > 0 {
            self.meeting.enter(rt, who, at);
            return;
        }
        for _ in rt.forever() {
            if self.toy.lock(rt).looked == ALL {
                return;
            }
            thread::yield_now();
        }
    }
}

// A run whose actors behind the first one have no event before they are woken.
fn line_of<R: Abort + AllocGlobal + Wait>(rt: &R, left: &[u32]) -> Mutex<Toy> {
    let toy = run_of(rt, left);
    toy.lock(rt).awake = 1;
    toy
}

// Whether a worker that found nothing takes up what comes late, while another is held at its segment,
// and all is done in the end.
fn late_work_is_done<R: Abort + AllocGlobal + Threads + Wait + Sync>(rt: &R) -> bool {
    let toy = line_of(rt, &[4, 2, 3, 3]);
    let meeting = HoldGate::new(ActorName(0), ActorName(1), TRIES);
    let gate = LateGate { toy: &toy, meeting };
    let end = end_by(rt, &toy, CREW, true, &gate);
    end.is_whole(13) && gate.meeting.met()
}

#[test]
fn workers_at_rest_take_up_what_comes_late(rt: HostRuntime) {
    for _ in 0..50 {
        assert!(rt; late_work_is_done(&rt));
    }
}

#[test]
fn many_workers_follow_one_line(rt: HostRuntime) {
    for _ in 0..200 {
        let end = end_by(&rt, &line_of(&rt, &[1; 24]), CREW, true, &OpenGate);
        assert!(rt; end.is_whole(25));
    }
}

// How many entries are made where the looks of one of two workers answer these names.
fn entries_despite<R>(rt: &R, toy: &Mutex<Toy>, wrong: Vec<(u64, ActorName)>) -> u64
where
    R: Abort + AllocGlobal + Threads + Wait + Sync,
{
    let mut boards = [
        TroubleBoard::new(ToyPass::new(toy, 0, true), wrong),
        TroubleBoard::new(ToyPass::new(toy, 1, true), Vec::new(rt.alloc())),
    ];
    work_in_time(rt, &mut boards, &OpenGate);
    toy.lock(rt).entries
}

#[test]
fn wrong_names_are_forgotten(rt: HostRuntime) {
    let wrong = [(1, ActorName(70000)), (2, ActorName(1)), (4, ActorName(9))];
    let wrong = wrong.to_vec(rt.alloc()).expect(&rt, "memory");
    let toy = run_of(&rt, &[5, 4, 3]);
    let entries = entries_despite(&rt, &toy, wrong);
    assert!(rt; entries == 13);
}

#[test]
fn a_worker_without_room_stops_all(rt: HostRuntime) {
    let toy = run_of(&rt, &[50, 4, 50]);
    toy.lock(&rt).full = Some(ActorName(1));
    let end = end_by(&rt, &toy, 2, true, &OpenGate);
    assert!(rt; end.ended && end.stops > 0 && end.entries <= 101);
}

#[test]
fn a_spent_budget_ends_all_without_a_stop(rt: HostRuntime) {
    let toy = run_of(&rt, &[50, 50]);
    toy.lock(&rt).budget = 60;
    let end = end_by(&rt, &toy, 2, true, &OpenGate);
    assert!(rt; end.is_whole(60));
}
