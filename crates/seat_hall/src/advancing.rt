// A commit that goes on with its actor, under the same turn.

ghost use Rattle.std.specs.Prelude.{◌≡◌, ◌+◌, ◌∷◌, ◌++◌, [], IfErr, IfNone, IfOk, IfSome, None, OnErr, Some};
ghost use Rattle.seat_hall.specs.Advances.{Advances, ClaimsOn, IsNext, IsTakenUp, IsUnder, TakesOn, TakesUp, claiming, taking};
ghost use Rattle.seat_hall.specs.Answers.{RefusesEntry};
ghost use Rattle.seat_hall.specs.Passes.{Calls, IsSeated, MayCommit, StaysWith, StaysWithout, out};
ghost use Rattle.seat_hall.specs.declared.item.Item.TheVariants.{Ended};

use crate::pass::{give_back, keep_room, turn, write_back, write_item};
use crate::rule::{HallLog, PassSeat};
use crate::task::SeatTask;
use actor_cell::Found;
use event_rule::Event;
use orca_names::ActorName;
use std::alloc::Global;
use std::sync::Wait;
use work_board::{Committed, Refuse};

// Makes the taking of the actor's first letter an entry, unless that is refused. The turn stays.
fn take_on<'a>(
    alloc: Global,
    log: &HallLog<'a>,
    seat: &mut PassSeat<'a>,
    number: u32,
    a: ActorName,
) -> bool
    requires { IsUnder log.now number seat.old }
    ensures { TakesOn log.now number a result seat.old seat.new }
{
    let mut hall = log.take(seat);
    match hall.hall.enter(alloc, number, Event::Take(a), &mut None) {
        Ok(_done) => {
            write_item(log, seat, number, hall);
            true
        }
        Err(_refuse) => {
            log.put(seat, hall);
            false
        }
    }
}

// Claims the actor where its next event is an act, and passes the turn on.
fn claim_on<'a>(
    log: &HallLog<'a>,
    seat: &mut PassSeat<'a>,
    number: u32,
    a: ActorName,
    next: &mut Option<SeatTask<'a>>,
)
    requires under { IsUnder log.now number seat.old }
    requires free { next.old ≡ None }
    ensures { ClaimsOn number a next.new seat.old seat.new }
{
    let mut hall = log.take(seat);
    match hall.hall.claim_act(number, a) {
        Some(taken) => {
            write_back(log, seat, number, hall);
            *next = Some(SeatTask::of(taken));
        }
        None => give_back(log, seat, number, hall),
    }
}

/// Takes up an actor: where it has a letter to take this becomes an entry, unless that is refused, and where
/// its next event is an act it is claimed. All is done under one turn. Tells whether there is an entry.
pub(crate) fn take_up<'a, R: Wait>(
    rt: &R,
    alloc: Global,
    log: &HallLog<'a>,
    seat: &mut PassSeat<'a>,
    number: u32,
    a: ActorName,
    next: &mut Option<SeatTask<'a>>,
) -> bool
    requires seated { IsSeated log.now number seat.old }
    requires free { next.old ≡ None }
    ensures stays { StaysWith number 1 seat.old seat.new }
    ensures claim { IfSome next.new (IsTakenUp number a seat.old seat.new) }
    ensures none { IfNone next.new (out number seat.new ≡ out number seat.old) }
    ensures calls { Calls number seat.old seat.new
        (taking number a result ++ claiming number a next.new) (TakesUp number a result next.new) }
{
    let hall = turn(rt, log, seat, number);
    log.put(seat, hall);
    let took = take_on(alloc, log, seat, number, a);
    claim_on(log, seat, number, a, next);
    took
}

/// Commits the task, and goes on with its actor: where it has a letter to take this becomes an entry at
/// once, and where its next event is an act it is claimed. All is done under one turn. The room of what was
/// found is kept.
///
/// # Errors
/// As `commit`. The actor isn't claimed then.
pub(crate) fn advance<'a, R: Wait>(
    rt: &R,
    alloc: Global,
    log: &HallLog<'a>,
    seat: &mut PassSeat<'a>,
    number: u32,
    task: SeatTask<'a>,
    next: &mut Option<SeatTask<'a>>,
    room: &mut Option<Box<Found>>,
) -> Result<Committed, Refuse>
    requires seated { IsSeated log.now number seat.old }
    requires may { MayCommit number seat.old task }
    requires free { next.old ≡ None }
    ensures stays { StaysWithout number task.entry.taken.cell.heap.owner seat.old seat.new }
    ensures claim { let a = task.entry.taken.cell.heap.owner in
        IfSome next.new (IsNext number a seat.old seat.new) }
    ensures left { IfNone next.new (out number seat.old ≡ out number seat.new + 1) }
    ensures ok { let taken = task.entry.taken in IfOk result (λ done.
        Advances number taken.cell.heap.owner taken.event done next.new seat.old seat.new) }
    ensures refused { let a = task.entry.taken.cell.heap.owner in IfErr result (λ refuse.
        Calls number seat.old seat.new (Ended number a ∷ [])
        (RefusesEntry (Some number) task.entry.taken.event refuse)) }
    ensures none { OnErr result (next.new ≡ None) }
{
    let SeatTask {
        taken,
        mut found,
        ..
    } = task;
    let a = taken.cell.owner();
    let mut hall = turn(rt, log, seat, number);
    match hall.hall.commit(alloc, number, taken, &mut found) {
        Ok(done) => {
            write_item(log, seat, number, hall);
            take_on(alloc, log, seat, number, a);
            claim_on(log, seat, number, a, next);
            keep_room(room, found);
            Ok(done)
        }
        Err(refuse) => {
            write_back(log, seat, number, hall);
            keep_room(room, found);
            Err(refuse)
        }
    }
}
