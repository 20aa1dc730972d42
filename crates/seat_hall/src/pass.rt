// What passes do under their turns.

ghost use Rattle.std.specs.Prelude.{◌≡◌, ◌+◌, ◌∷◌, [], IfErr, IfOk, None, OnErr, Some, ⊤};
ghost use Rattle.turn_log.specs.Seats.{knows};
ghost use Rattle.turn_log.specs.Knowing.{having_written};
ghost use Rattle.seat_hall.specs.Answers.{RefusesClaim, RefusesEntry, RefusesFirst, Tells};
ghost use Rattle.seat_hall.specs.Fair.{MayLeave, after_item};
ghost use Rattle.seat_hall.specs.Halls.{HallView};
ghost use Rattle.seat_hall.specs.Passes.{Calls, EntersFirst, GetsClaim, GetsTurn, Holds, IsSeated, MakesEntry, MayCommit, PassesOn, PutsBack, StaysWhole, StaysWith, StaysWithout, out};
ghost use Rattle.seat_hall.specs.declared.item.Item.TheVariants.{Ended, Stopped};

use crate::boxed::BoxedHall;
use crate::rule::{HallLog, PassSeat};
use crate::task::SeatTask;
use actor_cell::Found;
use event_rule::Event;
use orca_names::ActorName;
use std::alloc::Global;
use std::sync::Wait;
use work_board::{Committed, Look, Refuse};

// Waits for the turn, and takes the hall.
pub(crate) fn turn<'a, R: Wait>(
    rt: &R,
    log: &HallLog<'a>,
    seat: &mut PassSeat<'a>,
    number: u32,
) -> BoxedHall<'a>
    requires seated { IsSeated log.now number seat.old }
    ensures { GetsTurn log.now number seat.old seat.new result }
{
    log.take_turn(rt, seat)
}

// Puts the hall back as it was, and passes the turn on.
pub(crate) fn give_back<'a>(
    log: &HallLog<'a>,
    seat: &mut PassSeat<'a>,
    number: u32,
    hall: BoxedHall<'a>,
)
    requires holds { Holds log.now hall seat.old }
    requires number { (knows seat.old).client.numbers ≡ number ∷ [] }
    ensures { PassesOn number seat.old seat.new (knows seat.old) }
{
    log.put(seat, hall);
    log.pass_on(seat);
}

// Puts the hall back as a call of the pass left it, and writes the call's item.
pub(crate) fn write_item<'a>(
    log: &HallLog<'a>,
    seat: &mut PassSeat<'a>,
    number: u32,
    hall: BoxedHall<'a>,
)
    requires holds { (before : HallView) × Holds log.now before seat.old }
    requires may { MayLeave number (knows seat.old) hall }
    ensures { let h = hall.entry in
        PutsBack seat.old seat.new h (having_written after_item h.last (knows seat.old)) }
{
    log.put(seat, hall);
    log.write(seat);
}

// As `write_item`, and passes the turn on.
pub(crate) fn write_back<'a>(
    log: &HallLog<'a>,
    seat: &mut PassSeat<'a>,
    number: u32,
    hall: BoxedHall<'a>,
)
    requires holds { (before : HallView) × Holds log.now before seat.old }
    requires may { MayLeave number (knows seat.old) hall }
    ensures { PassesOn number seat.old seat.new
        (having_written after_item hall.entry.last (knows seat.old)) }
{
    write_item(log, seat, number, hall);
    log.pass_on(seat);
}

// Keeps the room of what was found, if there is any.
pub(crate) fn keep_room(room: &mut Option<Box<Found>>, found: Option<Box<Found>>) {
    if found.is_some() {
        *room = found;
    }
}

/// What there is to do.
pub(crate) fn look<'a, R: Wait>(
    rt: &R,
    log: &HallLog<'a>,
    seat: &mut PassSeat<'a>,
    number: u32,
) -> Look
    requires seated { IsSeated log.now number seat.old }
    ensures stays { StaysWhole number 1 seat.old seat.new }
    ensures call { Calls number seat.old seat.new [] (Tells result) }
{
    let hall = turn(rt, log, seat, number);
    let answer = hall.hall.look();
    give_back(log, seat, number, hall);
    answer
}

/// Claims the actor's first enabled event, and takes its cell out of the hall. It takes no memory.
///
/// # Errors
/// As `Hall::claim`.
pub(crate) fn claim<'a, R: Wait>(
    rt: &R,
    log: &HallLog<'a>,
    seat: &mut PassSeat<'a>,
    number: u32,
    a: ActorName,
) -> Result<SeatTask<'a>, Refuse>
    requires seated { IsSeated log.now number seat.old }
    ensures stays { StaysWith number 1 seat.old seat.new }
    ensures ok { IfOk result (λ task. GetsClaim number a task seat.old seat.new) }
    ensures none { OnErr result (out number seat.new ≡ out number seat.old) }
    ensures refused { IfErr result (λ refuse. Calls number seat.old seat.new [] (RefusesClaim a refuse)) }
{
    let mut hall = turn(rt, log, seat, number);
    match hall.hall.claim(number, a) {
        Ok(taken) => {
            write_back(log, seat, number, hall);
            Ok(SeatTask::of(taken))
        }
        Err(refuse) => {
            give_back(log, seat, number, hall);
            Err(refuse)
        }
    }
}

/// Puts the task's cell back, and makes its event an entry. Whatever it answers, the claim has ended;
/// after a refusal the cell is as it was. The room of what was found is kept.
///
/// # Errors
/// As `Hall::commit`.
pub(crate) fn commit<'a, R: Wait>(
    rt: &R,
    alloc: Global,
    log: &HallLog<'a>,
    seat: &mut PassSeat<'a>,
    number: u32,
    task: SeatTask<'a>,
    room: &mut Option<Box<Found>>,
) -> Result<Committed, Refuse>
    requires seated { IsSeated log.now number seat.old }
    requires may { MayCommit number seat.old task }
    ensures stays { StaysWithout number task.entry.taken.cell.heap.owner seat.old seat.new }
    ensures out { out number seat.old ≡ out number seat.new + 1 }
    ensures ok { let e = task.entry.taken.event in
        IfOk result (λ done. MakesEntry (Some number) number e done seat.old seat.new) }
    ensures refused { let a = task.entry.taken.cell.heap.owner in IfErr result (λ refuse.
        Calls number seat.old seat.new (Ended number a ∷ [])
        (RefusesEntry (Some number) task.entry.taken.event refuse)) }
{
    let SeatTask {
        taken,
        mut found,
        ..
    } = task;
    let mut hall = turn(rt, log, seat, number);
    let answer = hall.hall.commit(alloc, number, taken, &mut found);
    write_back(log, seat, number, hall);
    keep_room(room, found);
    answer
}

/// Makes an event an entry at once, without a claim.
///
/// # Errors
/// As `Hall::enter`.
pub(crate) fn direct<'a, R: Wait>(
    rt: &R,
    alloc: Global,
    log: &HallLog<'a>,
    seat: &mut PassSeat<'a>,
    number: u32,
    e: Event,
) -> Result<Committed, Refuse>
    requires seated { IsSeated log.now number seat.old }
    ensures stays { StaysWhole number 1 seat.old seat.new }
    ensures ok { IfOk result (λ done. MakesEntry None number e done seat.old seat.new) }
    ensures refused { IfErr result (λ refuse.
        Calls number seat.old seat.new [] (RefusesEntry None e refuse)) }
{
    let mut hall = turn(rt, log, seat, number);
    match hall.hall.enter(alloc, number, e, &mut None) {
        Ok(done) => {
            write_back(log, seat, number, hall);
            Ok(done)
        }
        Err(refuse) => {
            give_back(log, seat, number, hall);
            Err(refuse)
        }
    }
}

/// Makes the actor's first event an entry at once, without a claim, where it is short to do.
///
/// # Errors
/// As `Hall::enter_first`.
pub(crate) fn enter_first<'a, R: Wait>(
    rt: &R,
    alloc: Global,
    log: &HallLog<'a>,
    seat: &mut PassSeat<'a>,
    number: u32,
    a: ActorName,
) -> Result<Committed, Refuse>
    requires seated { IsSeated log.now number seat.old }
    ensures stays { StaysWhole number 1 seat.old seat.new }
    ensures ok { IfOk result (λ done. EntersFirst number a done seat.old seat.new) }
    ensures refused { IfErr result (λ refuse. Calls number seat.old seat.new [] (RefusesFirst a refuse)) }
{
    let mut hall = turn(rt, log, seat, number);
    match hall.hall.enter_first(alloc, number, a) {
        Ok((_e, done)) => {
            write_back(log, seat, number, hall);
            Ok(done)
        }
        Err(refuse) => {
            give_back(log, seat, number, hall);
            Err(refuse)
        }
    }
}

/// Asks all workers to stop.
pub(crate) fn ask_stop<'a, R: Wait>(rt: &R, log: &HallLog<'a>, seat: &mut PassSeat<'a>, number: u32)
    requires seated { IsSeated log.now number seat.old }
    ensures stays { StaysWhole number 1 seat.old seat.new }
    ensures call { Calls number seat.old seat.new (Stopped number ∷ []) (λ _. ⊤) }
{
    let mut hall = turn(rt, log, seat, number);
    hall.hall.ask_stop(number);
    write_back(log, seat, number, hall);
}
