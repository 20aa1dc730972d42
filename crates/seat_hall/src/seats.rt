// Seats of passes: split off, taken in, and given up at the end.

ghost use Rattle.std.specs.Prelude.{◌≡◌, ◌∷◌, [], IfOk, None, OnErr, Some};
ghost use Rattle.turn_log.specs.Knowing.{half, having_written};
ghost use Rattle.turn_log.specs.Seats.{Has, IsAtTurn, knows};
ghost use Rattle.seat_hall.specs.declared.item.Item.TheVariants.{Made};
ghost use Rattle.seat_hall.specs.Answers.{AllAreGiven};
ghost use Rattle.seat_hall.specs.Closes.{Closes, Leaves};
ghost use Rattle.seat_hall.specs.Fair.{Follows, after_item, gets_other, keeps_own};
ghost use Rattle.seat_hall.specs.Halls.{HallView};
ghost use Rattle.seat_hall.specs.Passes.{Calls, Holds, IsIdlePass, IsPass, IsSeated, PassesOn, PutsBack, SplitsOff, StaysWhole, TakesIn};

use crate::boxed::BoxedHall;
use crate::closing::Closing;
use crate::pass::{give_back, turn};
use crate::rule::{Absorbs, HallLog, Halves, PassSeat};
use std::sync::Wait;
use thiserror::Error;

/// How many passes may be split off.
const MOST_PASSES: u32 = 65_535;

/// As many passes were split off as may be.
#[derive(Clone, Copy, Debug, PartialEq, Eq, Error)]
#[error("all passes are made")]
pub struct Passes;

/// The token of a pass that is in no call, with the number of the pass.
#[derive(Drop)]
pub struct HallSeat<'a> {
    pub token: PassSeat<'a>,
    pub number: u32,
    ghost pass: { IsPass number token },
}

// Puts the hall back, and writes that a pass gets the number `next`.
fn write_made<'a>(
    log: &HallLog<'a>,
    seat: &mut PassSeat<'a>,
    number: u32,
    next: u32,
    hall: BoxedHall<'a>,
)
    requires holds { (before : HallView) × Holds log.now before seat.old }
    requires rule { Follows number (Made next) (knows seat.old) hall }
    ensures { let known = having_written after_item (Made next) (knows seat.old) in
        PutsBack seat.old seat.new hall.entry known }
{
    log.put(seat, hall);
    log.write(seat);
}

// Splits off the seat of the pass that gets the number `next`, and passes the turn on.
fn part<'a>(log: &HallLog<'a>, seat: &mut PassSeat<'a>, number: u32, next: u32) -> PassSeat<'a>
    requires own { seat.old.table_id ≡ log.now }
    requires turn { (hall : HallView) × IsAtTurn hall seat.old × Has (Some hall) seat.old }
    requires two { (knows seat.old).client.numbers ≡ number ∷ next ∷ [] }
    ensures own { PassesOn number seat.old seat.new (half keeps_own (knows seat.old)) }
    ensures other { IsSeated seat.old.table_id next result }
    ensures knew { knows result ≡ half gets_other (knows seat.old) }
{
    let other = log.split::<Halves>(seat);
    log.pass_on(seat);
    other
}

/// Splits off a pass, and gives it a number.
///
/// # Errors
/// `Passes` exactly where 65,535 passes were split off. Nothing is written then.
pub(crate) fn split<'a, R: Wait>(
    rt: &R,
    log: &HallLog<'a>,
    seat: &mut PassSeat<'a>,
    number: u32,
) -> Result<HallSeat<'a>, Passes>
    requires seated { IsSeated log.now number seat.old }
    ensures stays { StaysWhole number 1 seat.old seat.new }
    ensures ok { IfOk result (λ other. SplitsOff number other.number seat.old seat.new other.token) }
    ensures passes { OnErr result (Calls number seat.old seat.new [] AllAreGiven) }
{
    let mut hall = turn(rt, log, seat, number);
    if hall.hall.made() >= MOST_PASSES {
        give_back(log, seat, number, hall);
        return Err(Passes);
    }
    let next = hall.hall.give_number();
    write_made(log, seat, number, next, hall);
    Ok(HallSeat {
        token: part(log, seat, number, next),
        number: next,
    })
}

/// Takes in a pass of the same hall that ends, and has no claim out. What this one saw and its cells
/// stay; it has then heard of the longer log of both.
pub(crate) fn join<'a>(
    log: &HallLog<'a>,
    seat: &mut PassSeat<'a>,
    number: u32,
    other: PassSeat<'a>,
    others: u32,
)
    requires seated { IsSeated log.now number seat.old }
    requires idle { IsIdlePass log.now others other }
    ensures stays { StaysWhole number 0 seat.old seat.new }
    ensures takes { TakesIn seat.old other.entry seat.new }
{
    log.join::<Absorbs>(seat, other);
}

/// Ends the hall.
pub(crate) fn close<'a>(log: HallLog<'a>, seat: PassSeat<'a>, number: u32) -> Closing<'a>
    requires seated { IsSeated log number seat }
    ensures { Closes seat.entry result }
{
    match log.close(seat) {
        Err(words) => Closing::Turning {
            ticket: words.ticket,
            serving: words.serving,
        },
        Ok((hall, words)) => {
            drop(words);
            leave(hall)
        }
    }
}

// The last hall is whole, or the lowest claim that is out is told.
fn leave(hall: BoxedHall<'_>) -> Closing<'_>
    ensures { Leaves hall.entry.logged result }
{
    match hall.hall.lowest_claim() {
        Some((holder, actor)) => Closing::Lent { holder, actor },
        None => {
            let (orca, book) = Box::into_inner(hall.hall).into_parts();
            Closing::Whole(orca, book)
        }
    }
}
