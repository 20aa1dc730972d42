// Several workers run a program, over a hall whose cells move out to them.

ghost use Rattle.std.specs.Prelude.{◌≡◌, ◌≤◌, [], All, IfOk, length};
ghost use Rattle.word_line.specs.Orders.{IsInRange};
ghost use Rattle.orca_core.specs.Laws.{IsRunOf};
ghost use Rattle.orca_core.specs.Machine.{NoneIsAway};
ghost use Rattle.turn_log.specs.Seats.{knows};
ghost use Rattle.seat_hall.specs.Boards.{out_of};

use behaviour_check::Checked;
use orca_core::Orca;
use orca_names::NoMemory;
use outside_world::Gate;
use run_book::Book;
use seat_hall::{Closing, SeatHall, SeatPass};
use std::sync::Wait;
use std::thread::Threads;
use steal_pool::work;
use word_line::Order;

/// Splits off the passes of so many workers, or of as many as there are numbers and memory for.
fn split_off<'h, 'a, R: AllocGlobal + Wait>(
    rt: &R,
    first: &mut SeatPass<'h, 'a>,
    workers: u32,
) -> Vec<SeatPass<'h, 'a>>
    ensures hall { first.new.token.table_id ≡ first.old.token.table_id }
    ensures run { (knows first.new.token).client ≡ (knows first.old.token).client }
    ensures halls { All (λ p. p.token.table_id ≡ first.old.token.table_id) result.items }
    ensures idle { All (λ p. out_of p ≡ 0) result.items }
{
    let mut passes = Vec::new(rt.alloc());
    for _ in 0..workers {
        let Ok(pass) = first.split(rt) else {
            break;
        };
        if passes.push(pass).is_err() {
            break;
        }
    }
    passes
}

/// Takes in passes of the same hall, none of which has a claim out.
fn take_in<'a>(first: &mut SeatPass<'_, 'a>, passes: Vec<SeatPass<'_, 'a>>)
    requires halls { All (λ p. p.token.table_id ≡ first.old.token.table_id) passes.items }
    requires idle { All (λ p. out_of p ≡ 0) passes.items }
    ensures hall { first.new.token.table_id ≡ first.old.token.table_id }
    ensures run { (knows first.new.token).client ≡ (knows first.old.token).client }
{
    for pass in passes {
        first.join(pass);
    }
}

/// What the workers make of a program: the machine, and the book that led to it. Each worker has a pass
/// of its own; the first pass waits for them and ends the hall. The machine has no blocks.
pub(crate) fn run_in<'a, R: AllocGlobal + Threads + Wait + Sync, G: Gate + Sync>(
    rt: &R,
    order: &Order,
    code: &'a Checked,
    gate: &G,
) -> Result<(Orca<'a>, Book), NoMemory>
    requires range { IsInRange order.now }
    ensures run { IfOk result (λ parts. IsRunOf parts.0 parts.1.entries) }
    ensures home { IfOk result (λ parts. NoneIsAway parts.0) }
    ensures none { IfOk result (λ parts. parts.0.blocks ≡ []) }
    ensures program { IfOk result (λ parts. parts.0.state.program ≡ code.now) }
    ensures options { IfOk result
        (λ parts. parts.0.state.options ≡ record { weight = order.now.weight; trace = order.now.trace }) }
    ensures weight { IfOk result (λ parts. parts.1.weight ≡ order.now.weight) }
    ensures trace { IfOk result (λ parts. parts.1.trace ≡ order.now.trace) }
    ensures within { IfOk result (λ parts. length parts.1.entries ≤ order.now.budget) }
{
    let alloc = rt.alloc();
    let (hall, seat) = SeatHall::start(alloc, code, order.budget, order.weight, order.trace)?;
    let mut first = hall.first_pass(seat);
    let mut passes = split_off(rt, &mut first, order.workers);
    work(rt, alloc, passes.as_mut_slice(), gate);
    take_in(&mut first, passes);
    let seat = first.into_seat();
    match hall.close(seat) {
        Closing::Whole(orca, book) => Ok((orca, book)),
        // A call that never returned has the hall, or a cell of it: the run begins anew.
        Closing::Turning { .. } | Closing::Lent { .. } => {
            let orca = Orca::start(alloc, code, order.weight, None, order.trace)?;
            Ok((orca, Book::new(alloc, order.weight, order.trace)))
        }
    }
}
