// Passes that write on one sheet.

ghost use Rattle.std.specs.Prelude.{◌≡◌, ◌≤◌, ◌<◌};
ghost use Rattle.turn_log.specs.Seats.{IsIdle, IsSame, knows};

use crate::sheet::{
    Sheet, SheetLog, SheetSeat, begin, finish, note, split_off, take_for_good, take_in,
};
use std::sync::Wait;
use std::thread;
use std::thread::Threads;
use turn_log::StillOpen;

/// How many numbers each writer writes.
const NUMBERS: u64 = 50;

/// A pass with the name of its writer.
#[derive(Drop)]
struct Writer<'a> {
    log: &'a SheetLog,
    seat: SheetSeat,
    name: u64,
    ghost own: { seat.table_id ≡ log.now },
    ghost ready: { IsIdle seat × (1 ≤ (knows seat).client) },
}

impl<'a> Writer<'a> {
    fn new(log: &'a SheetLog, seat: SheetSeat, name: u64) -> Writer<'a>
        requires own { seat.table_id ≡ log.now }
        requires ready { IsIdle seat × (1 ≤ (knows seat).client) }
    {
        Writer { log, seat, name }
    }

    // A number that finds no memory is missing on the sheet.
    fn write<R: Wait>(&mut self, rt: &R, number: u64) {
        let _ = note(rt, self.log, &mut self.seat, number);
    }

    fn run<R: Wait>(&mut self, rt: &R) {
        let first = self.name.wrapping_mul(NUMBERS);
        for number in 0..NUMBERS {
            self.write(rt, first.wrapping_add(number));
        }
    }
}

/// Whether the sheet was given back, with these numbers on it.
fn has(end: Result<Sheet, StillOpen>, numbers: &[u64]) -> bool {
    let Ok(sheet) = end else {
        return false;
    };
    sheet.numbers.as_slice() == numbers
}

/// Writes three numbers. Tells whether there was memory for them.
fn write_three<R: Wait>(rt: &R, log: &SheetLog, seat: &mut SheetSeat) -> bool
    requires own { seat.old.table_id ≡ log.now }
    requires idle { IsIdle seat.old × (1 ≤ (knows seat.old).client) }
    ensures { IsSame seat.old seat.new }
{
    let one = note(rt, log, seat, 7);
    let two = note(rt, log, seat, 7);
    let three = note(rt, log, seat, 2);
    one.is_ok() && two.is_ok() && three.is_ok()
}

#[test]
fn one_pass_writes_in_order(rt: HostRuntime) {
    let (log, mut seat) = begin(&rt);
    let written = write_three(&rt, &log, &mut seat);
    assert!(rt; has(finish(log, seat), &[7, 7, 2]) && written);
}

/// Writes five numbers, some by a pass that is split off and taken in. Tells whether there was memory
/// for them.
fn write_by_two<R: Wait>(rt: &R, log: &SheetLog, seat: &mut SheetSeat) -> bool
    requires own { seat.old.table_id ≡ log.now }
    requires idle { IsIdle seat.old × (2 ≤ (knows seat.old).client) }
    ensures { IsSame seat.old seat.new }
{
    let one = note(rt, log, seat, 1);
    let mut other = split_off(rt, log, seat);
    let two = note(rt, log, &mut other, 2);
    let three = note(rt, log, seat, 3);
    let four = note(rt, log, &mut other, 4);
    take_in(log, seat, other);
    let five = note(rt, log, seat, 5);
    one.is_ok() && two.is_ok() && three.is_ok() && four.is_ok() && five.is_ok()
}

#[test]
fn a_pass_is_split_off_and_taken_in(rt: HostRuntime) {
    let (log, mut seat) = begin(&rt);
    let written = write_by_two(&rt, &log, &mut seat);
    assert!(rt; has(finish(log, seat), &[1, 2, 3, 4, 5]) && written);
}

/// Writes a number, and then keeps the turn of another pass. Tells whether there was memory for it.
fn keep_a_turn<R: Wait>(rt: &R, log: &SheetLog, seat: &mut SheetSeat) -> bool
    requires own { seat.old.table_id ≡ log.now }
    requires idle { IsIdle seat.old × (2 ≤ (knows seat.old).client) }
    ensures { IsSame seat.old seat.new }
{
    let mut other = split_off(rt, log, seat);
    let one = note(rt, log, seat, 1);
    take_for_good(rt, log, &mut other);
    one.is_ok()
}

/// Whether the sheet was not given back, since the second of three tickets is served.
fn is_open(end: Result<Sheet, StillOpen>) -> bool {
    let Err(words) = end else {
        return false;
    };
    words.ticket == 3 && words.serving == 2
}

#[test]
fn a_turn_that_was_not_passed_on_shows_at_the_end(rt: HostRuntime) {
    let (log, mut seat) = begin(&rt);
    let written = keep_a_turn(&rt, &log, &mut seat);
    assert!(rt; is_open(finish(log, seat)) && written);
}

/// Writes by four passes at once.
fn write_by_four<R: Threads + Wait + Sync>(rt: &R, log: &SheetLog, seat: &mut SheetSeat)
    requires own { seat.old.table_id ≡ log.now }
    requires idle { IsIdle seat.old × (5 ≤ (knows seat.old).client) }
    ensures { IsSame seat.old seat.new }
{
    let one = split_off(rt, log, seat);
    let two = split_off(rt, log, seat);
    let three = split_off(rt, log, seat);
    let four = split_off(rt, log, seat);
    let mut writers = [
        Writer::new(log, one, 0),
        Writer::new(log, two, 1),
        Writer::new(log, three, 2),
        Writer::new(log, four, 3),
    ];
    thread::for_each_mut(rt, &mut writers, 4, &|_, writer| writer.run(rt));
}

/// Whether the numbers of this writer are all there, in its order.
fn are_in_order(numbers: &[u64], name: u64) -> bool {
    let mut next = name.wrapping_mul(NUMBERS);
    let end = next.wrapping_add(NUMBERS);
    for number in numbers {
        if *number / NUMBERS != name {
            continue;
        }
        if *number != next {
            return false;
        }
        next = next.wrapping_add(1);
    }
    next == end
}

/// Whether four writers wrote on the sheet, and nobody else.
fn is_of_four(end: Result<Sheet, StillOpen>) -> bool {
    let Ok(sheet) = end else {
        return false;
    };
    let numbers = sheet.numbers.as_slice();
    numbers.len() == 200
        && are_in_order(numbers, 0)
        && are_in_order(numbers, 1)
        && are_in_order(numbers, 2)
        && are_in_order(numbers, 3)
}

#[test]
fn four_passes_write_at_once(rt: HostRuntime) {
    let (log, mut seat) = begin(&rt);
    write_by_four(&rt, &log, &mut seat);
    assert!(rt; is_of_four(finish(log, seat)));
}
