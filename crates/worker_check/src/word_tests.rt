// A pass that fills words under its turns, and one that reads them without.

ghost use Rattle.std.specs.Prelude.{◌≡◌, ◌≤◌, IfOk, length};
ghost use Rattle.turn_log.specs.Seats.{IsIdle, IsSame, knows};

use crate::filled::{FillLog, FillSeat, MANY, begin, fill, finish, look, read, split_off};
use std::sync::Wait;
use std::thread;
use std::thread::Threads;
use turn_log::{LastWords, StillOpen};

/// How many words are filled before there are two passes.
const FIRST: u64 = 20;

/// How often the second pass reads what it knows.
const ROUNDS: u64 = 300;

/// What belongs at a place.
fn word_at(at: u64) -> u64 {
    at.wrapping_mul(2).wrapping_add(1)
}

/// A pass: how many words it knows to be filled, how often it read one, and whether each was right.
#[derive(Drop)]
struct Pass<'a> {
    log: &'a FillLog,
    seat: FillSeat,
    fills: bool,
    filled: u64,
    reads: u64,
    right: bool,
    ghost own: { (seat.table_id ≡ log.now) × (log.now.words ≡ 67) },
    ghost ready: { IsIdle seat × (1 ≤ (knows seat).client) },
    ghost seen: { (filled ≤ length (knows seat).seen) × (filled ≤ 64) },
}

impl<'a> Pass<'a> {
    fn new(log: &'a FillLog, seat: FillSeat, fills: bool) -> Pass<'a>
        requires own { (seat.table_id ≡ log.now) × (log.now.words ≡ 67) }
        requires ready { IsIdle seat × (1 ≤ (knows seat).client) }
    {
        Pass {
            log,
            seat,
            fills,
            filled: 0,
            reads: 0,
            right: true,
        }
    }

    fn tell(&mut self, at: u64, word: u64) {
        self.reads = self.reads.saturating_add(1);
        self.right = self.right && word == word_at(at);
    }

    fn fill_one<R: Wait>(&mut self, rt: &R, at: u64) {
        self.filled = 0;
        if let Some(word) = fill(rt, self.log, &mut self.seat) {
            self.tell(at, word);
        }
    }

    fn fill_some<R: Wait>(&mut self, rt: &R, first: u64, end: u64) {
        for at in first..end {
            self.fill_one(rt, at);
        }
    }

    fn look<R: Wait>(&mut self, rt: &R) {
        self.filled = 0;
        let filled = look(rt, self.log, &mut self.seat);
        self.filled = filled;
    }

    fn read_one(&mut self, at: u64) {
        if at < self.filled {
            let word = read(self.log, &mut self.seat, at);
            self.tell(at, word);
        }
    }

    // It takes no turn.
    fn read_all(&mut self) {
        for at in 0..MANY {
            self.read_one(at);
        }
    }

    fn run<R: Wait>(&mut self, rt: &R) {
        if self.fills {
            self.fill_some(rt, FIRST, MANY);
            return;
        }
        self.look(rt);
        for _ in 0..ROUNDS {
            self.read_all();
        }
        self.look(rt);
        self.read_all();
    }
}

/// Whether one pass fills all words, and another reads what it may, all that was filled before it came
/// at least.
fn fill_and_read<R: Threads + Wait + Sync>(rt: &R, log: &FillLog, seat: &mut FillSeat) -> bool
    requires own { (seat.old.table_id ≡ log.now) × (log.now.words ≡ 67) }
    requires idle { IsIdle seat.old × (3 ≤ (knows seat.old).client) }
    ensures { IsSame seat.old seat.new }
{
    let mut one = Pass::new(log, split_off(rt, log, seat), true);
    one.fill_some(rt, 0, FIRST);
    let two = Pass::new(log, split_off(rt, log, seat), false);
    let mut passes = [one, two];
    thread::for_each_mut(rt, &mut passes, 2, &|_, pass| pass.run(rt));
    passes.iter().all(|pass| pass.right)
        && passes[0].reads == MANY
        && passes[1].reads > ROUNDS * FIRST
}

/// Whether the log ended with all words filled.
fn are_filled(end: Result<(u64, LastWords<u64>), StillOpen>) -> bool
    requires { IfOk end (λ e. length e.1 ≡ 64) }
{
    let Ok((count, words)) = end else {
        return false;
    };
    for at in 0..MANY {
        if words.get(at as usize) != word_at(at) {
            return false;
        }
    }
    count == MANY
}

#[test]
fn words_are_read_while_others_are_filled(rt: HostRuntime) {
    let (log, mut seat) = begin(&rt);
    let right = fill_and_read(&rt, &log, &mut seat);
    assert!(rt; are_filled(finish(log, seat)) && right);
}
