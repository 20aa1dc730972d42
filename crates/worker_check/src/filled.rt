// Words that passes fill, one a turn, and read without one.

ghost use Rattle.std.specs.Prelude.{◌≡◌, ◌≤◌, ◌+◌, ◌*◌, ◌-◌, ◌<◌, IfOk, length};
ghost use Rattle.turn_log.specs.Seats.{IsIdle, IsSame, knows};
ghost use Rattle.worker_check.specs.Filled.{AreFilled};

use atomic_table::Split;
use std::process::Abort;
use std::sync::Wait;
use turn_log::{LastWords, Lesson, LogRule, LogSeat, StillOpen, TurnLog};

/// How many words there are.
pub(crate) const MANY: u64 = 64;

/// Under the turn lies how many words are filled; the word at place `i` is then `2 * i + 1`.
pub(crate) struct Filling;

impl LogRule<u64, u64, u64> for Filling {
    ghost use Rattle.std.specs.Prelude.{◌≡◌, ◌≤◌, length, ⊤};
    ghost use Rattle.worker_check.specs.Filled.{Filled};

    ghost holds = { Filled };

    ghost first = { λ _. 8 };

    ghost item = { λ count. count };

    ghost after = { λ _ parts. parts };

    ghost live = { λ parts. parts };

    ghost calm = { λ _. ⊤ };

    ghost shows = { λ _ log count. (count ≡ length log) × (count ≤ 64) };
}

/// What a read tells of words that are filled.
struct IsFilled;

impl Lesson<u64, u64, u64> for IsFilled {
    ghost use Rattle.worker_check.specs.Filled.{Tells};

    ghost tells = { Tells };
}

/// One part goes to the new pass.
struct OnePart;

impl Split<u64> for OnePart {
    ghost use Rattle.std.specs.Prelude.{◌-◌};

    ghost left = { λ parts. parts - 1 };

    ghost right = { λ _. 1 };
}

pub(crate) type FillLog = TurnLog<u64, u64, u64, Filling>;

pub(crate) type FillSeat = LogSeat<u64, u64, u64>;

/// No word is filled.
pub(crate) fn begin<R: Abort + AllocGlobal>(rt: &R) -> (FillLog, FillSeat)
    ensures own { (result.1.table_id ≡ result.0) × (result.0.words ≡ 67) }
    ensures idle { IsIdle result.1 × ((knows result.1).client ≡ 8) }
{
    TurnLog::new(rt.alloc(), 0, &[0; 64]).expect(rt, "memory")
}

/// Fills the next word, if one is left, and answers what it then reads there, still under its turn.
pub(crate) fn fill<R: Wait>(rt: &R, log: &FillLog, seat: &mut FillSeat) -> Option<u64>
    requires own { (seat.old.table_id ≡ log.now) × (log.now.words ≡ 67) }
    requires idle { IsIdle seat.old × (1 ≤ (knows seat.old).client) }
    ensures same { IsSame seat.old seat.new }
    ensures idle { IsIdle seat.new × ((knows seat.new).client ≡ (knows seat.old).client) }
{
    let count = log.take_turn(rt, seat);
    if count >= MANY {
        log.put(seat, count);
        log.pass_on(seat);
        return None;
    }
    let at = count as usize;
    log.put_word(seat, at, 2 * count + 1);
    let word = log.read_word::<IsFilled>(seat, at);
    log.put(seat, count + 1);
    log.write(seat);
    log.pass_on(seat);
    Some(word)
}

/// Has a turn, and answers how many words are filled.
pub(crate) fn look<R: Wait>(rt: &R, log: &FillLog, seat: &mut FillSeat) -> u64
    requires own { seat.old.table_id ≡ log.now }
    requires idle { IsIdle seat.old × (1 ≤ (knows seat.old).client) }
    ensures same { IsSame seat.old seat.new }
    ensures idle { IsIdle seat.new × ((knows seat.new).client ≡ (knows seat.old).client) }
    ensures seen { (length (knows seat.new).seen ≡ result) × (result ≤ 64) }
{
    let count = log.take_turn(rt, seat);
    log.put(seat, count);
    log.pass_on(seat);
    count
}

/// Reads a word that was filled when the pass had its last turn. It takes none.
pub(crate) fn read(log: &FillLog, seat: &mut FillSeat, at: u64) -> u64
    requires own { (seat.old.table_id ≡ log.now) × (log.now.words ≡ 67) }
    requires filled { (at < 64) × (at < length (knows seat.old).seen) }
    ensures word { result ≡ 2 * at + 1 }
    ensures same { IsSame seat.old seat.new × (seat.new.me ≡ seat.old.me) }
{
    log.read_word::<IsFilled>(seat, at as usize)
}

/// Splits off a pass, which has seen the same.
pub(crate) fn split_off<R: Wait>(rt: &R, log: &FillLog, seat: &mut FillSeat) -> FillSeat
    requires own { seat.old.table_id ≡ log.now }
    requires idle { IsIdle seat.old × (2 ≤ (knows seat.old).client) }
    ensures same { IsSame seat.old seat.new }
    ensures left { IsIdle seat.new × ((knows seat.new).client ≡ (knows seat.old).client - 1) }
    ensures right { (result.table_id ≡ seat.old.table_id) × IsIdle result × ((knows result).client ≡ 1) }
    ensures seen { (knows result).seen ≡ (knows seat.new).seen }
{
    let count = log.take_turn(rt, seat);
    log.put(seat, count);
    let new = log.split::<OnePart>(seat);
    log.pass_on(seat);
    new
}

/// How many words are filled at the end, and the words.
pub(crate) fn finish(log: FillLog, seat: FillSeat) -> Result<(u64, LastWords<u64>), StillOpen>
    requires { seat.table_id ≡ log }
    ensures { IfOk result (λ end. (length end.1 ≡ 64) × AreFilled end.0 end.1) }
{
    log.close(seat)
}
