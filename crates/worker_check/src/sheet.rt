// A value for tests: a sheet on which passes write numbers, in turns. The log is what stands on it.

ghost use Rattle.std.specs.Prelude.{◌≡◌, ◌≤◌, ◌+◌, ◌-◌, ◌<◌, ◌++◌, [], ◌∷◌, IfOk, OnErr, List, ℕ};
ghost use mathlib.Core.List.{IsPrefix};
ghost use Rattle.turn_log.specs.Seats.{IsIdle, IsSame, knows};

use atomic_table::{Join, Split};
use std::alloc::AllocError;
use std::marker::Model;
use std::process::Abort;
use std::sync::Wait;
use turn_log::{LogRule, LogSeat, StillOpen, TurnLog};

/// The numbers, and the one that was written last. Contracts see it as both.
#[derive(Drop)]
pub(crate) struct Sheet {
    pub(crate) numbers: Vec<u64>,
    last: u64,
}

impl Model for Sheet {
    ghost use Rattle.std.specs.Prelude.{List, ℕ};

    ghost Value = { List ℕ × ℕ };

    ghost view = { λ s. (s.numbers.items, s.last) };
}

impl Sheet {
    fn add(&mut self, number: u64) -> Result<(), AllocError>
        ensures ok { IfOk result (λ _. self.new ≡ (self.old.0 ++ number ∷ [], number)) }
        ensures err { OnErr result (self.new ≡ self.old) }
    {
        self.numbers.push(number)?;
        self.last = number;
        Ok(())
    }
}

/// The numbers are the log. Passes have eight parts together, and as many tickets as parts.
pub(crate) struct Written;

impl LogRule<Sheet, u64, u64> for Written {
    ghost use Rattle.std.specs.Prelude.{◌≡◌, sum_by, ⊤};

    ghost holds = { λ log sheet passes _. (sheet.0 ≡ log) × (sum_by (λ k. k.client) passes ≡ 8) };

    ghost first = { λ _. 8 };

    ghost item = { λ sheet. sheet.1 };

    ghost after = { λ _ parts. parts };

    ghost live = { λ parts. parts };

    ghost calm = { λ _. ⊤ };

    ghost shows = { λ _ log sheet. sheet.0 ≡ log };
}

/// One part goes to the new pass.
struct OnePart;

impl Split<u64> for OnePart {
    ghost use Rattle.std.specs.Prelude.{◌-◌};

    ghost left = { λ parts. parts - 1 };

    ghost right = { λ _. 1 };
}

/// All parts of both.
struct AllParts;

impl Join<u64> for AllParts {
    ghost use Rattle.std.specs.Prelude.{◌+◌};

    ghost both = { λ parts others. parts + others };

    ghost spent = { 0 };
}

pub(crate) type SheetLog = TurnLog<Sheet, u64, u64, Written>;

pub(crate) type SheetSeat = LogSeat<Sheet, u64, u64>;

/// An empty sheet.
pub(crate) fn begin<R: Abort + AllocGlobal>(rt: &R) -> (SheetLog, SheetSeat)
    ensures { (result.1.table_id ≡ result.0) × IsIdle result.1 × ((knows result.1).client ≡ 8) }
{
    let numbers = Vec::new(rt.alloc());
    TurnLog::new(rt.alloc(), Sheet { numbers, last: 0 }, &[]).expect(rt, "memory")
}

/// Writes a number. The pass has then seen all that stands on the sheet, this number last.
pub(crate) fn note<R: Wait>(
    rt: &R,
    log: &SheetLog,
    seat: &mut SheetSeat,
    number: u64,
) -> Result<(), AllocError>
    requires own { seat.old.table_id ≡ log.now }
    requires idle { IsIdle seat.old × (1 ≤ (knows seat.old).client) }
    ensures same { IsSame seat.old seat.new }
    ensures idle { IsIdle seat.new × ((knows seat.new).client ≡ (knows seat.old).client) }
    ensures turns { (knows seat.new).turns ≡ (knows seat.old).turns + 1 }
    ensures written { IfOk result (λ _. (before : List ℕ) × IsPrefix (knows seat.old).seen before
        × ((knows seat.new).seen ≡ before ++ number ∷ [])) }
{
    let mut sheet = log.take_turn(rt, seat);
    match sheet.add(number) {
        Ok(()) => {
            log.put(seat, sheet);
            log.write(seat);
            log.pass_on(seat);
            Ok(())
        }
        Err(failed) => {
            log.put(seat, sheet);
            log.pass_on(seat);
            Err(failed)
        }
    }
}

/// Takes its turn, and never passes it on.
pub(crate) fn take_for_good<R: Wait>(rt: &R, log: &SheetLog, seat: &mut SheetSeat)
    requires own { seat.old.table_id ≡ log.now }
    requires idle { IsIdle seat.old × (1 ≤ (knows seat.old).client) }
{
    drop(log.take_turn(rt, seat));
}

/// Splits off a pass.
pub(crate) fn split_off<R: Wait>(rt: &R, log: &SheetLog, seat: &mut SheetSeat) -> SheetSeat
    requires own { seat.old.table_id ≡ log.now }
    requires idle { IsIdle seat.old × (2 ≤ (knows seat.old).client) }
    ensures same { IsSame seat.old seat.new }
    ensures left { IsIdle seat.new × ((knows seat.new).client ≡ (knows seat.old).client - 1) }
    ensures right { (result.table_id ≡ seat.old.table_id) × IsIdle result × ((knows result).client ≡ 1) }
{
    let sheet = log.take_turn(rt, seat);
    log.put(seat, sheet);
    let new = log.split::<OnePart>(seat);
    log.pass_on(seat);
    new
}

/// Takes a pass in.
pub(crate) fn take_in(log: &SheetLog, seat: &mut SheetSeat, other: SheetSeat)
    requires own { (seat.old.table_id ≡ log.now) × (other.table_id ≡ log.now) }
    requires idle { IsIdle seat.old × IsIdle other }
    ensures same { IsSame seat.old seat.new × IsIdle seat.new }
    ensures both { (knows seat.new).client ≡ (knows seat.old).client + (knows other).client }
{
    log.join::<AllParts>(seat, other);
}

/// The sheet at the end. It begins with all that the pass had seen and heard of.
pub(crate) fn finish(log: SheetLog, seat: SheetSeat) -> Result<Sheet, StillOpen>
    requires { seat.table_id ≡ log }
    ensures { IfOk result (λ sheet. IsPrefix (knows seat).seen sheet.0
        × IsPrefix (knows seat).heard sheet.0) }
{
    match log.close(seat) {
        Ok((sheet, words)) => {
            drop(words);
            Ok(sheet)
        }
        Err(open) => Err(open),
    }
}
