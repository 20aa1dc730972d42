// The rule of the hall's log, and how it begins.

ghost use Rattle.std.specs.Prelude.{◌≡◌, ◌≤◌, IfOk};
ghost use Rattle.orca_names.specs.declared.limits.TheConstants.{BOOK_LIMIT};
ghost use Rattle.run_book.specs.Books.{IsWeight};
ghost use Rattle.turn_log.specs.Knowing.{newcomer};
ghost use Rattle.turn_log.specs.Seats.{knows};
ghost use Rattle.seat_hall.specs.Fair.{first_view};
ghost use Rattle.seat_hall.specs.Passes.{IsIdlePass};

use crate::boxed::BoxedHall;
use crate::hall::Hall;
use crate::item::{Item, PassView};
use atomic_table::{Join, Split};
use behaviour_check::Checked;
use orca_names::{NoMemory, Options};
use std::alloc::Global;
use turn_log::{LogRule, LogSeat, TurnLog};

/// The hall is that of the log, and what passes know is fair.
pub struct Fairly;

impl<'a> LogRule<BoxedHall<'a>, Item, PassView> for Fairly {
    ghost use Rattle.seat_hall.specs.Fair.{Calm, HallRule, Shown, after_item, first_view, live};

    ghost holds = { HallRule };

    ghost first = { λ h. let l = h.logged in first_view l.program l.options l.budget };

    ghost item = { λ h. h.last };

    ghost after = { after_item };

    ghost live = { live };

    ghost calm = { Calm };

    ghost shows = { Shown };
}

/// A pass keeps its number, and the one that is split off gets the number to give.
pub struct Halves;

impl Split<PassView> for Halves {
    ghost use Rattle.seat_hall.specs.Fair.{gets_other, keeps_own};

    ghost left = { keeps_own };

    ghost right = { gets_other };
}

/// A pass stays what it is, and the one that it takes in is spent.
pub struct Absorbs;

impl Join<PassView> for Absorbs {
    ghost use Rattle.seat_hall.specs.Fair.{spent_view, stays_itself};

    ghost both = { stays_itself };

    ghost spent = { spent_view };
}

/// The hall under a turn, with its log.
pub type HallLog<'a> = TurnLog<BoxedHall<'a>, Item, PassView, Fairly>;

/// The token of a pass. It has no bytes.
pub type PassSeat<'a> = LogSeat<BoxedHall<'a>, Item, PassView>;

/// A hall before its first event, and the token of pass 0.
///
/// # Errors
/// `NoMemory` where memory was refused.
pub(crate) fn begin<'a>(
    alloc: Global,
    code: &'a Checked,
    budget: u64,
    options: Options,
) -> Result<(HallLog<'a>, PassSeat<'a>), NoMemory>
    requires most { budget ≤ BOOK_LIMIT }
    requires weight { IsWeight options.weight }
    ensures pass { IfOk result (λ made. IsIdlePass made.0 0 made.1) }
    ensures knows { IfOk result
        (λ made. knows made.1 ≡ newcomer (first_view code.now options budget)) }
{
    let hall = Hall::start(alloc, code, budget, options)?;
    let Ok(hall) = Box::new(alloc, hall) else {
        return Err(NoMemory);
    };
    Ok(TurnLog::new(alloc, BoxedHall { hall }, &[])?)
}
