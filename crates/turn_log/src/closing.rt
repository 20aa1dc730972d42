// The end of a log.

ghost use Rattle.std.specs.Prelude.{◌≡◌, ◌≢◌, IfErr, IfOk};
ghost use Rattle.turn_log.specs.Ends.{IsClosed, IsStillOpen};
ghost use Rattle.turn_log.specs.Owed.{FewTickets};
ghost use Rattle.turn_log.specs.Seats.{knows};

use crate::last::LastWords;
use crate::rule::LogRule;
use crate::table::{LogSeat, SERVING, TICKET, TurnLog, VALUE};
use std::alloc::Allocator;

/// The words of a log whose turn was not passed on.
#[derive(Clone, Copy, Debug, PartialEq, Eq)]
pub struct StillOpen {
    /// The ticket that would be drawn next.
    pub ticket: u64,
    /// The ticket that is served.
    pub serving: u64,
}

impl<T, I, V, P: LogRule<T, I, V>, A: Allocator> TurnLog<T, I, V, P, A> {
    /// Ends the log, and gives the value that it led to, and the words where they lie. It takes no
    /// memory.
    ///
    /// # Errors
    /// Some pass still has a ticket: a call of its never returned, and the value may be there. This
    /// comes exactly where the two words differ.
    pub fn close(self, seat: LogSeat<T, I, V>) -> Result<(T, LastWords<T, A>), StillOpen>
    where
        T: Drop,
        requires own { seat.table_id ≡ self }
        requires few { FewTickets P.holds P.live }
        ensures closed { IfOk result (λ end.
            IsClosed P.holds P.live P.calm (knows seat) end.0 end.1) }
        ensures still { IfErr result (λ words. (words.ticket ≢ words.serving)
            × IsStillOpen P.holds P.live P.calm (knows seat) words.ticket words.serving) }
    {
        let TurnLog { table } = self;
        let mut closed = table.close_with(seat);
        let ticket = closed.word(TICKET);
        let serving = closed.word(SERVING);
        let value = closed.take(VALUE);
        if ticket != serving {
            closed.free();
            return Err(StillOpen { ticket, serving });
        }
        Ok((value.unwrap(), LastWords::of(closed)))
    }
}
