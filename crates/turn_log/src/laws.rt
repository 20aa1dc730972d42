// Laws of the queue: what is so at every moment of a log, since each step on its table keeps the rule.

ghost use Rattle.turn_log.specs.Laws.{OneHasTurn, TicketsDiffer};

use crate::rule::LogRule;

/// Only one seat has the turn at a time.
pub fn one_has_the_turn<T, I, V, P: LogRule<T, I, V>>()
    ensures { OneHasTurn P.holds P.live P.calm }
{}

/// No two seats have the same ticket.
pub fn tickets_differ<T, I, V, P: LogRule<T, I, V>>()
    ensures { TicketsDiffer P.holds P.live P.calm }
{}
