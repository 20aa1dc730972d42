// When events happen, and how runs end.

ghost use Rattle.event_rule.specs.Runs.{EndsInOneWay, GoesOnOrEnds, LeadsToOneState, NoneIsFirstAtQuiet, OneIsFirst, QuietOrFirst};
ghost use Rattle.machine_rules.specs.Laws.{EnabledExactly, FullExactly};
ghost use Rattle.machine_rules.specs.Next.{next};

/// Each event is enabled exactly where it can happen, and refused exactly where it would make an actor
/// too many; everywhere else it leads to a state.
pub fn events_are_enabled_exactly()
    ensures enabled { EnabledExactly }
    ensures full { FullExactly }
{}

/// A state is quiet, or one event comes first in the one-worker order, and only one.
pub fn one_event_is_first()
    ensures some { QuietOrFirst next }
    ensures one { OneIsFirst next }
    ensures none { NoneIsFirstAtQuiet next }
{}

/// A run within its budget goes on by its first event, or ends: quiet, by the budget, or at a full machine.
pub fn a_run_goes_on_or_ends()
    ensures { GoesOnOrEnds next }
{}

/// The events of a book lead to one state, so a book says all of its run.
pub fn a_book_leads_to_one_state()
    ensures { LeadsToOneState next }
{}

/// A run within a budget ends quiet, or by the budget, or at a full machine, and in no two of these
/// ways.
pub fn a_run_ends_in_one_way()
    ensures { EndsInOneWay next }
{}
