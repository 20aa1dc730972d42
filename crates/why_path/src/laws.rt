// What holds of reasons, and of who went, after every run.

ghost use Rattle.why_path.specs.Laws.{KeptAreReachable, NoneLooseAtQuiet, ReapedAreClosed, ReasonsHoldUp};

/// Where reasons hold up, exactly what is reachable in the machine that frees nothing is kept by them.
pub fn kept_are_reachable()
    ensures { KeptAreReachable }
{}

/// The reasons of a state hold up.
pub fn reasons_hold_up()
    ensures { ReasonsHoldUp }
{}

/// With deep tracing, where no event is enabled any more, reasons that hold up call nothing loose.
pub fn none_is_loose_at_quiet()
    ensures { NoneLooseAtQuiet }
{}

/// Each set that a run reaps is closed by the very numbers that `partings` tells: a member's count is
/// exactly the sum of what the members report to hold on it, so none of it is held by anyone else (MAC,
/// OOPSLA 2013).
pub fn reaped_are_closed()
    ensures { ReapedAreClosed }
{}
