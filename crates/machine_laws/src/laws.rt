// What holds of every program, every run and each of its prefixes.

ghost use Rattle.machine_laws.specs.Acknowledged.{InRunsMembersAloneAcknowledge, InRunsMembersAloneAreAsked};
ghost use Rattle.machine_laws.specs.Bounds.{RunsCountAtMost, RunsCountInFewBits};
ghost use Rattle.machine_laws.specs.Freed.{FreedStaysFreed};
ghost use Rattle.machine_laws.specs.Laws.{StartHasAllFacts, EventsKeepAllFacts, RunsHaveAllFacts, NeverTooEarly, ExactlyAtQuiet, ExactlyAtQuietByRoots, RunsAreTracedByRoots, DetectorRestsAtQuiet, EventsLeaveLess, DeepNeedsNoGet, RestsBetweenChoices, RunsCanRest, GarbageIsGone, GarbageIsGoneByRoots};
ghost use Rattle.machine_laws.specs.Reaps.{ReapsTakeTheDone, RunsReapTheDone};
ghost use Rattle.machine_laws.specs.Untold.{ReapsLeaveNoneTold, RunsTellNoneOfTheReaped, UntoldStaysUntold};

/// Where a run begins, all facts hold: the machine agrees with the one that frees nothing, counts
/// balance and are never overdrawn, each actor knows what it reaches (with root-only tracing, what its fields,
/// registers and rows name), clean cells are swept, and reports, tokens and news are sound.
pub fn the_start_has_all_facts()
    ensures { StartHasAllFacts }
{}

/// Each event that is enabled keeps all facts together, and the machine that frees nothing makes the
/// same choice, or stays where the event is none.
pub fn every_event_keeps_all_facts()
    ensures { EventsKeepAllFacts }
{}

/// All facts hold after each run, beside the state that its choices lead to in the machine that frees
/// nothing.
pub fn every_run_has_all_facts()
    ensures { RunsHaveAllFacts }
{}

/// With root-only tracing, after each run: no count is overdrawn, idle actors that did nothing have just
/// what is marked, what fields, registers and rows name is known with its owner, and after each prefix of
/// letters that counts for a thing, it is counted, or is an own object that a counted one leads to.
pub fn every_run_is_traced_by_roots()
    ensures { RunsAreTracedByRoots }
{}

/// Nothing is reclaimed too early (Orca, OOPSLA 2017; MAC, OOPSLA 2013): after each prefix of each
/// run, whatever the order of its events, nothing that was freed is reachable in the machine that
/// frees nothing, which makes the same choices and prints the same; and counts balance. No actor and no
/// letter names what was freed, and none reaches it through its rows; with root-only tracing, not even a
/// row that a letter brought is of it.
pub fn never_too_early()
    ensures { NeverTooEarly }
{}

/// Where no event is enabled any more, what is left is exactly what is reachable in the machine that
/// frees nothing: objects, actors and cycles of both. With root-only tracing it is what is reached there
/// where an actor leads to its own objects that some actor that is left holds as well.
pub fn exactly_at_quiet()
    ensures deep { ExactlyAtQuiet }
    ensures roots { ExactlyAtQuietByRoots }
{}

/// There the detector rests: no note waits, no token is open, and of each actor that is present and
/// not pinned an exact report is kept.
pub fn the_detector_at_quiet()
    ensures { DetectorRestsAtQuiet }
{}

/// The machine comes to rest, with either tracing: each event that is no choice leaves less to do, so between
/// two choices of a run there are no more events than there was work left after the first. What is
/// collected, minted, reported and asked comes to an end, whatever the order. With deep tracing, for
/// what turns get there is nothing to do.
pub fn the_machine_comes_to_rest()
    ensures less { EventsLeaveLess }
    ensures run { RestsBetweenChoices }
    ensures deep { DeepNeedsNoGet }
{}

/// A run that has come so far can rest: it can go on, without a choice, to a state in which only choices
/// are enabled.
pub fn runs_can_rest()
    ensures { RunsCanRest }
{}

/// Garbage goes: where only choices are enabled, and the program has come to its end, which is where the
/// machine that frees nothing is quiet, no event is enabled, and exactly what is reachable is left; with
/// root-only tracing, what the law at quiet says.
pub fn garbage_goes()
    ensures deep { GarbageIsGone }
    ensures roots { GarbageIsGoneByRoots }
{}

/// After a run of n events no count, no amount of a letter, no sum of the balance, and no count that a note or
/// a report tells is above n times the weight. So with at most 100,000,000 events, and a weight of at most
/// 65,536, each fits 43 bits, and so does the number of tokens that were opened; and what all reports
/// tell on one actor fits 59 bits.
pub fn counts_stay_small()
    ensures weights { RunsCountAtMost }
    ensures bits { RunsCountInFewBits }
{}

/// What was freed stays freed: whatever an event of a run freed, after the whole run it is not there, and
/// the machine that frees nothing does not reach it.
pub fn freed_stays_freed()
    ensures { FreedStaysFreed }
{}

/// A reap is enabled only on a sealed token: its members are present and reported, and have nothing to
/// do and no letter. So no event of theirs is enabled.
pub fn reaps_take_the_done()
    ensures state { ReapsTakeTheDone }
    ensures run { RunsReapTheDone }
{}

/// Nothing is told of a reaped actor: no report of it is kept, and no note that it is blocked, or is so no
/// more, is on its way, after the reap or at any time later.
pub fn nothing_is_told_of_the_reaped()
    ensures reap { ReapsLeaveNoneTold }
    ensures stays { UntoldStaysUntold }
    ensures run { RunsTellNoneOfTheReaped }
{}

/// Members alone acknowledge a token: after each run, of each open token, no Confirm waits for an actor
/// that is no member, and no acknowledgement by one is on its way. So each that is heard of an open
/// token is a member's.
pub fn members_alone_acknowledge()
    ensures asked { InRunsMembersAloneAreAsked }
    ensures heard { InRunsMembersAloneAcknowledge }
{}
