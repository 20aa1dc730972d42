// What the machine that collects keeps beside the machine that frees nothing.

ghost use Rattle.count_laws.specs.Apart.{CellsCanBeAway, OthersKeepEnabled, OthersLeaveTheCell};
ghost use Rattle.count_laws.specs.Bounds.{EventsOpenOneToken, EventsRaiseByTheWeight, RunsCountByTheWeight, RunsMakeFewActors, RunsOpenNoMoreTokens};
ghost use Rattle.count_laws.specs.Gone.{ForgottenStaysForgotten, GoneStaysGone, NamesStayGiven};
ghost use Rattle.count_laws.specs.KeptRows.{KnownRowsStayWhereMarkedReach};
ghost use Rattle.count_laws.specs.Laws.{StartHasFacts, TakesKeepFacts, GoesKeepFacts, CollectsKeepFacts, LeavesKeepFacts, CleanStaySwept, NoneGetsItsOwn};
ghost use Rattle.count_laws.specs.Letters.{EventsKeepNamesOwn, RunsNameOwn, StartNamesOwn};

/// Where a run begins, both machines agree, and the counts are kept.
pub fn the_start_has_the_facts()
    ensures { StartHasFacts }
{}

/// An actor that takes, goes on, collects or leaves keeps the facts, and the machine that frees nothing makes
/// each choice of it: a take of an application letter, and a go that does not mint
/// (Orca, OOPSLA 2017).
pub fn take_go_and_collect_keep_the_facts()
    ensures take { TakesKeepFacts }
    ensures go { GoesKeepFacts }
    ensures collect { CollectsKeepFacts }
    ensures leave { LeavesKeepFacts }
{}

/// An idle actor that did nothing since it collected holds nothing that its fields do not reach, and
/// owns no object that is neither reached nor counted. Every event keeps this.
pub fn clean_cells_stay_swept()
    ensures { CleanStaySwept }
{}

/// No event gives an actor a count on itself or on an object of its own.
pub fn no_actor_gets_a_count_on_its_own()
    ensures { NoneGetsItsOwn }
{}

/// What an owner counts of a thing, with the increments under way, rises by the weight at most with each
/// event. So after a run it is at most the weight times the number of events.
pub fn counts_rise_by_the_weight()
    ensures event { EventsRaiseByTheWeight }
    ensures run { RunsCountByTheWeight }
{}

/// No more tokens are opened than there are events.
pub fn events_open_one_token()
    ensures event { EventsOpenOneToken }
    ensures run { RunsOpenNoMoreTokens }
{}

/// Gone stays gone. In the machine that frees nothing, what was made and is not reachable never becomes
/// reachable again. In the machine that collects, what was there and is not left never comes back, since
/// names are never used again.
pub fn gone_stays_gone()
    ensures forgotten { ForgottenStaysForgotten }
    ensures given { NamesStayGiven }
    ensures gone { GoneStaysGone }
{}

/// Letters name only their own: an increment or a decrement that waits for an actor names things of this
/// actor alone, each once, in the order of things.
pub fn letters_name_their_own()
    ensures start { StartNamesOwn }
    ensures event { EventsKeepNamesOwn }
    ensures run { RunsNameOwn }
{}

/// An actor's cell can be away while others act. An event that is not of the actor, and does not reap it,
/// does the same whether the cell is changed before it or after; it leaves the cell as it was, and at most
/// adds letters. So what was enabled of the actor stays enabled, but that a letter ends its leave and block.
pub fn cells_can_be_away()
    ensures commutes { CellsCanBeAway }
    ensures cell { OthersLeaveTheCell }
    ensures enabled { OthersKeepEnabled }
{}

/// No run makes more than 65,536 actors.
pub fn runs_make_few_actors()
    ensures { RunsMakeFewActors }
{}

/// With root-only tracing the rows that letters brought stay at a collection exactly where marked things
/// reach them, whether through the rows that the actor had before or through those that it still has.
pub fn known_rows_stay_where_marked_reach()
    ensures { KnownRowsStayWhereMarkedReach }
{}
