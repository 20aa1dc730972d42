// In every run, each actor's counts allow what its next event does to them.

ghost use Rattle.cell_laws.specs.Goes.{RunsAllowGoes};
ghost use Rattle.cell_laws.specs.Held.{CellsKnowOthersOnly, RunsHoldOthersOnly, RunsHoldTheMadeOnly, RunsKnowOthersOnly};
ghost use Rattle.cell_laws.specs.Limits.{RunsHaveRoom, RunsHaveSerials, RunsKeepTheProgram, RunsMakeFewObjects};
ghost use Rattle.cell_laws.specs.Reaps.{TheAcknowledgedAreDone};
ghost use Rattle.cell_laws.specs.Takes.{RunsAllowTakes};

/// After a run of at most 100,000,000 events with a weight of 1 to 65,536, each actor's counts
/// allow its next letter, with either tracing: of a load each own thing is counted, each decrement
/// takes what is there, and no count comes to 2^43.
pub fn counts_allow_takes()
    ensures { RunsAllowTakes }
{}

/// They allow what the turn of its frame does, with either tracing: what a letter loads can be sent,
/// where each own thing is there, and of each other's one is held; and what is lacked of it, or is
/// minted for a thing that the turn gets, has room.
pub fn counts_allow_goes()
    ensures { RunsAllowGoes }
{}

/// The table of what an actor holds has no thing of its own, and none of an actor that was not made:
/// a new actor's maker holds nothing of it yet, so the weight has room. With root-only tracing, the
/// rows that letters brought are of no object of its own. So it is with the cell that code keeps.
pub fn others_alone_are_held()
    ensures others { RunsHoldOthersOnly }
    ensures made { RunsHoldTheMadeOnly }
    ensures known { RunsKnowOthersOnly }
    ensures cell { CellsKnowOthersOnly }
{}

/// A run of n events made at most 1,024 n objects, where the program is well formed. So the objects
/// and the serials of one event more are below 2^64. There are at most 65,536 actors, and fewer than
/// 100,000,000 tokens were opened where the run has fewer events.
pub fn runs_have_room()
    ensures objects { RunsMakeFewObjects }
    ensures room { RunsHaveRoom }
    ensures serials { RunsHaveSerials }
{}

/// A run keeps its program and its options.
pub fn the_program_stays()
    ensures { RunsKeepTheProgram }
{}

/// The members of an open token that all acknowledged are present, reported and idle, with no letter
/// and no event.
pub fn the_acknowledged_are_done()
    ensures { TheAcknowledgedAreDone }
{}
