// What holds of the blocks in which rows lie.

ghost use Rattle.row_laws.specs.Laws.{BlocksStay, DeepBringsNone, EventsFreeExactly, FreeAreTheRest, LackIsCounted, LeftKeepsBlock, NamedKeepsBlock, NoBlockIsTakenEarly, RowRunsAreRuns, StartsFree};

/// An event that has room gives a block to each object that it makes, and each other object that is left
/// keeps its own; a block is free exactly where no object that is left has it.
pub fn blocks_stay()
    ensures { BlocksStay }
{}

/// No block is given out again while an actor names its object, or a letter that waits: where all that
/// is named is left, as it is after every run, the block has that object still.
pub fn no_block_is_taken_early()
    ensures event { NoBlockIsTakenEarly }
    ensures run { NamedKeepsBlock }
{}

/// At the start all blocks are free.
pub fn the_start_has_free_blocks()
    ensures { StartsFree }
{}

/// A run with blocks is a run of the program, and its blocks are those of its state.
pub fn row_runs_are_runs()
    ensures { RowRunsAreRuns }
{}

/// What is left after more events has the block that it had.
pub fn left_keeps_block()
    ensures { LeftKeepsBlock }
{}

/// The free blocks, with the objects that are left, are all blocks. So blocks are lacked exactly where an
/// event would make more rows than there are blocks, without those of the objects that are left.
pub fn free_are_the_rest()
    ensures free { FreeAreTheRest }
    ensures lack { LackIsCounted }
{}

/// An event frees just what a collection sweeps, or all objects of an actor that goes.
pub fn events_free_exactly()
    ensures { EventsFreeExactly }
{}

/// With deep tracing no actor keeps a row that a letter brought, and no letter that waits brings one
/// uncounted.
pub fn deep_tracing_brings_none()
    ensures { DeepBringsNone }
{}
