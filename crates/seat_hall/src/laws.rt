// Laws of the rule, which hold at every moment of a hall, since each step on its table keeps the rule.

ghost use Rattle.seat_hall.specs.Stands.{BooksAreRuns, CellsAreApart, EntriesStand, EntriesStandOnce, NoneIsReaped};

/// The book of a log is a run of the program with at most as many entries as the budget.
pub fn books_are_runs()
    ensures { BooksAreRuns }
{}

/// A cell that a pass has is the book's, and its claim stands in the hall; neither the hall has it nor another pass.
pub fn cells_are_apart()
    ensures { CellsAreApart }
{}

/// No event that can happen reaps an actor whose cell a pass has.
pub fn cells_are_never_reaped()
    ensures { NoneIsReaped }
{}

/// An entry that a pass saw to be made stands in the book of the hall, at the place that was told.
pub fn entries_stand()
    ensures { EntriesStand }
{}

/// Two entries of one log at one place of the book are one.
pub fn entries_stand_once()
    ensures { EntriesStandOnce }
{}
