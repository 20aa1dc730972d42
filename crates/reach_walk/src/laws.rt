// What holds of all marks and loads.

ghost use Rattle.reach_walk.specs.MarkLaws.{MarksAreExact, MarksAreUnique, LoadsAreExact};

/// Where a list has the name of every object with a row, the marks of values are exactly what the
/// values reach through the rows, in the order of things, each once.
pub fn marks_are_exact()
    ensures { MarksAreExact }
{}

/// No other list is exactly that in that order. So what walks through rows finds the marks,
/// whichever way it goes, and whichever list of names they were defined by.
pub fn marks_are_unique()
    ensures { MarksAreUnique }
{}

/// The load of a letter has each thing that the arguments reach exactly once, nothing else, and
/// the row of each.
pub fn loads_are_exact()
    ensures { LoadsAreExact }
{}
