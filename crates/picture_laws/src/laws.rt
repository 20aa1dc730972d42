// What holds of every picture.

ghost use Rattle.picture_laws.specs.Alphabet.{HasOnePicture, HasShownBytes};
ghost use Rattle.picture_laws.specs.Applying.{TellsNotes, TellsParts};
ghost use Rattle.picture_laws.specs.Example.{BeginsSo, GoesOnSo};
ghost use Rattle.picture_laws.specs.Runs.{EveryRunFits, HidesNothing, TellsAllStates};
ghost use Rattle.picture_laws.specs.Sums.{SumsAreCounts};
ghost use Rattle.picture_laws.specs.Touched.{KeptTellNothing, TouchedTellAll};

/// A book that is a run of its program has one picture.
pub fn a_book_has_one_picture()
    ensures { HasOnePicture }
{}

/// Each byte of the picture of a checked program is a letter, a digit, `_`, `.`, `-`, a space or a line
/// feed. So nothing of it ends the element of a page in which it stands, and nothing has to be escaped.
pub fn a_picture_has_shown_bytes()
    ensures { HasShownBytes }
{}

/// The picture hides nothing: by the lines of an entry alone, each part of the state after it is told from
/// what was told before, and so are the notes that wait.
pub fn an_entry_tells_what_is_after_it()
    ensures parts { TellsParts }
    ensures notes { TellsNotes }
{}

/// The numbers of actors, reports and tokens have 64 bits after every run that is no longer than a book may
/// be, so words tell them apart.
pub fn every_run_fits()
    ensures { EveryRunFits }
{}

/// So the picture of a run hides nothing: by the lines of an entry alone, each part of the state after it is
/// told from the part before, whatever its number. And by the lines of the first state and of the entries
/// alone, each part of each later state is told.
pub fn a_run_hides_nothing()
    ensures entries { HidesNothing }
    ensures states { TellsAllStates }
{}

/// What a page adds up for a thing from the lines of a state, its count, the increments and decrements under
/// way, what is held of it, and the letters that load it, are the counts of the state, which a report tells:
/// for every thing, after every run whose counts fit their bits.
pub fn sums_are_counts()
    ensures { SumsAreCounts }
{}

/// The picture of an actor that prints 7: its head and first state, and its first entry.
pub fn a_small_picture()
    ensures begins { BeginsSo }
    ensures goes_on { GoesOnSo }
{}

/// What an event leaves as it was stands in no line: so the lines of what changes are those of the parts that
/// the event touched, in the order of their numbers.
pub fn touched_parts_tell_all()
    ensures kept { KeptTellNothing }
    ensures touched { TouchedTellAll }
{}
