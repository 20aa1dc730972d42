// What holds of every segment.

ghost use Rattle.turn_rules.specs.Laws.{SegmentIsLocal, SegmentNamesOnlyKnown};

/// A segment depends on no rows but those that its registers and fields reach. So the map of all
/// rows ever made and the rows that one actor has at hand give the same segment.
pub fn segment_is_local()
    ensures { SegmentIsLocal }
{}

/// What a segment leaves in registers, in fields and in the rows that it makes, and what its act
/// posts or prints, names only what its registers and fields reached before, the actor itself, and
/// the objects that it made.
pub fn segment_names_only_known()
    ensures { SegmentNamesOnlyKnown }
{}
