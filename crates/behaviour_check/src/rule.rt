// The rules by name.

ghost use Rattle.std.specs.Prelude.{◌≡◌};
ghost use Rattle.behaviour_check.specs.Numbers.{number_of};

/// A rule that a program keeps, in the order of the rules' numbers: where several fail at one
/// place, the lowest is told.
#[derive(Clone, Copy, Debug, PartialEq, Eq, PartialOrd, Ord)]
pub(crate) enum Rule {
    /// The first kind has a behaviour `start` without parameters.
    Start = 1,
    /// Kinds, a kind's behaviours and a behaviour's labels are named once.
    NamedOnce,
    /// An actor is made of a kind that there is.
    KnownKind,
    /// A label that is jumped to stands later in the behaviour.
    LabelAhead,
    /// Registers are those of a frame.
    Registers,
    /// A field is one of its kind.
    Fields,
}

impl Rule {
    /// Its number in a fault, 1 to 6.
    pub(crate) fn number(self) -> u8
        ensures { result ≡ number_of self }
    {
        self as u8
    }
}
