// Why a text is refused.

ghost use Rattle.std.specs.Prelude.{◌≡◌};
ghost use Rattle.behaviour_text.specs.Kinds.{number, lower};
ghost use Rattle.behaviour_text.specs.declared.errors.TextErr.TheVariants.{NoMemory as no_memory};

use orca_names::NoMemory;
use std::alloc::AllocError;
use thiserror::Error;

/// What may be wrong with a line, in the order of the kinds' numbers.
#[derive(Clone, Copy, Debug, PartialEq, Eq, PartialOrd, Ord, Hash)]
pub enum FaultKind {
    /// It has a byte that is not allowed.
    NotAscii = 1,
    /// It has more than 256 bytes.
    LongLine,
    /// Its first word begins no line.
    UnknownWord,
    /// It has too few operands or too many, or lacks the letter of a register or a field.
    WrongOperands,
    /// A number is not written as one, or has more than 64 bits.
    BadNumber,
    /// A name is not 1 to 32 letters, digits or `_`.
    BadName,
    /// It is an instruction or an `end` outside of a behaviour, or an `on` before any kind.
    OutsideBehaviour,
    /// A behaviour has no `end` before it, or none before the text's.
    MissingEnd,
    /// It is one kind, behaviour or instruction too many, or gives too many fields or parameters.
    TooMany,
}

impl FaultKind {
    /// The kind's number, 1 to 9.
    pub fn number(self) -> u8
        ensures { result ≡ number self }
    {
        self as u8
    }

    /// The kind of the lower number.
    pub(crate) fn lower(self, other: FaultKind) -> FaultKind
        ensures { result ≡ lower self other }
    {
        if self.number() <= other.number() {
            self
        } else {
            other
        }
    }
}

/// Why a text was not read to a program.
#[derive(Clone, Copy, Debug, PartialEq, Eq, Error)]
pub enum TextErr {
    /// The first line that has a fault, counted from 1, and the lowest kind of fault there.
    #[error("line {line} has a fault of kind {}", .kind.number())]
    Fault { line: u32, kind: FaultKind },
    /// Memory was refused.
    #[error("out of memory")]
    NoMemory,
}

impl From<AllocError> for TextErr {
    ghost from_gives = { λ _ e. e ≡ no_memory };

    fn from(_: AllocError) -> TextErr {
        TextErr::NoMemory
    }
}

impl From<NoMemory> for TextErr {
    ghost from_gives = { λ _ e. e ≡ no_memory };

    fn from(_: NoMemory) -> TextErr {
        TextErr::NoMemory
    }
}
