// Why a text is refused.

ghost use Rattle.std.specs.Prelude.{◌≡◌};
ghost use Rattle.run_book.specs.declared.errors.BookErr.TheVariants.{NoMemory as no_memory};

use orca_names::NoMemory;
use thiserror::Error;

/// Why a text was not read to a book.
#[derive(Clone, Copy, Debug, PartialEq, Eq, Error)]
pub enum BookErr {
    /// The first line that has a fault, counted from 1, and the lowest kind of fault there:
    /// 1 the first line is none of a book, 2 a line is no entry, 3 there are more than 100,000,000
    /// entries, 4 the last line has no line feed.
    #[error("line {line} has a fault of kind {kind}")]
    Fault { line: u32, kind: u8 },
    /// Memory was refused.
    #[error("out of memory")]
    NoMemory,
}

impl From<NoMemory> for BookErr {
    ghost from_gives = { λ _ e. e ≡ no_memory };

    fn from(_: NoMemory) -> BookErr {
        BookErr::NoMemory
    }
}
