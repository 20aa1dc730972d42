// The limits of programs and of runs.

/// The most bytes that a program's text may have.
pub const TEXT_LIMIT: usize = 1_048_576;

/// The most bytes in a line, without its line feed.
pub const LINE_LIMIT: usize = 256;

/// The most characters in a name.
pub const NAME_LIMIT: usize = 32;

/// The most kinds of actor in a program.
pub const KINDS_LIMIT: usize = 256;

/// The most behaviours of a kind.
pub const BEHAVIOURS_LIMIT: usize = 64;

/// The most instructions of a behaviour; labels count, `end` does not.
pub const BODY_LIMIT: usize = 1024;

/// The most fields of an actor.
pub const FIELDS_LIMIT: usize = 8;

/// The most values of a row, and the most arguments or parameters.
pub const VALUES_LIMIT: usize = 8;

/// The registers of a frame.
pub const REGISTERS: usize = 16;

/// The most actors that a run may make.
pub const ACTORS_LIMIT: usize = 65_536;

/// The most entries of a run book.
pub const BOOK_LIMIT: u64 = 100_000_000;

/// The most workers.
pub const WORKERS_LIMIT: u32 = 16;
