// What a hall tells of its run.

ghost use Rattle.book_hall.specs.Kept.{HasRun};

use behaviour_text::print;
use book_hall::Hall;
use std::alloc::Global;

/// Whether a hall is of the program of this text and of this budget. Whatever was done with it, its book is
/// a run.
pub(crate) fn is_of(alloc: Global, hall: &Hall<'_>, text: &str, budget: u64) -> bool
    ensures { HasRun hall.now }
{
    hall.has_run();
    match print(alloc, hall.program().program()) {
        Ok(bytes) => bytes.as_slice() == text.as_bytes() && hall.budget() == budget,
        Err(_) => false,
    }
}
