// What was made and what is left.

/// How many were made in a run, and how many of these are left at its end.
#[derive(Clone, Copy, Debug, PartialEq, Eq)]
pub struct Numbers {
    pub made: u64,
    pub left: u64,
}
