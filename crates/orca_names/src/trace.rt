// How a run traces what letters carry.

/// How far a letter's load is traced when it is sent.
#[derive(Clone, Copy, Debug, PartialEq, Eq, Hash)]
pub enum Trace {
    /// Through rows: all that the arguments reach is counted (Orca, OOPSLA 2017).
    Deep,
    /// What stands in the arguments and the owners of that alone; the rows travel uncounted.
    Roots,
}
