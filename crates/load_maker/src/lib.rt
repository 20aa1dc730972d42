//! The load program: a program as text that makes a ring of nodes, as many as are asked for, and
//! leaves none of them.
#![tactic(auto)]

mod load;

pub use load::{NODES_LIMIT, program_of};
