//! The tokens by which the detector of blocked actors asks the members of a closed set (MAC, OOPSLA
//! 2013): one is open until it is taken out, or a member is blocked no more, and tells whether all its
//! members acknowledged it.
#![tactic(auto)]

mod names;
mod token;
mod tokens;
mod told;

pub use names::place_of;
pub use token::Token;
pub use tokens::Tokens;
