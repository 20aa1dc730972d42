//! What each event does to the machine's parts: first what it does is found and all its memory is taken,
//! then it is done, which can't fail. What it needs of counts is asked of the caller, so that no law
//! is needed here.
#![tactic(auto)]

mod blocks;
mod collects;
mod fault;
mod goes;
mod hears;
mod insides;
mod leaves;
mod letters;
mod parts;
mod placing;
mod ready;
mod reaps;
mod scans;
mod stands;
mod steps;
mod takes;
mod touches;

pub use fault::StepFault;
pub use insides::Core;
pub use parts::Parts;
pub use ready::Ready;
pub use stands::stand;
pub use steps::{apply, prepare};
pub use touches::{touched, touched_token};
