//! One turn of an actor: a frame runs up to and with its next act.
#![tactic(auto)]

mod act;
mod answer;
mod arithmetic;
mod deed;
mod effects;
mod held;
mod rest;
mod run;
mod setting;
mod start;
mod step;
mod turn;

pub use act::Act;
pub use answer::{segment, segment_held};
pub use deed::{Deed, Halt, Stopped};
pub use rest::rests_at;
pub use run::{segment_at, segment_held_at};
pub use setting::Setting;
pub use start::{start_boxed, start_frame};
pub use turn::Turn;
pub use turn_rules::{Frame, RegisterFile};
