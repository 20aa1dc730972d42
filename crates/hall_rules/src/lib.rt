//! What a hall's pass answers, whichever hall it is: the causes of its refusals, the first that is there,
//! and an event that becomes the last entry of the book.
#![tactic(auto)]

mod causes;
mod cells;
mod claim;
mod entering;
mod looking;

pub use causes::{actor_of, claimable, early_refusal};
pub use cells::has_cell;
pub use claim::Claim;
pub use entering::{book_options, enter};
pub use looking::look;
