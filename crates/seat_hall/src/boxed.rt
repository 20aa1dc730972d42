// A hall on the heap.

use crate::hall::Hall;
use std::marker::Model;

/// A hall on the heap: with the turn goes where it lies, and not the hall itself. Contracts see the hall.
#[derive(Drop)]
pub struct BoxedHall<'a> {
    pub(crate) hall: Box<Hall<'a>>,
}

impl<'a> Model for BoxedHall<'a> {
    ghost use Rattle.seat_hall.specs.Halls.{HallView};

    ghost Value = { HallView };

    ghost view = { λ b. b.hall.value };
}
