// A claim, with what was found of its cell.

ghost use Rattle.std.specs.Prelude.{◌≡◌, false, true, IsSome, OnOk};
ghost use Rattle.std.specs.Option.{ForSome};
ghost use Rattle.work_board.specs.Answered.{is_evaluated};
ghost use Rattle.hall_rules.specs.Facts.{is_found_prop};
ghost use Rattle.seat_hall.specs.Found.{IsFoundOn};

use crate::taken::Taken;
use actor_cell::Found;
use orca_names::NoMemory;
use std::alloc::Global;

/// A claim, with what was found of its cell.
#[derive(Drop)]
pub struct SeatTask<'a> {
    pub taken: Taken<'a>,
    pub found: Option<Box<Found>>,
    /// Its evaluation was asked for.
    pub tried: bool,
    ghost own: { ForSome found (λ known. IsFoundOn taken known.value) } by { Prim.hlevel is_found_prop },
}

impl<'a> SeatTask<'a> {
    /// The claim, of whose cell nothing was found yet.
    pub(crate) fn of(taken: Taken<'a>) -> SeatTask<'a>
        ensures taken { result.taken ≡ taken.entry }
        ensures fresh { result.tried ≡ false }
    {
        SeatTask {
            taken,
            found: None,
            tried: false,
        }
    }

    /// Evaluates the actor's turn or collection, where the event is one, into the room of an earlier
    /// evaluation if there is one.
    ///
    /// # Errors
    /// `NoMemory` where memory was refused.
    pub(crate) fn evaluate(
        &mut self,
        alloc: Global,
        room: &mut Option<Box<Found>>,
    ) -> Result<(), NoMemory>
        ensures tried { self.new.tried ≡ true }
        ensures taken { self.new.taken ≡ self.old.taken }
        ensures found { OnOk result
            (is_evaluated self.old.taken.event ≡ true → IsSome self.new.found) }
    {
        self.tried = true;
        if !self.taken.is_evaluated() {
            return Ok(());
        }
        let mut place = match room.take() {
            Some(room) => room,
            None => Box::new(alloc, Found::Nothing)?,
        };
        self.taken.find_in(alloc, &mut place)?;
        self.found = Some(place);
        Ok(())
    }
}
