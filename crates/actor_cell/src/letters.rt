// Letters that an event gives out: room for them, and those that return what was held.

ghost use Rattle.std.specs.Prelude.{◌≡◌, IfOk, length, map};
ghost use Rattle.letter_kinds.specs.Letters.{as_sent};
ghost use Rattle.actor_cell.specs.Outs.{IsRoomFor, decs_to};

use letter_kinds::{Amounts, Letter};
use orca_names::{ActorName, NoMemory};
use plain_list::Listed;
use std::alloc::Global;

/// Room for so many letters.
pub(crate) fn letter_room(alloc: Global, count: usize) -> Result<Vec<(ActorName, Letter)>, NoMemory>
    ensures { IfOk result (IsRoomFor count) }
{
    let mut room = Vec::new(alloc);
    room.reserve(count)?;
    Ok(room)
}

/// To each owner a decrement of its things, in the room that is handed in. It takes no memory.
pub(crate) fn decs_of(
    mut room: Vec<(ActorName, Letter)>,
    groups: Vec<(ActorName, Amounts)>,
) -> Listed<(ActorName, Letter)>
    requires { IsRoomFor (length groups.items) room }
    ensures { map as_sent result ≡ decs_to groups.items }
{
    for (owner, things) in groups {
        room.push_reserved((owner, Letter::Dec { things }));
    }
    Listed::from(room)
}
