// What an actor holds, for its turns.

ghost use Rattle.std.specs.Prelude.{◌≡◌};

use crate::table::ForeignTable;
use orca_names::{ActorName, HeldTest, Thing};

/// What an actor is, owns, or holds by its table.
#[derive(Drop)]
pub struct Holding<'a> {
    pub me: ActorName,
    pub foreign: &'a ForeignTable,
}

impl HeldTest for Holding<'_> {
    ghost use Rattle.foreign_table.specs.Table.{holds_in};

    ghost held = { λ s. holds_in s.me s.foreign.now };

    fn holds(&self, thing: Thing) -> bool {
        if thing.owner() == self.me {
            return true;
        }
        let foreign = self.foreign;
        foreign.count(thing) != 0
    }
}
