// No rows.

ghost use Rattle.std.specs.Prelude.{◌≡◌, None, []};
ghost use Rattle.std.proofs.lemmas.Option.{none-some};

use orca_names::{ObjName, Row, RowReader, Thing};
use reach_walk::TellsRows;
use row_store::Told;

/// A reader for which no object has a row.
#[derive(Drop)]
pub struct NoRows;

impl RowReader for NoRows {
    ghost use Rattle.std.specs.Prelude.{⊤};

    ghost Beside = { ⊤ };

    ghost beside = { λ _. tt };

    ghost rows = { λ _ _. None };

    ghost all = { λ _. [] };

    fn read_into(&mut self, _: ObjName, _: &mut Row) -> bool {
        false
    }

    ghost within = { λ _ _ row e. absurd (none-some row e) };
}

impl TellsRows for NoRows {
    ghost use Rattle.std.specs.Prelude.{refl};

    ghost blocks = { λ _ _. None };

    fn tell(&mut self, _: &Thing, told: &mut Told) {
        *told = Told::Nothing;
    }

    ghost same_blocks = { λ _ _ _. refl };
}
