// What an actor holds of others.

ghost use Rattle.std.specs.Prelude.{◌≡◌, map};
ghost use Rattle.foreign_table.specs.Table.{count_on};
ghost use Rattle.count_ledger.specs.Lines.{HasRoom, Rise, raised_by};
ghost use Rattle.count_ledger.specs.declared.lines.Column.TheVariants.{Held};

use crate::lines::{Column, add};
use foreign_table::ForeignTable;
use orca_names::Sums;

/// The counts that are held on others' things.
pub(crate) fn add_held(sums: &mut [Sums], foreign: &ForeignTable)
    requires rising { Rise sums.old }
    requires room { HasRoom Held (count_on foreign.now) sums.old }
    ensures { sums.new ≡ map (raised_by Held (count_on foreign.now)) sums.old }
{
    for i in 0..foreign.len() {
        let (thing, count, _) = foreign.at(i);
        add(sums, Column::Held, &thing, count);
    }
}
