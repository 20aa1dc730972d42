// Room for what letters bring.

ghost use Rattle.std.specs.Prelude.{◌≡◌, ◌≤◌, OnOk, length};
ghost use Rattle.trace_send.specs.Room.{values_of};

use foreign_table::ForeignTable;
use letter_kinds::Load;
use orca_names::NoMemory;
use row_table::RowTable;
use trace_send::count_values;

/// Takes the memory for the things of a load and for their rows.
///
/// # Errors
/// `NoMemory` where memory was refused.
#[inline(always)]
pub(crate) fn reserve_load(foreign: &mut ForeignTable, load: &Load) -> Result<(), NoMemory>
    ensures room { OnOk result (length load.now ≤ foreign.new.spare) }
    ensures values { OnOk result (values_of load.now ≤ foreign.new.spare_values) }
    ensures same { foreign.new.entries ≡ foreign.old.entries }
    ensures blocks { foreign.new.blocks ≡ foreign.old.blocks }
{
    let Some(values) = count_values(load) else {
        return Err(NoMemory);
    };
    foreign.reserve(load.len())?;
    foreign.reserve_values(values)
}

/// Takes the memory for rows that come uncounted.
///
/// # Errors
/// `NoMemory` where memory was refused.
#[inline(always)]
pub(crate) fn reserve_rows(known: &mut RowTable, rows: &Load) -> Result<(), NoMemory>
    ensures room { OnOk result (length rows.now ≤ known.new.spare) }
    ensures values { OnOk result (values_of rows.now ≤ known.new.spare_values) }
    ensures same { known.new.rows ≡ known.old.rows }
    ensures blocks { known.new.blocks ≡ known.old.blocks }
{
    let Some(values) = count_values(rows) else {
        return Err(NoMemory);
    };
    known.reserve(rows.len(), values)
}
