// The lines of what an actor owns, holds and knows.

ghost use Rattle.std.specs.Prelude.{◌≡◌, ◌++◌, ◌∷◌, [], codes, map, None, OnOk, Option, string_bytes};
ghost use Rattle.std.specs.FinMap as m;
ghost use Rattle.std.specs.Option.{option_map_or};
ghost use Rattle.std.specs.Fmt.{decimal};
ghost use Rattle.behaviour_text.specs.Text.{line_of};
ghost use Rattle.letter_kinds.specs.Holdings.{Row as any_row};
ghost use Rattle.object_heap.specs.Heap.{AllHere};
ghost use Rattle.row_store.specs.Lent.{IsLent};
ghost use Rattle.row_table.specs.Table.{AllKnownHere};
ghost use Rattle.picture_rules.specs.Words.{text_of_lines, thing_word};
ghost use Rattle.picture_rules.specs.Seats.{holds_line, knows_line, object_line};

use crate::letters::push_row;
use crate::words::{end_with_values, push_thing};
use foreign_table::ForeignTable;
use object_heap::ObjectHeap;
use orca_names::{Thing, Value};
use row_store::Lent;
use row_table::RowTable;
use std::alloc::AllocError;

/// The line of an own object.
fn push_object(out: &mut String, serial: u64, row: &[Value], count: u64) -> Result<(), AllocError>
    ensures { OnOk result (string_bytes out.new ≡ string_bytes out.old
        ++ line_of (object_line (serial, (row.now, count)))) }
{
    write!(out, "object {serial} {count}")?;
    end_with_values(out, row)
}

/// The lines of the own objects.
pub(crate) fn push_objects(out: &mut String, heap: &ObjectHeap) -> Result<(), AllocError>
    requires { AllHere heap.now }
    ensures { OnOk result (string_bytes out.new
        ≡ string_bytes out.old ++ text_of_lines (map object_line (m.entries heap.now.rows))) }
{
    for i in 0..heap.len() {
        let (name, row, count) = heap.at(i);
        push_object(out, name.serial.get(), values_in(row), count)?;
    }
    Ok(())
}

/// The line of a thing that is held.
fn push_hold(out: &mut String, thing: &Thing, count: u64) -> Result<(), AllocError>
    ensures { OnOk result (string_bytes out.new ≡ string_bytes out.old
        ++ line_of (codes "holds" ∷ thing_word thing.now ∷ decimal count ∷ [])) }
{
    out.push_str("holds")?;
    push_thing(out, thing)?;
    write!(out, " {count}\n")
}

/// The lines of what is held.
pub(crate) fn push_holds(out: &mut String, foreign: &ForeignTable) -> Result<(), AllocError>
    ensures { OnOk result (string_bytes out.new
        ≡ string_bytes out.old ++ text_of_lines (map holds_line (m.entries foreign.now.entries))) }
{
    for i in 0..foreign.len() {
        let (thing, count, _) = foreign.at(i);
        push_hold(out, &thing, count)?;
    }
    Ok(())
}

/// The values of a row that is lent and lies in no block, none where there is none.
fn values_in<'a>(row: Lent<'a>) -> &'a [Value]
    requires { (its : Option any_row) × IsLent its None row }
    ensures { (its : Option any_row) → IsLent its None row.entry
        → result.now ≡ option_map_or (λ r. r) its [] }
{
    match row {
        Lent::Nothing => &[],
        Lent::Here(values) => values,
        Lent::In(_) => unreachable!(),
    }
}

/// The lines of the rows that letters brought.
pub(crate) fn push_known(out: &mut String, known: &RowTable) -> Result<(), AllocError>
    requires { AllKnownHere known.now }
    ensures { OnOk result (string_bytes out.new
        ≡ string_bytes out.old ++ text_of_lines (map knows_line (m.entries known.now.rows))) }
{
    let held = match known.held() {
        Some(held) => held,
        None => return Ok(()),
    };
    for i in 0..held.len() {
        let (thing, _, row) = held.at(i);
        push_row(out, "knows", &thing, values_in(row))?;
    }
    Ok(())
}
