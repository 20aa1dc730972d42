// The lines of a report, each appended to the text before it.

ghost use Rattle.std.specs.Prelude.{◌≡◌, ◌++◌, OnOk, string_bytes};
ghost use Rattle.report_text.specs.Parts.{amount_text, thing_text, value_text};
ghost use Rattle.report_text.specs.Reports.{count_line, number_line, print_line};

use crate::numbers::Numbers;
use orca_names::{Sums, Thing, Value};
use std::alloc::AllocError;

pub(crate) fn push_thing(out: &mut String, thing: &Thing) -> Result<(), AllocError>
    ensures { OnOk result (string_bytes out.new ≡ string_bytes out.old ++ thing_text thing.now) }
{
    match thing {
        Thing::Actor(a) => write!(out, "actor {}", a.0),
        Thing::Obj(n) => write!(out, "object {}.{}", n.owner.0, n.serial.get()),
    }
}

fn push_value(out: &mut String, value: &Value) -> Result<(), AllocError>
    ensures { OnOk result (string_bytes out.new ≡ string_bytes out.old ++ value_text value.now) }
{
    match value {
        Value::Null => write!(out, "null"),
        Value::Num(n) => write!(out, "{n}"),
        Value::Actor(a) => push_thing(out, &Thing::Actor(*a)),
        Value::Obj(n) => push_thing(out, &Thing::Obj(*n)),
    }
}

/// A line for a print.
pub(crate) fn push_print(out: &mut String, value: &Value) -> Result<(), AllocError>
    ensures { OnOk result (string_bytes out.new ≡ string_bytes out.old ++ print_line value.now) }
{
    push_value(out, value)?;
    out.push('\n')
}

/// A name and its number, each after a space.
pub(crate) fn push_amount(out: &mut String, name: &str, amount: u64) -> Result<(), AllocError>
    ensures { OnOk result (string_bytes out.new ≡ string_bytes out.old
        ++ amount_text name.now amount) }
{
    write!(out, " {name} {amount}")
}

/// The line of what was made and is left.
pub(crate) fn push_numbers(out: &mut String, what: &str, numbers: Numbers) -> Result<(), AllocError>
    ensures { OnOk result (string_bytes out.new ≡ string_bytes out.old
        ++ number_line what.now numbers) }
{
    out.push_str(what)?;
    push_amount(out, "made", numbers.made)?;
    push_amount(out, "left", numbers.left)?;
    out.push('\n')
}

/// The line of a thing that is left, with its count and the four sums.
pub(crate) fn push_sums(out: &mut String, sums: &Sums) -> Result<(), AllocError>
    ensures { OnOk result (string_bytes out.new ≡ string_bytes out.old ++ count_line sums.now) }
{
    push_thing(out, &sums.thing)?;
    push_amount(out, "count", sums.count)?;
    push_amount(out, "inc", sums.inc)?;
    push_amount(out, "dec", sums.dec)?;
    push_amount(out, "held", sums.held)?;
    push_amount(out, "letters", sums.letters)?;
    out.push('\n')
}
