// The lines of an entry, and of the end.

ghost use Rattle.std.specs.Prelude.{◌≡◌, ◌++◌, OnOk, string_bytes};
ghost use Rattle.behaviour_text.specs.Text.{line_of};
ghost use Rattle.picture_rules.specs.Pictures.{end_line, entry_line, print_line};

use crate::words::push_value;
use event_rule::Event;
use orca_names::Value;
use std::alloc::AllocError;

/// The line of an entry, as the book has it.
///
/// # Errors
/// `AllocError` where memory was refused.
pub fn push_entry(out: &mut String, event: &Event) -> Result<(), AllocError>
    ensures { OnOk result (string_bytes out.new
        ≡ string_bytes out.old ++ line_of (entry_line event.now)) }
{
    write!(out, "entry {event}\n")
}

/// The line of a value that was printed.
///
/// # Errors
/// `AllocError` where memory was refused.
pub fn push_print(out: &mut String, value: &Value) -> Result<(), AllocError>
    ensures { OnOk result (string_bytes out.new
        ≡ string_bytes out.old ++ line_of (print_line value.now)) }
{
    out.push_str("print")?;
    push_value(out, value)?;
    out.push('\n')
}

/// The last line: whether no event is enabled.
///
/// # Errors
/// `AllocError` where memory was refused.
pub fn push_end(out: &mut String, is_quiet: bool) -> Result<(), AllocError>
    ensures { OnOk result (string_bytes out.new
        ≡ string_bytes out.old ++ line_of (end_line is_quiet)) }
{
    out.push_str(if is_quiet {
        "end quiet\n"
    } else {
        "end open\n"
    })
}
