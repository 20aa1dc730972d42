// The report of an audit.

ghost use Rattle.std.specs.Prelude.{◌≡◌, IfOk, if◌then◌else◌, codes};
ghost use Rattle.report_text.specs.Reports.{audit_report_of};

use crate::lines::push_numbers;
use crate::numbers::Numbers;
use crate::run_report::push_prints;
use orca_names::{NoMemory, Value};
use std::alloc::Global;

/// The word for the end of a book, where no event is enabled or where one is.
fn audit_end(is_quiet: bool) -> &'static str
    ensures { result.now ≡ (if is_quiet then codes "quiet" else codes "open") }
{
    if is_quiet { "quiet" } else { "open" }
}

/// The report of a book that is a run of its program: the prints, how many entries the book has,
/// whether no event is enabled at its end, and what was made and is left.
///
/// # Errors
/// `NoMemory` where memory was refused.
pub fn audit_report(
    alloc: Global,
    is_quiet: bool,
    prints: &[Value],
    entries: u64,
    actors: Numbers,
    objects: Numbers,
) -> Result<Vec<u8>, NoMemory>
    ensures { IfOk result (λ bytes. bytes.items
        ≡ audit_report_of is_quiet prints.now entries actors objects) }
{
    let mut out = String::new(alloc);
    push_prints(&mut out, prints)?;
    let end = audit_end(is_quiet);
    write!(out, "--\nrun yes\nentries {entries}\nend {end}\n")?;
    push_numbers(&mut out, "actors", actors)?;
    push_numbers(&mut out, "objects", objects)?;
    Ok(out.into_bytes())
}
