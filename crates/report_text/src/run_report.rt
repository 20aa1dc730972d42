// The report of a run.

ghost use Rattle.std.specs.Prelude.{◌≡◌, ◌++◌, IfOk, OnOk, option_map, string_bytes};
ghost use Rattle.std.specs.List.{flat_map};
ghost use Rattle.report_text.specs.Ends.{IsEnd, end_word};
ghost use Rattle.report_text.specs.Reports.{count_line, print_line, report_of};

use crate::lines::{push_numbers, push_print, push_sums};
use crate::numbers::Numbers;
use crate::status::Status;
use orca_names::{NoMemory, Sums, Tally, Value};
use run_book::Book;
use std::alloc::{AllocError, Global};

pub(crate) fn push_prints(out: &mut String, prints: &[Value]) -> Result<(), AllocError>
    ensures { OnOk result (string_bytes out.new ≡ string_bytes out.old
        ++ flat_map print_line prints.now) }
{
    for value in prints {
        push_print(out, value)?;
    }
    Ok(())
}

fn push_counts(out: &mut String, counts: &[Sums]) -> Result<(), AllocError>
    ensures { OnOk result (string_bytes out.new ≡ string_bytes out.old
        ++ flat_map count_line counts.now) }
{
    for sums in counts {
        push_sums(out, sums)?;
    }
    Ok(())
}

fn end_word(status: &Status) -> &'static str
    requires { IsEnd status.now }
    ensures { result.now ≡ end_word status.now }
{
    match status {
        Status::Quiet => "quiet",
        Status::Budget => "budget",
        Status::ActorsFull { .. } => "actors",
        Status::RowsFull { .. } => "rows",
        _ => unreachable!(),
    }
}

/// The report as text.
fn report_text(
    alloc: Global,
    status: &Status,
    prints: &[Value],
    actors: Numbers,
    objects: Numbers,
    counts: Option<&Tally>,
    book: Option<&Book>,
) -> Result<String, AllocError>
    requires { IsEnd status.now }
    ensures { IfOk result (λ text. string_bytes text ≡ report_of status.now prints.now actors objects
        (option_map (λ t. t.now.sums) counts.entry) (option_map (λ b. b.now) book.entry)) }
{
    let mut out = String::new(alloc);
    push_prints(&mut out, prints)?;
    let end = end_word(status);
    write!(out, "--\nend {end}\n")?;
    push_numbers(&mut out, "actors", actors)?;
    push_numbers(&mut out, "objects", objects)?;
    if let Some(tally) = counts {
        push_counts(&mut out, tally.sums.as_slice())?;
    }
    if let Some(book) = book {
        write!(out, "{book}")?;
    }
    Ok(out)
}

/// The report of a run that ended: its prints, how it ended, what was made and is left, and where
/// they are asked for, the counts of what is left and the run book.
///
/// # Errors
/// `NoMemory` where memory was refused.
pub fn report(
    alloc: Global,
    status: &Status,
    prints: &[Value],
    actors: Numbers,
    objects: Numbers,
    counts: Option<&Tally>,
    book: Option<&Book>,
) -> Result<Vec<u8>, NoMemory>
    requires { IsEnd status.now }
    ensures { IfOk result (λ bytes. bytes.items ≡ report_of status.now prints.now actors objects
        (option_map (λ t. t.now.sums) counts.entry) (option_map (λ b. b.now) book.entry)) }
{
    let text = report_text(alloc, status, prints, actors, objects, counts, book)?;
    Ok(text.into_bytes())
}
