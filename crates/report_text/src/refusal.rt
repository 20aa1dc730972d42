// The line of a refusal.

ghost use Rattle.std.specs.Prelude.{◌≡◌, IfOk, string_bytes};
ghost use Rattle.report_text.specs.Refusals.{HasRefusal, refusal_of};

use crate::status::Status;
use orca_names::NoMemory;
use std::alloc::{AllocError, Global};

/// The line of a refusal as text; no text where the status has none.
fn refusal_text(alloc: Global, status: &Status) -> Result<String, AllocError>
    ensures { IfOk result (λ text. string_bytes text ≡ refusal_of status.now) }
{
    match status {
        Status::BadWords => format!(in alloc; "refused words\n"),
        Status::ReadFault => format!(in alloc; "refused read\n"),
        Status::TooLong => format!(in alloc; "refused length\n"),
        Status::BadText { line, kind } => {
            format!(in alloc; "refused text line {line} kind {kind}\n")
        }
        Status::BadProgram {
            kind,
            behaviour,
            step,
            rule,
        } => {
            format!(in alloc;
                "refused program kind {kind} behaviour {behaviour} step {step} rule {rule}\n"
            )
        }
        Status::BadBook { line, kind } => {
            format!(in alloc; "refused book line {line} kind {kind}\n")
        }
        Status::NotARun { place, cause } => {
            format!(in alloc; "run no entry {place} cause {cause}\n")
        }
        _ => Ok(String::new(alloc)),
    }
}

/// The line that is written of a refusal, with its line feed.
///
/// # Errors
/// `NoMemory` where memory was refused.
pub fn refusal_line(alloc: Global, status: &Status) -> Result<Vec<u8>, NoMemory>
    requires { HasRefusal status.now }
    ensures { IfOk result (λ line. line.items ≡ refusal_of status.now) }
{
    Ok(refusal_text(alloc, status)?.into_bytes())
}
