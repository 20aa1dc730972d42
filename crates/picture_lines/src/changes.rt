// What changes of a part, by the texts of its lines before and after.

ghost use Rattle.std.specs.Prelude.{◌≡◌, ◌++◌, ◌∷◌, [], codes, List, OnOk, string_bytes};
ghost use Rattle.std.specs.Fmt.{decimal};
ghost use Rattle.picture_rules.specs.Words.{Line, text_of_lines};
ghost use Rattle.picture_rules.specs.Parts.{part_change, where_changed};

use orca_names::ActorName;
use std::alloc::AllocError;

/// The lines after, or one that says that the part is no more, where the texts are not the same.
fn push_part_change(
    out: &mut String,
    gone: &str,
    number: u64,
    before: &str,
    after: &str,
) -> Result<(), AllocError>
    ensures { (b a : List Line) → before.now ≡ text_of_lines b → after.now ≡ text_of_lines a
        → OnOk result (string_bytes out.new ≡ string_bytes out.old
        ++ text_of_lines (part_change (gone.now ∷ decimal number ∷ []) b a)) }
{
    if before == after {
        return Ok(());
    }
    if after.is_empty() {
        write!(out, "{gone} {number}\n")
    } else {
        out.push_str(after)
    }
}

/// What changes of an actor, of the texts of its lines before and after, each empty where it is not
/// there.
///
/// # Errors
/// `AllocError` where memory was refused.
pub fn push_seat_change(
    out: &mut String,
    actor: ActorName,
    before: &str,
    after: &str,
) -> Result<(), AllocError>
    ensures { (b a : List Line) → before.now ≡ text_of_lines b → after.now ≡ text_of_lines a
        → OnOk result (string_bytes out.new ≡ string_bytes out.old
        ++ text_of_lines (part_change (codes "gone" ∷ decimal actor ∷ []) b a)) }
{
    push_part_change(out, "gone", u64::from(actor.0), before, after)
}

/// What changes of the report of an actor, of the texts of its line before and after, each empty where
/// none is kept.
///
/// # Errors
/// `AllocError` where memory was refused.
pub fn push_report_change(
    out: &mut String,
    actor: ActorName,
    before: &str,
    after: &str,
) -> Result<(), AllocError>
    ensures { (b a : List Line) → before.now ≡ text_of_lines b → after.now ≡ text_of_lines a
        → OnOk result (string_bytes out.new ≡ string_bytes out.old
        ++ text_of_lines (part_change (codes "withdrawn" ∷ decimal actor ∷ []) b a)) }
{
    push_part_change(out, "withdrawn", u64::from(actor.0), before, after)
}

/// What changes of a token, of the texts of its lines before and after, each empty where it is not open.
///
/// # Errors
/// `AllocError` where memory was refused.
pub fn push_token_change(
    out: &mut String,
    token: u64,
    before: &str,
    after: &str,
) -> Result<(), AllocError>
    ensures { (b a : List Line) → before.now ≡ text_of_lines b → after.now ≡ text_of_lines a
        → OnOk result (string_bytes out.new ≡ string_bytes out.old
        ++ text_of_lines (part_change (codes "closed" ∷ decimal token ∷ []) b a)) }
{
    push_part_change(out, "closed", token, before, after)
}

/// What changes of the detector, which is always there, of the texts of its line before and after.
///
/// # Errors
/// `AllocError` where memory was refused.
pub fn push_detector_change(out: &mut String, before: &str, after: &str) -> Result<(), AllocError>
    ensures { (b a : List Line) → before.now ≡ text_of_lines b → after.now ≡ text_of_lines a
        → OnOk result (string_bytes out.new ≡ string_bytes out.old
        ++ text_of_lines (where_changed b a a)) }
{
    if before == after {
        return Ok(());
    }
    out.push_str(after)
}
